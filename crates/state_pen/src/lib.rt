// A core in three parts: its pen, its stack, its seed row. The last two are large, so that a loop keeps them where they are and hands on the pen alone.
#![tactic(auto)]

ghost use Rattle.std.specs.Prelude.{◌≡◌};
ghost use Rattle.state_pen.specs.Pens.{pen_of, core_of};

use rules::{Core, Layout, Raster, Spot};

// The core but for its stack and its seed row.
#[derive(Clone, Copy)]
pub struct Pen {
    pub at: Spot,
    pub layout: Layout,
    pub raster: Raster,
    pub used: bool,
    pub depth: usize,
}

// The pen of a core. A function and no `From`, since it leaves the stack and the seed row behind.
pub fn pen_of(c: Core) -> Pen
    ensures { result ≡ pen_of c }
{
    Pen {
        at: c.at,
        layout: c.layout,
        raster: c.raster,
        used: c.used,
        depth: c.depth,
    }
}

// A core from its pen, its stack and its seed row.
pub fn core_of(p: Pen, stack: [Spot; 20], seed: [u8; 600]) -> Core
    ensures { result ≡ core_of p stack seed }
{
    Core {
        at: p.at,
        layout: p.layout,
        raster: p.raster,
        used: p.used,
        depth: p.depth,
        stack,
        seed,
    }
}
