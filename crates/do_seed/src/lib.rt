// What a row does to the state besides its dots and its bytes.
#![tactic(auto)]

ghost use Rattle.std.specs.Prelude.{◌≡◌, cond};
ghost use Rattle.rules.specs.States.{zero_seed};
ghost use Rattle.do_seed.specs.Cursor.{raster_begun, row_spot};

use rules::{Page, Raster, Spot};
use state_page::{inch_over, into_height, into_width};

// The raster state that a row is drawn in: when not started it first acts as *r0A.
pub fn begun_raster(r: Raster) -> Raster
    ensures { result ≡ raster_begun r }
{
    if r.started {
        return r;
    }
    Raster {
        started: true,
        margin: 0,
        ..r
    }
}

// The seed row that a row is decoded with: when not started it is zeroed first.
pub fn begin_seed(started: bool, seed: &mut [u8; 600])
    ensures { seed.new ≡ cond started seed.old zero_seed }
{
    if !started {
        seed.fill(0);
    }
}

// The cursor behind a row.
pub fn row_at(g: Page, at: Spot, r: Raster) -> Spot
    ensures { result ≡ row_spot g at r }
{
    let apart = inch_over(u32::from(r.resolution));
    Spot {
        x: into_width(g, u64::from(r.margin)),
        y: into_height(g, u64::from(at.y) + u64::from(apart)),
    }
}
