// Paper 01, "Commands": where text leaves the cursor and whether it marks the page, and how far a move forward goes.
// Nothing is refused, and any cursor is taken.
#![tactic(auto)]

ghost use Rattle.std.specs.Prelude.{◌≡◌, cond, not, ◌||◌, eqb, leb};
ghost use Rattle.rules.specs.Measure.{LW};
ghost use Rattle.do_text.specs.Cursor.{forward_spot, typed_spot, typed_pen, TypedAll};

use rules::{Layout, Page, Spot};
use state_page::{into_width, width};
use state_pen::Pen;

// Where a move forward stops: R if x ≤ R, else LW.
fn stop_at(g: Page, x: u32, right: u32) -> u32
    ensures { result ≡ cond (leb x right) right (LW g) }
{
    if x <= right { right } else { width(g) }
}

// The cursor moved forward to n, as far as it may.
pub fn forward_at(g: Page, n: u64, at: Spot, l: Layout) -> Spot
    ensures { result ≡ forward_spot g n at l }
{
    let stop = u64::from(stop_at(g, at.x, l.right));
    let x = into_width(g, n.min(stop));
    Spot { x, ..at }
}

// The cursor behind a space or a text byte.
fn typed_at(g: Page, at: Spot, l: Layout) -> Spot
    ensures { result ≡ typed_spot g at l }
{
    forward_at(g, u64::from(at.x) + u64::from(l.hmi), at, l)
}

// Whether the page is used behind this byte: all but a space mark it.
fn marked(used: bool, b: u8) -> bool
    ensures { result ≡ (used || not (eqb b 32)) }
{
    used || b != 32
}

// The pen behind a space or a text byte: the cursor moves, and the page is used or not.
pub fn typed_pen(g: Page, p: Pen, b: u8) -> Pen
    ensures { result ≡ typed_pen g p b }
{
    Pen {
        at: typed_at(g, p.at, p.layout),
        used: marked(p.used, b),
        ..p
    }
}

// Where text leaves the cursor, and whether the page is then used.
#[derive(Clone, Copy)]
pub struct Typed {
    pub at: Spot,
    pub used: bool,
}

// &p#X: each payload byte moves as text.
pub fn typed_all(g: Page, s: &[u8], from: Spot, l: Layout, was: bool) -> Typed
    ensures { TypedAll g s.now from l was result }
{
    let mut at = from;
    let mut used = was;
    for b in s {
        at = typed_at(g, at, l);
        used = marked(used, *b);
    }
    Typed { at, used }
}
