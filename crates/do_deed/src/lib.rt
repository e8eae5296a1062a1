// What an item did, told apart from the large parts of the core, which stay where they are: the pen and the row method behind it, its finding, whether
// it ended the page, and what is to be done to the stack.
#![tactic(auto)]

ghost use Rattle.std.specs.Prelude.{◌≡◌, false};
ghost use Rattle.do_deed.specs.Deeds.{deed_of};

use rules::{Beside, Finding};
use state_pen::Pen;

// What is to be done to the stack: nothing; the cursor that was is put on it; the cursor is taken off it; all its places are freed.
#[derive(Clone, Copy, PartialEq, Eq)]
pub enum Stacking {
    Kept,
    Pushed,
    Popped,
    Emptied,
}

// What an item did besides the page and the seed row: the pen and the row method behind it, its finding, and whether it ended the page. Pen and row
// method stay apart, here and in the functions that take both, because the rules' clauses speak of a core and of what is beside it apart: one struct of
// both would put `.pen` and `.beside` into each clause.
#[derive(Clone, Copy)]
pub struct Deed {
    pub pen: Pen,
    pub beside: Beside,
    pub finding: Finding,
    pub ended: bool,
    pub stacking: Stacking,
}

impl Deed {
    // Nothing is done to the stack, and no page ended.
    pub fn kept(finding: Finding, pen: Pen, beside: Beside) -> Deed
        ensures { result ≡ deed_of pen beside finding false Stacking.Kept }
    {
        Deed {
            pen,
            beside,
            finding,
            ended: false,
            stacking: Stacking::Kept,
        }
    }

    // A push or a pop: it finds nothing, and no page ended.
    pub fn stacked(stacking: Stacking, pen: Pen, beside: Beside) -> Deed
        ensures { result ≡ deed_of pen beside Finding.Nothing false stacking }
    {
        Deed {
            stacking,
            ..Deed::kept(Finding::Nothing, pen, beside)
        }
    }
}
