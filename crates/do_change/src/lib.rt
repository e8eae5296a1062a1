// Paper 01, "Commands": what a command with a value changes, apart from the rest of the core, which is large with its stack and its seed row and is not
// handed over; who has it sets what is told. And the stack's own command.
#![tactic(auto)]

ghost use Rattle.std.specs.Prelude.{◌≡◌};
ghost use Rattle.rules.specs.declared.Measure.{Measure};
ghost use Rattle.rules.specs.declared.Spot.{Spot};
ghost use Rattle.rules.specs.declared.Layout.{Layout};
ghost use Rattle.rules.specs.declared.Raster.{Raster};
ghost use Rattle.rules.specs.declared.Kind.TheVariants.{PushPop};
ghost use Rattle.do_change.specs.Changed.{change_of};

use do_value::whole_part;
use rules::{Finding, Layout, Raster, Spot, Value};

// What a command changes, and nothing else.
#[derive(Drop)]
pub enum Change {
    To(Spot), // the cursor
    Laid(Spot, Layout), // the cursor and the layout
    Drawn(Raster), // the raster state
    Fresh(Raster), // the same, and the seed row is zeroed
    Reset(Raster), // the same, and the row method is 0
    Pushed, // the cursor is put on the stack
    Popped, // and taken off it
}

// &f#S: 0 push, 1 pop, else 4; 5 where the stack is full or empty.
#[tactic(auto, unfolding(crate::specs::Changed::change_of, crate::specs::Changed::change_by, rules::specs::Effects::barred))]
pub fn push_pop(v: Value, depth: usize) -> Result<Change, Finding>
    ensures { (g : Measure) (p : Spot) (l : Layout) (q : Raster) → result ≡ change_of g PushPop v p l q depth }
{
    match whole_part(v) {
        0 if depth < 20 => Ok(Change::Pushed),
        1 if 0 < depth => Ok(Change::Popped),
        0 | 1 => Err(Finding::StackLimit),
        _ => Err(Finding::NotAllowed),
    }
}
