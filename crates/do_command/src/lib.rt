// The commands but for the row: those with a value and no payload, *b#M and &p#X. A command that is barred gives its finding and changes nothing. A
// depth that the stack holds is asked for.
#![tactic(auto)]

ghost use Rattle.std.specs.Prelude.{List, ℕ, ◌≤◌, Ok};
ghost use Rattle.rules.specs.declared.Core.{Core};
ghost use Rattle.rules.specs.declared.Measure.{Measure};
ghost use Rattle.rules.specs.declared.Command.TheVariants.{Valued, Method, Print};
ghost use Rattle.rules.specs.Acts.{mean_command};
ghost use Rattle.do_change.specs.Changed.{Placed};
ghost use Rattle.do_deed.specs.Deeds.{DeedFor};
ghost use Rattle.do_command.specs.Made.{MadeBy};

use do_change::Change;
use do_deed::{Deed, Stacking};
use do_order::changed;
use do_text::{Typed, typed_all};
use do_value::{is_negative, used_value, whole_negative, whole_part};
use rules::{Beside, Finding, Kind, Page, Value};
use state_pen::Pen;

// A change made to the pen, the seed row and the row method.
fn make(d: Change, p: Pen, m: Beside, seed: &mut [u8; 600]) -> Deed
    requires { Placed (Ok d) p.depth }
    ensures { MadeBy (Ok d) p m seed.old result seed.new }
{
    match d {
        Change::To(at) => Deed::kept(Finding::Nothing, Pen { at, ..p }, m),
        Change::Laid(at, layout) => Deed::kept(Finding::Nothing, Pen { at, layout, ..p }, m),
        Change::Drawn(raster) => Deed::kept(Finding::Nothing, Pen { raster, ..p }, m),
        Change::Fresh(raster) => {
            seed.fill(0);
            Deed::kept(Finding::Nothing, Pen { raster, ..p }, m)
        }
        Change::Reset(raster) => {
            seed.fill(0);
            Deed::kept(Finding::Nothing, Pen { raster, ..p }, Beside { method: 0 })
        }
        Change::Pushed => {
            let depth = p.depth + 1;
            Deed::stacked(Stacking::Pushed, Pen { depth, ..p }, m)
        }
        Change::Popped => {
            let depth = p.depth - 1;
            Deed::stacked(Stacking::Popped, Pen { depth, ..p }, m)
        }
    }
}

// A command with a value and no payload.
pub fn do_valued(g: Page, k: Kind, v: Value, p: Pen, m: Beside, seed: &mut [u8; 600]) -> Deed
    requires { p.depth ≤ 20 }
    ensures { (s : List ℕ) → DeedFor g (λ (c : Core). mean_command g (Valued k v) s c m) p seed.old result seed.new }
{
    if is_negative(k, v) {
        return Deed::kept(Finding::NotAllowed, p, m);
    }
    match changed(g, k, used_value(k, v), p) {
        Ok(d) => make(d, p, m, seed),
        Err(f) => Deed::kept(f, p, m),
    }
}

// *b#M: 0 to 3, else finding 4.
pub fn do_method(v: Value, p: Pen, m: Beside) -> Deed
    ensures { (g : Measure) (s b : List ℕ) → DeedFor g (λ (c : Core). mean_command g (Method v) s c m) p b result b }
{
    if whole_negative(v) {
        return Deed::kept(Finding::NotAllowed, p, m);
    }
    let n = whole_part(v);
    if 3 < n {
        return Deed::kept(Finding::NotAllowed, p, m);
    }
    Deed::kept(Finding::Nothing, p, Beside { method: n as u8 })
}

// &p#X: each payload byte moves as text.
pub fn do_print(g: Page, v: Value, payload: &[u8], p: Pen, m: Beside) -> Deed
    ensures { (b : List ℕ) → DeedFor g (λ (c : Core). mean_command g (Print v) payload.now c m) p b result b }
{
    if whole_negative(v) {
        return Deed::kept(Finding::NotAllowed, p, m);
    }
    let Typed { at, used } = typed_all(g, payload, p.at, p.layout, p.used);
    Deed::kept(Finding::Nothing, Pen { at, used, ..p }, m)
}
