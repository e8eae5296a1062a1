// Paper 01, "Commands": what a command changes in the raster state, or rows skipped, or the finding that bars it, whatever the layout and the depth of
// the stack.
#![tactic(auto, unfolding(do_change::specs::Changed::change_of, do_change::specs::Changed::change_by, rules::specs::Effects::barred, rules::specs::Effects::effect, rules::specs::Effects::started_at))]

ghost use Rattle.std.specs.Prelude.{◌≡◌, ℕ, ◌*◌, ◌/◌, ◌≤◌, Ok};
ghost use Rattle.rules.specs.declared.Measure.{Measure};
ghost use Rattle.rules.specs.declared.Value.{Value};
ghost use Rattle.rules.specs.declared.Spot.{Spot};
ghost use Rattle.rules.specs.declared.Layout.{Layout};
ghost use Rattle.rules.specs.declared.Kind.TheVariants.{Resolution, StartRaster, EndRaster, ResetRaster, SkipRows};
ghost use Rattle.rules.specs.Measure.{inch};
ghost use Rattle.do_change.specs.Changed.{change_of};

use do_change::Change;
use do_value::whole_part;
use rules::{Finding, Page, Raster, Spot, Value};
use state_page::{inch_over, into_height, is_resolution};

// The height of n rows.
fn rows_high(n: u32, resolution: u16) -> u64
    requires { n ≤ 429496 }
    ensures { (result ≡ n * (inch / resolution)) × (result ≤ 3092371200) }
{
    u64::from(n) * u64::from(inch_over(u32::from(resolution)))
}

// *t#R: the resolution set, unless raster is started.
pub fn resolution_at(v: Value, r: Raster) -> Result<Change, Finding>
    ensures { (g : Measure) (p : Spot) (l : Layout) (deep : ℕ) → result ≡ change_of g Resolution v p l r deep }
{
    let n = whole_part(v);
    if !is_resolution(n) {
        return Err(Finding::NotAllowed);
    }
    if r.started {
        return Err(Finding::NotNow);
    }
    let resolution = n as u16;
    Ok(Change::Drawn(Raster { resolution, ..r }))
}

// *r#A: raster started, the graphics margin 0 or x.
pub fn start_at(v: Value, at: Spot, r: Raster) -> Result<Change, Finding>
    ensures { (g : Measure) (l : Layout) (deep : ℕ) → result ≡ change_of g StartRaster v at l r deep }
{
    let margin = match whole_part(v) {
        0 => 0,
        1 => at.x,
        _ => return Err(Finding::NotAllowed),
    };
    if r.started {
        return Err(Finding::NotNow);
    }
    Ok(Change::Fresh(Raster {
        started: true,
        margin,
        ..r
    }))
}

// *rB: raster ended.
pub fn end_at(r: Raster) -> Change
    ensures { (g : Measure) (v : Value) (p : Spot) (l : Layout) (deep : ℕ) → Ok result ≡ change_of g EndRaster v p l r deep }
{
    let ended = Raster {
        started: false,
        ..r
    };
    Change::Drawn(ended)
}

// *rC: raster ended, the graphics margin 0, the seed row zeroed, the row method 0.
pub fn reset_at(r: Raster) -> Change
    ensures { (g : Measure) (v : Value) (p : Spot) (l : Layout) (deep : ℕ) → Ok result ≡ change_of g ResetRaster v p l r deep }
{
    Change::Reset(Raster {
        started: false,
        margin: 0,
        ..r
    })
}

// *b#Y: the cursor n rows further down, if raster is started.
pub fn skip_at(g: Page, v: Value, at: Spot, r: Raster) -> Result<Change, Finding>
    ensures { (l : Layout) (deep : ℕ) → result ≡ change_of g SkipRows v at l r deep }
{
    if !r.started {
        return Err(Finding::NotNow);
    }
    let skipped = rows_high(whole_part(v), r.resolution);
    let y = into_height(g, u64::from(at.y) + skipped);
    Ok(Change::To(Spot { y, ..at }))
}
