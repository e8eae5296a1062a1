// Paper 01, "Commands": what a command changes in the margins, the spacing and the line termination, or the finding that bars it, whatever the raster
// state and the depth of the stack.
#![tactic(auto, unfolding(do_change::specs::Changed::change_of, do_change::specs::Changed::change_by, rules::specs::Effects::barred, rules::specs::Effects::effect))]

ghost use Rattle.std.specs.Prelude.{◌≡◌, ℕ, ◌+◌, ◌*◌, min, Ok};
ghost use Rattle.common.specs.Choice.{one_of};
ghost use Rattle.rules.specs.declared.Measure.{Measure};
ghost use Rattle.rules.specs.declared.Raster.{Raster};
ghost use Rattle.rules.specs.declared.Kind.TheVariants.{LeftMargin, RightMargin, TopMargin, Vmi, LinesPerInch, Hmi, Termination};
ghost use Rattle.rules.specs.Measure.{LW};
ghost use Rattle.rules.specs.Number.{whole_part};
ghost use Rattle.rules.specs.Effects.{line_rates};
ghost use Rattle.do_change.specs.Changed.{change_of};

use do_change::Change;
use do_value::{size_of, whole_part};
use rules::{Finding, Layout, Page, Spot, Value};
use state_page::{in_height, inch_over, into_width};

// The whole part of the value, times a unit.
fn times(v: Value, unit: u32) -> u64
    ensures { result ≡ whole_part v * unit }
{
    u64::from(whole_part(v)) * u64::from(unit)
}

// Where &a#M sets the right margin, no more than LW: the column that it names is left of it.
fn new_right(g: Page, v: Value, hmi: u32) -> u32
    ensures { result ≡ min ((whole_part v + 1) * hmi) (LW g) }
{
    let columns = u64::from(whole_part(v)) + 1;
    into_width(g, columns * u64::from(hmi))
}

// Whether &l#D takes this number of lines.
fn is_line_rate(n: u32) -> bool
    ensures { result ≡ one_of line_rates n }
{
    matches!(n, 1 | 2 | 3 | 4 | 6 | 8 | 12 | 16 | 24 | 48)
}

// &a#L: the left margin set; x left of L moves to L.
pub fn left_at(g: Page, v: Value, at: Spot, l: Layout) -> Result<Change, Finding>
    ensures { (q : Raster) (deep : ℕ) → result ≡ change_of g LeftMargin v at l q deep }
{
    let left = times(v, l.hmi);
    if u64::from(l.right) <= left {
        return Err(Finding::NotAllowed);
    }
    let x = into_width(g, u64::from(at.x).max(left));
    Ok(Change::Laid(
        Spot { x, ..at },
        Layout {
            left: left as u32,
            ..l
        },
    ))
}

// &a#M: the right margin set; x right of R moves to R.
pub fn right_at(g: Page, v: Value, at: Spot, l: Layout) -> Result<Change, Finding>
    ensures { (q : Raster) (deep : ℕ) → result ≡ change_of g RightMargin v at l q deep }
{
    let right = new_right(g, v, l.hmi);
    if right <= l.left {
        return Err(Finding::NotAllowed);
    }
    let x = into_width(g, u64::from(at.x.min(right)));
    Ok(Change::Laid(Spot { x, ..at }, Layout { right, ..l }))
}

// &l#E: the top margin set; y stays.
pub fn top_at(g: Page, v: Value, at: Spot, l: Layout) -> Result<Change, Finding>
    ensures { (q : Raster) (deep : ℕ) → result ≡ change_of g TopMargin v at l q deep }
{
    let top = times(v, l.vmi);
    if l.vmi == 0 || !in_height(g, top) {
        return Err(Finding::NotAllowed);
    }
    Ok(Change::Laid(
        at,
        Layout {
            top: top as u32,
            ..l
        },
    ))
}

// &l#C: VMI set, for a value of at most 336.
pub fn vmi_at(v: Value, at: Spot, l: Layout) -> Result<Change, Finding>
    ensures { (g : Measure) (q : Raster) (deep : ℕ) → result ≡ change_of g Vmi v at l q deep }
{
    let size = size_of(v);
    if 3360000 < size {
        return Err(Finding::NotAllowed);
    }
    Ok(Change::Laid(
        at,
        Layout {
            vmi: size * 150 / 10000,
            ..l
        },
    ))
}

// &l#D: VMI set to so many lines to an inch.
pub fn lines_at(v: Value, at: Spot, l: Layout) -> Result<Change, Finding>
    ensures { (g : Measure) (q : Raster) (deep : ℕ) → result ≡ change_of g LinesPerInch v at l q deep }
{
    let n = whole_part(v);
    if !is_line_rate(n) {
        return Err(Finding::NotAllowed);
    }
    Ok(Change::Laid(
        at,
        Layout {
            vmi: inch_over(n),
            ..l
        },
    ))
}

// &k#H: HMI set, whatever the value.
pub fn hmi_at(v: Value, at: Spot, l: Layout) -> Change
    ensures { (g : Measure) (q : Raster) (deep : ℕ) → Ok result ≡ change_of g Hmi v at l q deep }
{
    let hmi = (u64::from(size_of(v)) * 60 / 10000) as u32;
    Change::Laid(at, Layout { hmi, ..l })
}

// &k#G: the line termination set.
pub fn termination_at(v: Value, at: Spot, l: Layout) -> Result<Change, Finding>
    ensures { (g : Measure) (q : Raster) (deep : ℕ) → result ≡ change_of g Termination v at l q deep }
{
    let n = whole_part(v);
    if 3 < n {
        return Err(Finding::NotAllowed);
    }
    Ok(Change::Laid(
        at,
        Layout {
            termination: n as u8,
            ..l
        },
    ))
}
