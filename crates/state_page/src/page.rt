// Paper 01, "Measures": the page, and places brought into it.
ghost use Rattle.std.specs.Prelude.{◌≡◌, cond, Some, None, ◌≤◌, ◌<◌, leb};
ghost use Rattle.rules.specs.Measure.{allowed, measure_of, LW, LH, into_width, into_height};
ghost use Rattle.rules.specs.States.{first_line_at};

use rules::{Layout, Measure, Page};

// Whether a page may have this width and height, in dots.
#[tactic(auto, unfolding(rules::specs::Measure::allowed))]
pub fn allowed(w: usize, h: usize) -> bool
    ensures { result ≡ allowed w h }
{
    w % 8 == 0 && 8 <= w && w <= 4800 && 1 <= h && h <= 6800
}

// The measure of a page of this width and height, in dots.
pub fn measure_of(w: usize, h: usize) -> Measure
    ensures { result ≡ measure_of w h }
{
    Measure {
        wide: w / 8,
        high: h,
    }
}

// The page of this width and height, in dots, where that is allowed.
#[tactic(auto, unfolding(rules::specs::Measure::allowed))]
pub fn page_of(w: usize, h: usize) -> Option<Page>
    ensures { result ≡ cond (allowed w h) (Some (measure_of w h)) None }
{
    if allowed(w, h) {
        Some(Page::new(measure_of(w, h)))
    } else {
        None
    }
}

// LW, the page's width in units.
pub fn width(g: Page) -> u32
    ensures { (result ≡ LW g) × (result ≤ 115200) }
{
    (24 * (8 * g.wide())) as u32
}

// LH, the page's height in units.
pub fn height(g: Page) -> u32
    ensures { (result ≡ LH g) × (result ≤ 163200) }
{
    (24 * g.high()) as u32
}

// Whether a place lies in the page's width.
pub fn in_width(g: Page, n: u64) -> bool
    ensures { result ≡ leb n (LW g) }
{
    n <= width(g) as u64
}

// Whether a place lies in the page's height.
pub fn in_height(g: Page, n: u64) -> bool
    ensures { result ≡ leb n (LH g) }
{
    n <= height(g) as u64
}

// A place across the page, brought into its width.
pub fn into_width(g: Page, n: u64) -> u32
    ensures { result ≡ into_width g n }
{
    let widest = width(g);
    n.min(u64::from(widest)) as u32
}

// A place down the page, brought into its height.
pub fn into_height(g: Page, n: u64) -> u32
    ensures { result ≡ into_height g n }
{
    let highest = height(g);
    if n < highest as u64 {
        n as u32
    } else {
        highest
    }
}

// The first line of a page: the top margin and three quarters of VMI.
pub fn first_line_at(l: Layout) -> u64
    ensures { (result ≡ first_line_at l) × (result < 8589934592) }
{
    l.top as u64 + (l.vmi as u64) * 3 / 4
}
