// Paper 01, "Commands": where control codes and two-byte commands leave the cursor and the layout, and which codes end the page.
// Nothing is refused, and any cursor and any layout are taken.
#![tactic(auto)]

ghost use Rattle.std.specs.Prelude.{◌≡◌, cond, ◌||◌, ◌+◌, ◌*◌, ◌-◌, ◌/◌, ◌<◌, max, eqb, ltb};
ghost use Rattle.rules.specs.declared.Core.{Core};
ghost use Rattle.rules.specs.declared.Code.TheVariants.{CarriageReturn, LineFeed, FormFeed, Backspace, Tab};
ghost use Rattle.rules.specs.Measure.{LW, half, into_width, into_height};
ghost use Rattle.rules.specs.States.{at_x, at_y, with_left, with_right};
ghost use Rattle.rules.specs.Acts.{ends_page, control};
ghost use Rattle.do_code.specs.Moved.{Moved};

use do_text::forward_at;
use rules::{Code, Layout, Page, Spot};
use state_page::{first_line_at, into_height, into_width, width};

// CR alone: x = L.
fn return_at(g: Page, at: Spot, l: Layout) -> Spot
    ensures { result ≡ at_x (into_width g l.left) at }
{
    Spot {
        x: into_width(g, u64::from(l.left)),
        ..at
    }
}

// LF alone: y + VMI.
fn feed_at(g: Page, at: Spot, l: Layout) -> Spot
    ensures { result ≡ at_y (into_height g (at.y + l.vmi)) at }
{
    Spot {
        y: into_height(g, u64::from(at.y) + u64::from(l.vmi)),
        ..at
    }
}

// What CR does behind it: the line terminations 1 and 3 make it do LF too.
fn behind_return(g: Page, at: Spot, l: Layout) -> Spot
    ensures { result ≡ cond (eqb l.termination 1 || eqb l.termination 3) (at_y (into_height g (at.y + l.vmi)) at) at }
{
    if matches!(l.termination, 1 | 3) {
        feed_at(g, at, l)
    } else {
        at
    }
}

// The code CR.
fn code_return(g: Page, at: Spot, l: Layout) -> Spot
    ensures { Moved g CarriageReturn at l result }
{
    behind_return(g, return_at(g, at, l), l)
}

// What LF and FF do first: the line terminations 2 and 3 make them do CR too.
fn before_feed(g: Page, at: Spot, l: Layout) -> Spot
    ensures { result ≡ cond (eqb l.termination 2 || eqb l.termination 3) (at_x (into_width g l.left) at) at }
{
    if matches!(l.termination, 2 | 3) {
        return_at(g, at, l)
    } else {
        at
    }
}

// The code LF.
fn code_feed(g: Page, at: Spot, l: Layout) -> Spot
    ensures { Moved g LineFeed at l result }
{
    feed_at(g, before_feed(g, at, l), l)
}

// The code FF: the first line of the next page.
fn code_page(g: Page, at: Spot, l: Layout) -> Spot
    ensures { Moved g FormFeed at l result }
{
    Spot {
        y: into_height(g, first_line_at(l)),
        ..before_feed(g, at, l)
    }
}

// Where BS goes: from x > L to no less than L, from x < L to no less than 0; at L no move.
fn back_to(x: u32, left: u32, hmi: u32) -> u32
    ensures { result ≡ cond (ltb left x) (max (x - hmi) left) (cond (eqb x left) x (x - hmi)) }
{
    let back = x.saturating_sub(hmi);
    if left < x {
        back.max(left)
    } else if x == left {
        x
    } else {
        back
    }
}

// The code BS.
fn code_back(g: Page, at: Spot, l: Layout) -> Spot
    ensures { Moved g Backspace at l result }
{
    let back = back_to(at.x, l.left, l.hmi);
    Spot {
        x: into_width(g, u64::from(back)),
        ..at
    }
}

// The first tab stop beyond x: the stops are L + 8k × HMI.
fn next_stop(x: u32, left: u32, hmi: u32) -> u64
    requires { 0 < hmi }
    ensures { result ≡ cond (ltb x left) left (left + ((x - left) / (8 * hmi) + 1) * (8 * hmi)) }
{
    if x < left {
        return u64::from(left);
    }
    let apart = 8 * u64::from(hmi);
    let passed = u64::from(x - left) / apart;
    u64::from(left) + (passed + 1) * apart
}

// The code HT, which does nothing if HMI is 0.
fn code_tab(g: Page, at: Spot, l: Layout) -> Spot
    ensures { Moved g Tab at l result }
{
    if l.hmi == 0 {
        return at;
    }
    forward_at(g, next_stop(at.x, l.left, l.hmi), at, l)
}

// Where a control code leaves the cursor.
pub fn coded_at(g: Page, k: Code, at: Spot, l: Layout) -> Spot
    ensures { Moved g k at l result }
{
    match k {
        Code::CarriageReturn => code_return(g, at, l),
        Code::LineFeed => code_feed(g, at, l),
        Code::FormFeed => code_page(g, at, l),
        Code::Backspace => code_back(g, at, l),
        Code::Tab => code_tab(g, at, l),
    }
}

// Whether a control code ends the page, used or not: FF alone.
#[tactic(auto, unfolding(rules::specs::Acts::ends_page))]
pub fn code_ends_page(k: Code) -> bool
    ensures { (c : Core) → result ≡ ends_page (control k) c }
{
    k == Code::FormFeed
}

// ESC 9: L = 0, R = LW.
pub fn clear_margins(g: Page, l: Layout) -> Layout
    ensures { result ≡ with_left 0 (with_right (LW g) l) }
{
    Layout {
        left: 0,
        right: width(g),
        ..l
    }
}

// ESC =: y + half VMI.
pub fn half_line(g: Page, at: Spot, l: Layout) -> Spot
    ensures { result ≡ at_y (into_height g (at.y + half l.vmi)) at }
{
    Spot {
        y: into_height(g, u64::from(at.y) + u64::from(l.vmi / 2)),
        ..at
    }
}
