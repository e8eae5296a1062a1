// The items that are no command with a letter: text, control codes, two-byte commands and broken pieces. Nothing is refused. That an item is no command
// is asked for.
#![tactic(auto)]

ghost use Rattle.std.specs.Prelude.{◌≡◌, false, cond, List, ℕ};
ghost use Rattle.rules.specs.declared.Core.{Core};
ghost use Rattle.rules.specs.declared.Escape.TheVariants.{Reset, ClearMargins, HalfLine};
ghost use Rattle.rules.specs.Items.{text};
ghost use Rattle.rules.specs.Acts.{gate, control, escape, mean_code, mean_two, mean};
ghost use Rattle.read_item.specs.Items.{item_in};
ghost use Rattle.do_deed.specs.Deeds.{DeedFor};
ghost use Rattle.do_short.specs.Meant.{code_of, escape_of, is_command};

use do_code::{clear_margins, code_ends_page, coded_at, half_line};
use do_deed::{Deed, Stacking};
use do_text::typed_pen;
use read_item::Item;
use rules::{Beside, Code, Escape, Finding, Page};
use state_afresh::fresh_core;
use state_pen::{Pen, pen_of};

// The code that a byte is, if it is one that does something.
fn code_of(b: u8) -> Option<Code>
    ensures { result ≡ code_of b }
{
    match b {
        13 => Some(Code::CarriageReturn),
        10 => Some(Code::LineFeed),
        12 => Some(Code::FormFeed),
        8 => Some(Code::Backspace),
        9 => Some(Code::Tab),
        _ => None,
    }
}

// Whether the page is used behind a code: the next page is unused.
fn used_behind(ended: bool, used: bool) -> bool
    ensures { result ≡ cond ended false used }
{
    !ended && used
}

// A control code.
fn do_code(g: Page, k: Code, p: Pen, m: Beside) -> Deed
    ensures { (b : List ℕ) → DeedFor g (λ (c : Core). gate g (control k) c m) p b result b }
{
    let ended = code_ends_page(k);
    let pen = Pen {
        at: coded_at(g, k, p.at, p.layout),
        used: used_behind(ended, p.used),
        ..p
    };
    Deed {
        ended,
        ..Deed::kept(Finding::Nothing, pen, m)
    }
}

// The byte of a control code: other codes do nothing and give no finding.
fn do_code_byte(g: Page, b: u8, p: Pen, m: Beside) -> Deed
    ensures { (s : List ℕ) → DeedFor g (λ (c : Core). mean_code g b c m) p s result s }
{
    match code_of(b) {
        Some(k) => do_code(g, k, p, m),
        None => Deed::kept(Finding::Nothing, p, m),
    }
}

// The two-byte command that a byte behind ESC names, if it is carried.
fn escape_of(b: u8) -> Option<Escape>
    ensures { result ≡ escape_of b }
{
    match b {
        b'E' => Some(Escape::Reset),
        b'9' => Some(Escape::ClearMargins),
        b'=' => Some(Escape::HalfLine),
        _ => None,
    }
}

// ESC E: ends the page if used, then everything afresh.
fn do_reset(g: Page, p: Pen, seed: &mut [u8; 600]) -> Deed
    ensures { (m : Beside) → DeedFor g (λ (c : Core). gate g (escape Reset) c m) p seed.old result seed.new }
{
    seed.fill(0);
    Deed {
        pen: pen_of(fresh_core(g)),
        beside: Beside { method: 0 },
        finding: Finding::Nothing,
        ended: p.used,
        stacking: Stacking::Emptied,
    }
}

// ESC 9.
fn do_margins(g: Page, p: Pen, m: Beside) -> Deed
    ensures { (b : List ℕ) → DeedFor g (λ (c : Core). gate g (escape ClearMargins) c m) p b result b }
{
    let layout = clear_margins(g, p.layout);
    Deed::kept(Finding::Nothing, Pen { layout, ..p }, m)
}

// ESC =.
fn do_half_line(g: Page, p: Pen, m: Beside) -> Deed
    ensures { (b : List ℕ) → DeedFor g (λ (c : Core). gate g (escape HalfLine) c m) p b result b }
{
    let at = half_line(g, p.at, p.layout);
    Deed::kept(Finding::Nothing, Pen { at, ..p }, m)
}

// A two-byte command.
fn do_escape(g: Page, k: Escape, p: Pen, m: Beside, seed: &mut [u8; 600]) -> Deed
    ensures { DeedFor g (λ (c : Core). gate g (escape k) c m) p seed.old result seed.new }
{
    match k {
        Escape::Reset => do_reset(g, p, seed),
        Escape::ClearMargins => do_margins(g, p, m),
        Escape::HalfLine => do_half_line(g, p, m),
    }
}

// The byte of a two-byte command: one that is not carried gives its finding.
fn do_escape_byte(g: Page, b: u8, p: Pen, m: Beside, seed: &mut [u8; 600]) -> Deed
    ensures { DeedFor g (λ (c : Core). mean_two g b c m) p seed.old result seed.new }
{
    match escape_of(b) {
        Some(k) => do_escape(g, k, p, m, seed),
        None => Deed::kept(Finding::NotCarried, p, m),
    }
}

// A space or a text byte.
fn do_text(g: Page, b: u8, p: Pen, m: Beside) -> Deed
    ensures { (s : List ℕ) → DeedFor g (λ (c : Core). mean g (text b) c m) p s result s }
{
    Deed::kept(Finding::Nothing, typed_pen(g, p, b), m)
}

// An item that is no command: one byte, two, or a broken piece, which does nothing but give its finding. A command does not come here: who calls has
// taken it apart. None of these has a payload, so that they mean the same in every stream.
pub fn do_bytes(g: Page, i: Item, p: Pen, m: Beside, seed: &mut [u8; 600]) -> Deed
    requires { is_command i ≡ false }
    ensures { (s : List ℕ) → DeedFor g (λ (c : Core). mean g (item_in s i) c m) p seed.old result seed.new }
{
    match i {
        Item::Text(b) => do_text(g, b, p, m),
        Item::Code(b) => do_code_byte(g, b, p, m),
        Item::Two(b) => do_escape_byte(g, b, p, m, seed),
        Item::Command { .. } => Deed::kept(Finding::Nothing, p, m),
        Item::Broken(f) => Deed::kept(f, p, m),
    }
}
