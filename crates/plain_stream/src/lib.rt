// The plain stream of a stream that a call has taken, written as far as there is room. No page is drawn and no state handed in; the state's functions are
// those of a run. Nothing is refused: a measure within 4,800 by 6,800 dots and a stream of at most 1,048,576 bytes are asked for.
#![tactic(auto)]

ghost use Rattle.std.specs.Prelude.{◌≡◌, true, List, ℕ, ◌+◌, ◌-◌, ◌≤◌, min, length, take};
ghost use Rattle.common.specs.Stores.{Puts};
ghost use Rattle.rules.specs.Measure.{longest_stream};
ghost use Rattle.theorems.specs.Facts.{Fits};
ghost use Rattle.read_item.specs.Items.{item_in, from_of, to_of};
ghost use Rattle.plain_item.specs.Plain.{PutsShort, plain_item};
ghost use Rattle.plain_stream.specs.Runs.{text_run};
ghost use Rattle.plain_stream.specs.Staying.{stays};
ghost use Rattle.plain_stream.specs.Walked.{walked};

use do_item::do_item;
use plain_item::write_item;
use plain_short::{write_code, write_one};
use read_item::{Item, is_text, read_item};
use row_piece::copy;
use rules::{Command, Finding, Page};
use run_items::{is_over, text_next};
use state_afresh::afresh;
use state_pen::pen_of;

// How many bytes at the front are text.
fn text_run(s: &[u8]) -> usize
    ensures { (result ≡ text_run s.now) × (result ≤ length s.now) }
{
    for (n, b) in s.iter().enumerate() {
        if !is_text(*b) {
            return n;
        }
    }
    s.len()
}

// The text at the front, as far as it is wanted: up to the byte with which more than `most` bytes are written, behind which nothing is looked at. What is
// given is how many bytes that is.
fn write_text(s: &[u8], room: &mut [u8], end: usize, most: usize) -> usize
    requires { end ≤ most }
    ensures { (result ≡ min (text_run s.now) (most - end + 1)) × Puts room.old end (take result s.now) room.new (end + result) }
{
    let wanted = (most - end).saturating_add(1);
    let n = text_run(&s[..wanted.min(s.len())]);
    copy(room, end, s, 0, n);
    n
}

// Whether an item changes nothing that an item's meaning looks at. By `matches!` commands take longer (docs/DESIGN-PASS.md).
fn stays(i: Item) -> bool
    ensures { (s : List ℕ) → result ≡ stays (item_in s i) }
{
    match i {
        Item::Text(_) | Item::Code(_) | Item::Broken(_) => true,
        Item::Two(_) => false,
        Item::Command { command, .. } => command == Command::Unknown,
    }
}

// Such an item in the plain stream: nothing is written for broken pieces and for commands that are not known.
fn write_still(i: Item, room: &mut [u8], at: usize) -> usize
    requires { (at ≤ 1099511627775) × ((s : List ℕ) → stays (item_in s i) ≡ true) }
    ensures { (s row : List ℕ) (f : Finding) → PutsShort room.old at (plain_item (item_in s i) f row) room.new result }
{
    match i {
        Item::Text(b) => write_one(b, room, at),
        Item::Code(b) => write_code(b, room, at),
        _ => at,
    }
}

// An item that is done, in the plain stream: a row is the front of the seed row that it left.
fn write_done(
    s: &[u8],
    i: Item,
    f: Finding,
    seed: &[u8],
    wide: usize,
    room: &mut [u8],
    at: usize,
) -> usize
    requires { (from_of i ≤ to_of i) × (to_of i ≤ length s.now) × (to_of i ≤ from_of i + 32767) × (wide ≤ 600) × (wide ≤ length seed.now) × (at ≤ 1099511627775) }
    ensures { PutsShort room.old at (plain_item (item_in s.now i) f (take wide seed.now)) room.new result }
{
    write_item(s, i, f, &seed[..wide], room, at)
}

// The stream walked from its start, afresh, to its end: what changes nothing that an item's meaning looks at is written here, all else is done by
// `do_item`. What is drawn falls on a page of no bytes. What an item means hangs on no cursor, so text and codes do not move the pen here, and there is no
// stack: a pop leaves the pen where it is, and its depth is what counts. The walk ends early, behind the item with which more than `most` bytes are written.
pub fn write_stream(g: Page, s: &[u8], room: &mut [u8], most: usize) -> usize
    requires { Fits g × (length s.now ≤ longest_stream) }
    ensures { Puts room.old 0 (walked g most s.now) room.new result }
{
    let t = afresh(g);
    let mut pen = pen_of(t.core);
    let mut seed = t.core.seed;
    let mut beside = t.beside;
    let mut sequence = t.sequence;
    let mut at = 0;
    let mut end = 0;
    // A turn takes one item, or a run of text, so its step is the item's own. The room is no Writer's: a walk counts also what the room does not hold, and
    // `write_stream` is to say how long the plain stream is whatever the room.
    loop {
        if most < end {
            return end;
        }
        if text_next(s, at, sequence) {
            let n = write_text(&s[at..], room, end, most);
            at += n;
            end += n;
            continue;
        }
        if is_over(s, at, sequence) {
            return end;
        }
        let r = read_item(s, at, sequence);
        sequence = r.sequence;
        at = r.next;
        if stays(r.item) {
            end = write_still(r.item, room, end);
            continue;
        }
        let d = do_item(&mut room[0..0], g, s, r.item, pen, beside, &mut seed);
        pen = d.pen;
        beside = d.beside;
        end = write_done(s, r.item, d.finding, &seed, g.wide(), room, end);
    }
}
