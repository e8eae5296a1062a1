// Reading one item of a PCL stream at a place of it. Nothing is refused: what cannot be read is a broken piece, with finding 1 or 2.
// No state is seen but the open sequence.
#![tactic(auto)]

ghost use Rattle.std.specs.Prelude.{◌≡◌, ◌≤◌, ◌<◌, length, drop};
ghost use Rattle.rules.specs.Items.{ends_inside, payload, letter, parameter, group, behind_escape, is_text, read};
ghost use Rattle.read_item.specs.Items.{up_to, ItemAt, Begins};

use read_command::choose;
use read_letter::{Letter, Opening, asked_by, ending_of};
use rules::{Command, Finding, Sequence, Value};

// The byte before each two-byte command and each sequence.
const ESC: u8 = 27;

// An item: text, a control code, a two-byte command, a command whose payload lies in the stream, or a broken piece.
#[derive(Clone, Copy, PartialEq, Eq)]
pub enum Item {
    Text(u8),
    Code(u8),
    Two(u8),
    Command {
        command: Command,
        from: usize,
        to: usize,
    },
    Broken(Finding),
}

// The place behind an item, the item, and the sequence that is open behind it.
#[derive(Clone, Copy, PartialEq, Eq)]
pub struct ReadItem {
    pub next: usize,
    pub item: Item,
    pub sequence: Sequence,
}

// The beginning of an item: a sequence, whose value begins at a place, or an item that is read as a whole. Its first byte and its group are no `Opening`
// here, and `read_item` has the beginning as a local: otherwise the compiler packs bytes into words, which who calls takes apart for each item. `next` is
// the first of a ReadItem, where a sequence has its place: otherwise it shares a word with an item's byte, and the next item waits for it.
#[derive(Clone, Copy)]
enum Begun {
    Sequence { first: u8, group: u8, from: usize },
    Read(ReadItem),
}

// The stream ends inside a sequence, or payload is short: all bytes are taken.
fn ends_inside(s: &[u8]) -> ReadItem
    ensures { result ≡ up_to (length s.now) ends_inside }
{
    ReadItem {
        item: Item::Broken(Finding::EndsInside),
        sequence: Sequence::Closed,
        next: s.len(),
    }
}

// A command whose letter has been read, with its payload, which begins at the place.
fn payload_at(s: &[u8], at: usize, opening: Opening, letter: Letter, v: Value) -> ReadItem
    requires { at ≤ length s.now }
    ensures { result ≡ up_to (length s.now) (payload opening.first opening.group letter.capital v letter.behind (drop at s.now)) }
{
    let n = asked_by(opening, letter.capital, v);
    if s.len() - at < n {
        return ends_inside(s);
    }
    let to = at + n;
    ReadItem {
        item: Item::Command {
            command: choose(opening.first, opening.group, letter.capital, v),
            from: at,
            to,
        },
        sequence: letter.behind,
        next: to,
    }
}

// What ends a command, at the place behind its value.
fn letter_at(s: &[u8], at: usize, opening: Opening, v: Value) -> ReadItem
    ensures { result ≡ up_to (length s.now) (letter opening.first opening.group v (drop at s.now)) }
{
    let Some(&b) = s.get(at) else {
        return ends_inside(s);
    };
    let Some(letter) = ending_of(opening, b) else {
        return ReadItem {
            item: Item::Broken(Finding::CannotStand),
            sequence: Sequence::Closed,
            next: at,
        };
    };
    payload_at(s, at + 1, opening, letter, v)
}

// A value and what ends it.
fn parameter_at(s: &[u8], at: usize, opening: Opening) -> ReadItem
    requires { at ≤ length s.now }
    ensures { result ≡ up_to (length s.now) (parameter opening.first opening.group (drop at s.now)) }
{
    let v = read_number::read_value(s, at);
    letter_at(s, v.next, opening, v.value)
}

// Behind ESC and the first byte: a group or none, and then a value.
fn group_at(s: &[u8], at: usize, first: u8) -> Begun
    ensures { Begins s.now (group first (drop at s.now)) result }
{
    let Some(&b) = s.get(at) else {
        return Begun::Read(ends_inside(s));
    };
    match b {
        96..=126 => Begun::Sequence {
            first,
            group: b,
            from: at + 1,
        },
        _ => Begun::Sequence {
            first,
            group: 0,
            from: at,
        },
    }
}

// Behind ESC: a two-byte command or a sequence.
fn escape_at(s: &[u8], at: usize) -> Begun
    ensures { Begins s.now (behind_escape (drop at s.now)) result }
{
    let Some(&b) = s.get(at) else {
        return Begun::Read(ends_inside(s));
    };
    match b {
        48..=126 => Begun::Read(ReadItem {
            item: Item::Two(b),
            sequence: Sequence::Closed,
            next: at + 1,
        }),
        33..=47 => group_at(s, at + 1, b),
        _ => Begun::Read(ReadItem {
            item: Item::Broken(Finding::CannotStand),
            sequence: Sequence::Closed,
            next: at,
        }),
    }
}

// Whether a byte is space or text where no sequence is open.
pub fn is_text(b: u8) -> bool
    ensures { result ≡ is_text b }
{
    matches!(b, 32..=126 | 128..=255)
}

// Where no sequence is open: text, a code, or ESC and what is behind it.
fn afresh_at(s: &[u8], at: usize) -> Begun
    requires { at < length s.now }
    ensures { Begins s.now (read Sequence.Closed (drop at s.now)) result }
{
    let b = s[at];
    if b == ESC {
        return escape_at(s, at + 1);
    }
    let item = if is_text(b) {
        Item::Text(b)
    } else {
        Item::Code(b)
    };
    Begun::Read(ReadItem {
        item,
        sequence: Sequence::Closed,
        next: at + 1,
    })
}

// The beginning of the item at a place of the stream, which is not its end.
fn begun_at(s: &[u8], at: usize, q: Sequence) -> Begun
    requires { at < length s.now }
    ensures { Begins s.now (read q (drop at s.now)) result }
{
    match q {
        Sequence::Closed => afresh_at(s, at),
        Sequence::Open { first, group } => Begun::Sequence {
            first,
            group,
            from: at,
        },
    }
}

// The item at a place of the stream, read with the sequence that is open there. From the end on there is none: finding 1.
// A value is read here and nowhere else, so that what is read is put together once.
pub fn read_item(s: &[u8], at: usize, q: Sequence) -> ReadItem
    ensures { ItemAt s.now at q result }
{
    if s.len() <= at {
        return ReadItem {
            item: Item::Broken(Finding::EndsInside),
            sequence: Sequence::Closed,
            next: at,
        };
    }
    let b = begun_at(s, at, q);
    match b {
        Begun::Read(r) => r,
        Begun::Sequence { first, group, from } => parameter_at(s, from, Opening { first, group }),
    }
}
