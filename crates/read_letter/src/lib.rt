// The letter of a command: how it ends the command, and how many payload bytes it asks for.
#![tactic(auto)]

ghost use Rattle.std.specs.Prelude.{◌≡◌};
ghost use Rattle.rules.specs.Number.{count};
ghost use Rattle.rules.specs.Items.{has_payload};
ghost use Rattle.read_letter.specs.Letters.{asked, ending};

use rules::{Sequence, Value};

// How a sequence begins: with its first byte and its group byte, which is 0 where it has no group.
#[derive(Clone, Copy)]
pub struct Opening {
    pub first: u8,
    pub group: u8,
}

// A command's letter, as a capital, and the sequence that is open behind it.
#[derive(Clone, Copy)]
pub struct Letter {
    pub capital: u8,
    pub behind: Sequence,
}

// The count of payload bytes that a value asks for: none if negative.
fn count_of(v: Value) -> usize
    ensures { result ≡ count v }
{
    match v {
        Value::Relative { negative: true, .. } => 0,
        Value::Absolute(size) | Value::Relative { size, .. } => (size / 10000) as usize,
    }
}

// Payload follows every W, &p#X and *b#V.
fn has_payload(opening: Opening, letter: u8) -> bool
    ensures { result ≡ has_payload opening.first opening.group letter }
{
    let Opening { first, group } = opening;
    matches!(
        (first, group, letter),
        (_, _, b'W') | (b'&', b'p', b'X') | (b'*', b'b', b'V')
    )
}

// The payload bytes that a command asks for.
pub fn asked_by(opening: Opening, letter: u8, v: Value) -> usize
    ensures { result ≡ asked opening.first opening.group letter v }
{
    if has_payload(opening, letter) {
        count_of(v)
    } else {
        0
    }
}

// The letter that a byte is in a command of this sequence; none where the byte cannot end a command.
pub fn ending_of(opening: Opening, b: u8) -> Option<Letter>
    ensures { result ≡ ending opening.first opening.group b }
{
    let Opening { first, group } = opening;
    match b {
        64..=94 => Some(Letter {
            capital: b,
            behind: Sequence::Closed,
        }),
        96..=126 if group > 0 => Some(Letter {
            capital: b - 32,
            behind: Sequence::Open { first, group },
        }),
        _ => None,
    }
}
