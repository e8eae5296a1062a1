// Commands written plain: each as its own sequence, ended by a capital. Where the room ends, writing ends; nothing is written outside it.
#![tactic(auto)]

ghost use Rattle.std.specs.Prelude.{◌≡◌, not, [], ◌∷◌};
ghost use Rattle.common.specs.Writing.{Written};
ghost use Rattle.rules.specs.Acts.{order};
ghost use Rattle.rules.specs.Commands.{use_of};
ghost use Rattle.rules.specs.Plain.{is_ignored, put, put_used};
ghost use Rattle.plain_length.specs.Counts.{Counted};
ghost use Rattle.plain_command.specs.Plain.{name_bytes};

use common::Writer;
use plain_head::write_start;
use rules::{Kind, Value};

// The first byte, the group byte and the letter of a kind of command.
fn name_of(k: Kind) -> [u8; 3]
    ensures { result ≡ name_bytes k }
{
    match k {
        Kind::Column => *b"&aC",
        Kind::DecipointAcross => *b"&aH",
        Kind::DotAcross => *b"*pX",
        Kind::DecipointDown => *b"&aV",
        Kind::DotDown => *b"*pY",
        Kind::Line => *b"&aR",
        Kind::LeftMargin => *b"&aL",
        Kind::RightMargin => *b"&aM",
        Kind::TopMargin => *b"&lE",
        Kind::Vmi => *b"&lC",
        Kind::LinesPerInch => *b"&lD",
        Kind::Hmi => *b"&kH",
        Kind::Termination => *b"&kG",
        Kind::PushPop => *b"&fS",
        Kind::Resolution => *b"*tR",
        Kind::StartRaster => *b"*rA",
        Kind::EndRaster => *b"*rB",
        Kind::ResetRaster => *b"*rC",
        Kind::SkipRows => *b"*bY",
    }
}

// Whether a command is written with its value: *rB and *rC have none.
fn has_value(k: Kind) -> bool
    ensures { result ≡ not (is_ignored (use_of k)) }
{
    !matches!(k, Kind::EndRaster | Kind::ResetRaster)
}

// The value of a command, where it is written.
fn write_used(k: Kind, v: Value, out: &mut Writer)
    ensures { Written out.old (put_used k v []) out.new }
{
    if !has_value(k) {
        return out.settle();
    }
    number_write::write_value(v, out);
}

// A command with its value.
pub fn write_command(k: Kind, v: Value, out: &mut Writer)
    ensures { Written out.old (put (order k v) []) out.new }
{
    let [first, group, letter] = name_of(k);
    write_start(first, group, out);
    write_used(k, v, out);
    out.put(letter);
}

// The length of that value.
fn used_length(k: Kind, v: Value) -> usize
    ensures { Counted (put_used k v []) 26 result }
{
    if has_value(k) {
        plain_length::value_length(v)
    } else {
        0
    }
}

// The length of a command with its value.
pub fn command_length(k: Kind, v: Value) -> usize
    ensures { Counted (put (order k v) []) 30 result }
{
    4 + used_length(k, v)
}
