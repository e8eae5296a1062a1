// A value and what was read told by numbers, field by field, for a caller in C. Nothing is refused.
#![tactic(auto)]

ghost use Rattle.std.specs.Prelude.{◌≡◌};
ghost use Rattle.rules.specs.Number.{size_of};
ghost use Rattle.leaf_field.specs.Fields.{sign_number, kind_number, command_number, command_sign, command_size, item_number, detail, value_sign, value_size, payload_from, payload_to, first_of, group_of, field};

use number_finding::finding_number;
use read_item::{Item, ReadItem};
use rules::{Command, Kind, Sequence, Value};

// A value's sign by number: 0 absolute, 1 relative, 2 relative with a minus.
pub fn sign_of(v: Value) -> u32
    ensures { result ≡ sign_number v }
{
    match v {
        Value::Absolute(_) => 0,
        Value::Relative {
            negative: false,
            ..
        } => 1,
        Value::Relative { negative: true, .. } => 2,
    }
}

// A value's size. It is written here once more than in do_value, as the leaves use nothing of what carries commands out.
pub fn size_of(v: Value) -> u32
    ensures { result ≡ size_of v }
{
    match v {
        Value::Absolute(size) | Value::Relative { size, .. } => size,
    }
}

// A kind's number in the paper's list.
fn kind_number(k: Kind) -> usize
    ensures { result ≡ kind_number k }
{
    k as usize
}

// A command's number, 0 if it is not carried.
fn command_number(k: Command) -> usize
    ensures { result ≡ command_number k }
{
    match k {
        Command::Valued(kind, _) => kind_number(kind),
        Command::Method(_) => 20,
        Command::Print(_) => 21,
        Command::Row(_) => 22,
        Command::Unknown => 0,
    }
}

// The sign of a command's value.
fn command_sign(k: Command) -> usize
    ensures { result ≡ command_sign k }
{
    match k {
        Command::Valued(_, v) | Command::Method(v) | Command::Print(v) | Command::Row(v) => {
            sign_of(v) as usize
        }
        Command::Unknown => 0,
    }
}

// The size of a command's value.
fn command_size(k: Command) -> usize
    ensures { result ≡ command_size k }
{
    match k {
        Command::Valued(_, v) | Command::Method(v) | Command::Print(v) | Command::Row(v) => {
            size_of(v) as usize
        }
        Command::Unknown => 0,
    }
}

// What kind of item it is.
fn item_number(i: Item) -> usize
    ensures { result ≡ item_number i }
{
    match i {
        Item::Text(_) => 0,
        Item::Code(_) => 1,
        Item::Two(_) => 2,
        Item::Command { .. } => 3,
        Item::Broken(_) => 4,
    }
}

// The byte, the command's number, or the finding.
fn detail_of(i: Item) -> usize
    ensures { result ≡ detail i }
{
    match i {
        Item::Text(b) | Item::Code(b) | Item::Two(b) => usize::from(b),
        Item::Command { command, .. } => command_number(command),
        Item::Broken(f) => finding_number(f) as usize,
    }
}

// The sign of a command's value, 0 of another item.
fn value_sign(i: Item) -> usize
    ensures { result ≡ value_sign i }
{
    match i {
        Item::Command { command, .. } => command_sign(command),
        _ => 0,
    }
}

// The size of a command's value, 0 of another item.
fn value_size(i: Item) -> usize
    ensures { result ≡ value_size i }
{
    match i {
        Item::Command { command, .. } => command_size(command),
        _ => 0,
    }
}

// Where a command's payload begins, 0 of another item.
fn payload_from(i: Item) -> usize
    ensures { result ≡ payload_from i }
{
    match i {
        Item::Command { from, .. } => from,
        _ => 0,
    }
}

// Where a command's payload ends, 0 of another item.
fn payload_to(i: Item) -> usize
    ensures { result ≡ payload_to i }
{
    match i {
        Item::Command { to, .. } => to,
        _ => 0,
    }
}

// The first byte of an open sequence, 0 for none.
fn first_of(q: Sequence) -> usize
    ensures { result ≡ first_of q }
{
    match q {
        Sequence::Closed => 0,
        Sequence::Open { first, .. } => usize::from(first),
    }
}

// The group byte of an open sequence, 0 for none.
fn group_of(q: Sequence) -> usize
    ensures { result ≡ group_of q }
{
    match q {
        Sequence::Closed => 0,
        Sequence::Open { group, .. } => usize::from(group),
    }
}

// A field of what was read.
pub fn field_of(r: ReadItem, n: u8) -> usize
    ensures { result ≡ field r n }
{
    match n {
        0 => item_number(r.item),
        1 => r.next,
        2 => first_of(r.sequence),
        3 => group_of(r.sequence),
        4 => detail_of(r.item),
        5 => value_sign(r.item),
        6 => value_size(r.item),
        7 => payload_from(r.item),
        _ => payload_to(r.item),
    }
}
