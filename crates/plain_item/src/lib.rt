// One item in the plain stream: text, codes and two-byte commands as they are, each command as its own sequence, rows as *b#W. What was
// not carried out is dropped. Where the room ends, writing ends; the next place is given all the same, so that a walk over an empty
// room counts. Nothing is refused: from and to are the payload's places as the reader gives them.
#![tactic(auto)]

ghost use Rattle.std.specs.Prelude.{◌≡◌, List, [], ℕ, ◌+◌, ◌≤◌, length};
ghost use Rattle.common.specs.Lists.{trim};
ghost use Rattle.rules.specs.declared.Command.TheVariants.{Valued, Print, Row};
ghost use Rattle.rules.specs.Acts.{order};
ghost use Rattle.rules.specs.Plain.{put};
ghost use Rattle.read_item.specs.Items.{item_in, from_of, to_of};
ghost use Rattle.plain_item.specs.Plain.{PutsShort, plain_command, plain_item};

use common::Writer;
use do_value::{used_value, whole_negative};
use dot_ink::used;
use number_finding::is_clean;
use plain_command::{command_length, write_command};
use plain_head::{head_length, write_print_head, write_row_head};
use plain_short::{write_code, write_escape, write_one};
use read_item::Item;
use row_piece::copy;
use rules::{Command, Finding, Kind, Value};

// A command with its used value.
fn write_order(k: Kind, v: Value, room: &mut [u8], at: usize) -> usize
    requires { at ≤ 1099511627776 }
    ensures { PutsShort room.old at (put (order k v) []) room.new result }
{
    let n = command_length(k, v);
    if room.len() <= at {
        return at + n;
    }
    let mut out = Writer { room, at };
    write_command(k, v, &mut out);
    at + n
}

// A command with a value and no payload, unless it has a finding.
fn write_valued(k: Kind, v: Value, f: Finding, room: &mut [u8], at: usize) -> usize
    requires { at ≤ 1099511627776 }
    ensures { (p row : List ℕ) → PutsShort room.old at (plain_command (Valued k v) p f row) room.new result }
{
    if is_clean(f) {
        write_order(k, used_value(k, v), room, at)
    } else {
        at
    }
}

// &p#X with its payload; a negative value is not carried out.
fn write_print(v: Value, payload: &[u8], room: &mut [u8], at: usize) -> usize
    requires { (at ≤ 1099511627776) × (length payload.now ≤ 32767) }
    ensures { (f : Finding) (row : List ℕ) → PutsShort room.old at (plain_command (Print v) payload.now f row) room.new result }
{
    if whole_negative(v) {
        return at;
    }
    let n = payload.len();
    let behind = at + head_length(n);
    if room.len() <= at {
        return behind + n;
    }
    let mut out = Writer { room, at };
    write_print_head(n, &mut out);
    copy(room, behind, payload, 0, n);
    behind + n
}

// The length of a row up to its last nonzero byte.
fn trimmed(row: &[u8]) -> usize
    ensures { (result ≡ length (trim row.now)) × (result ≤ length row.now) }
{
    let mut n = used(row);
    while 0 < n {
        if row[n - 1] != 0 {
            return n;
        }
        n -= 1;
    }
    n
}

// *b#W with the bytes of a row up to the last nonzero one; a negative value is not carried out.
fn write_row(v: Value, row: &[u8], room: &mut [u8], at: usize) -> usize
    requires { (at ≤ 1099511627776) × (length row.now ≤ 600) }
    ensures { (f : Finding) (p : List ℕ) → PutsShort room.old at (plain_command (Row v) p f row.now) room.new result }
{
    if whole_negative(v) {
        return at;
    }
    let n = trimmed(row);
    let behind = at + head_length(n);
    if room.len() <= at {
        return behind + n;
    }
    let mut out = Writer { room, at };
    write_row_head(n, &mut out);
    copy(room, behind, row, 0, n);
    behind + n
}

// A command with its payload. A row is written as it was left in the seed row, which a damaged one left as zeros.
fn write_whole(
    k: Command,
    payload: &[u8],
    f: Finding,
    row: &[u8],
    room: &mut [u8],
    at: usize,
) -> usize
    requires { (at ≤ 1099511627776) × (length payload.now ≤ 32767) × (length row.now ≤ 600) }
    ensures { PutsShort room.old at (plain_command k payload.now f row.now) room.new result }
{
    match k {
        Command::Valued(kind, v) => write_valued(kind, v, f, room, at),
        Command::Method(_) => at,
        Command::Print(v) => write_print(v, payload, room, at),
        Command::Row(v) => write_row(v, row, room, at),
        Command::Unknown => at,
    }
}

// What an item of the stream s comes to in the plain stream, where it had this finding and left this row as seed row.
pub fn write_item(s: &[u8], i: Item, f: Finding, row: &[u8], room: &mut [u8], at: usize) -> usize
    requires { (from_of i ≤ to_of i) × (to_of i ≤ length s.now) × (to_of i ≤ from_of i + 32767) × (length row.now ≤ 600) × (at ≤ 1099511627775) }
    ensures { PutsShort room.old at (plain_item (item_in s.now i) f row.now) room.new result }
{
    match i {
        Item::Text(b) => write_one(b, room, at),
        Item::Code(b) => write_code(b, room, at),
        Item::Two(b) => write_escape(b, f, room, at),
        Item::Command { command, from, to } => {
            write_whole(command, &s[from..to], f, row, room, at)
        }
        Item::Broken(_) => at,
    }
}
