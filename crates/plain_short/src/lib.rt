// The items of one byte or two in the plain stream: text, codes and two-byte commands as they are. What was not carried out is dropped. Where the room
// ends, writing ends; the next place is given all the same, so that a walk over an empty room counts. A place of at most 2^40 is asked for, so that sums fit.
#![tactic(auto)]

ghost use Rattle.std.specs.Prelude.{◌≡◌, [], ◌∷◌, ◌≤◌};
ghost use Rattle.common.specs.Choice.{one_of};
ghost use Rattle.common.specs.Stores.{Puts};
ghost use Rattle.plain_short.specs.Bytes.{carried_codes, plain_code, plain_two};

use number_finding::is_clean;
use rules::Finding;

// One byte, where there is room for it.
pub fn write_one(b: u8, room: &mut [u8], at: usize) -> usize
    requires { at ≤ 1099511627776 }
    ensures { Puts room.old at (b ∷ []) room.new result }
{
    if at < room.len() {
        room[at] = b;
    }
    at + 1
}

// ESC and a byte.
fn write_two(b: u8, room: &mut [u8], at: usize) -> usize
    requires { at ≤ 1099511627775 }
    ensures { Puts room.old at (27 ∷ b ∷ []) room.new result }
{
    let next = write_one(27, room, at);
    write_one(b, room, next)
}

// Whether a control code does something.
fn is_carried(b: u8) -> bool
    ensures { result ≡ one_of carried_codes b }
{
    matches!(b, 8 | 9 | 10 | 12 | 13)
}

// A control code, unless it is ignored.
pub fn write_code(b: u8, room: &mut [u8], at: usize) -> usize
    requires { at ≤ 1099511627776 }
    ensures { Puts room.old at (plain_code b) room.new result }
{
    if is_carried(b) {
        write_one(b, room, at)
    } else {
        at
    }
}

// A two-byte command, unless it has a finding.
pub fn write_escape(b: u8, f: Finding, room: &mut [u8], at: usize) -> usize
    requires { at ≤ 1099511627775 }
    ensures { Puts room.old at (plain_two b f) room.new result }
{
    if is_clean(f) {
        write_two(b, room, at)
    } else {
        at
    }
}
