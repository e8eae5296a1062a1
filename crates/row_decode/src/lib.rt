// Rows by methods 0 to 3, in the one lent row. By method 3 it is changed in place, after a first look over the payload has shown that no byte is missing. Methods 1
// and 2 fill it in one pass: whatever was put into it, a damaged row is zeros. Refuses no payload: a damaged one gives a row of zeros, and the answer says so.
// The answer is a plain yes or no, as C has it and as `Decoded` says it: a damaged row is no failure of the call, whose row is as good as any other.
#![tactic(auto)]

ghost use Rattle.std.specs.Prelude.{◌≡◌, ◌≤◌, min, false, length};
ghost use Rattle.rules.specs.Rows.{by_control, decoded, zero_row};
ghost use Rattle.row_control.specs.Controls.{control_of};
ghost use Rattle.row_decode.specs.Decoding.{Decoded, Made};

use row_change::change;
use row_control::{look, look_from};
use row_fill::fill_row;
use row_piece::{clear_from, copy};

// A damaged row: zeros in all of it. It did not come whole.
fn damaged(row: &mut [u8]) -> bool
    ensures { (result ≡ false) × (row.new ≡ zero_row (length row.old)) }
{
    row.fill(0);
    false
}

// Method 0: the bytes as they are, and zeros behind them.
fn by_bytes(s: &[u8], row: &mut [u8]) -> bool
    ensures { Made (decoded (length row.old) 0 row.old s.now) result row.new }
{
    copy(row, 0, s, 0, s.len());
    clear_from(row, s.len());
    true
}

// Method 1: a payload of pairs is whole, whatever they are.
fn by_pairs(s: &[u8], row: &mut [u8]) -> bool
    requires { length row.old ≤ 600 }
    ensures { Made (by_control (control_of 1) (length row.old) (zero_row (length row.old)) s.now) result row.new }
{
    if !look(1, s) {
        return damaged(row);
    }
    fill_row(1, s, row);
    true
}

// Method 2: the row is filled; what is left of the payload, where the row is full before its end, is looked at.
fn by_packed(s: &[u8], row: &mut [u8]) -> bool
    requires { length row.old ≤ 600 }
    ensures { Made (by_control (control_of 2) (length row.old) (zero_row (length row.old)) s.now) result row.new }
{
    let i = fill_row(2, s, row);
    if !look_from(2, s, i) {
        return damaged(row);
    }
    true
}

// Method 3: the seed row is changed if the payload is whole.
fn by_changes(s: &[u8], row: &mut [u8]) -> bool
    requires { length row.old ≤ 600 }
    ensures { Made (by_control (control_of 3) (length row.old) row.old s.now) result row.new }
{
    if !look(3, s) {
        return damaged(row);
    }
    change(s, row);
    true
}

// A row by any method. Methods 0, 1 and 2 fill a row of zeros, 3 changes the seed row.
fn row_by(method: u8, s: &[u8], row: &mut [u8]) -> bool
    requires { length row.old ≤ 600 }
    ensures { Made (decoded (length row.old) method row.old s.now) result row.new }
{
    match method {
        0 => by_bytes(s, row),
        1 => by_pairs(s, row),
        2 => by_packed(s, row),
        _ => by_changes(s, row),
    }
}

// The row that a payload gives by a method is left in the first `wide` bytes of the lent row, where the seed row was; the others stay.
// Answers whether it came whole; a damaged row is zeros. A method over 3 acts as 3.
#[tactic(auto, unfolding(rules::specs::Rows::decoded, rules::specs::Rows::by_control))]
pub fn decode(method: u8, payload: &[u8], row: &mut [u8; 600], wide: usize) -> bool
    requires { length row.old ≡ 600 }
    ensures { Decoded method (min wide 600) payload.now row.old row.new result }
{
    let w = wide.min(600);
    row_by(method, payload, &mut row[..w])
}
