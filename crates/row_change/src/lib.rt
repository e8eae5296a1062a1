// Method 3: the changes that a payload makes to the one lent row, in place, element by element. An element is a control byte with all that it
// asks for. What lies beyond the row is dropped.
#![tactic(auto)]

ghost use Rattle.std.specs.Prelude.{◌≡◌, ◌+◌, ◌≤◌, ◌<◌, length, take, drop};
ghost use Rattle.rules.specs.declared.Mode.TheVariants.{Ready};
ghost use Rattle.rules.specs.Rows.{changed};
ghost use Rattle.row_control.specs.Controls.{control_of};
ghost use Rattle.row_change.specs.Elements.{Led, Small, Put, Onward};

use common::byte_at;
use row_control::{Place, past_full};
use row_piece::replace;

// The place in the row to which the offset bytes from i to j lead. More than three of 255 lead beyond any row, and are not counted.
fn offset(s: &[u8], i: usize, j: usize, at: usize) -> usize
    requires { (at < 2000) × (i ≤ j) }
    ensures { Led s.now i j at result }
{
    let k = (j - i).min(3);
    let last = byte_at(s, j);
    at + 255 * k + usize::from(last)
}

// The next n + 1 bytes of the payload are put into the row.
fn literal(n: usize, s: &[u8], p: Place, row: &mut [u8]) -> Place
    requires { Small n p.at p.from s.now }
    ensures { Put row.old row.new p.at (take (n + 1) (drop p.from s.now)) p.from (n + 1) (n + 1) result.from result.at }
{
    let k = n + 1;
    replace(row, p.at, s, p.from, k);
    p.past(k, k)
}

// One element is done to the row.
fn element(s: &[u8], p: Place, row: &mut [u8]) -> Place
    requires { (p.from < length s.now) × (length row.old ≤ 600) × (p.at < 600) }
    ensures { Onward s.now p.from p.at row.old row.new result.from result.at }
{
    let c = usize::from(s[p.from]);
    let n = c / 32;
    let next = p.past(1, c % 32);
    if c % 32 != 31 {
        return literal(n, s, next, row);
    }
    let j = past_full(s, next.from);
    let at = offset(s, next.from, j, next.at);
    literal(n, s, Place { from: j + 1, at }, row)
}

// The changes that a payload makes to the row, element by element. From the row's end on nothing more is changed.
// Each element says how far the next one is.
pub fn change(s: &[u8], row: &mut [u8])
    requires { length row.old ≤ 600 }
    ensures { row.new ≡ changed (control_of 3) (Ready 0) row.old s.now }
{
    let mut p = Place { from: 0, at: 0 };
    while p.from < s.len() && p.at < row.len() {
        p = element(s, p, row);
    }
}
