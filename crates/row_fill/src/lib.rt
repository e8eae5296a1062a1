// Methods 1 and 2: the one lent row is filled from its start, element by element, and zeros are put behind the last. An element is a control byte
// with all that it asks for. What was in the row before does not matter, and what lies beyond it is dropped.
#![tactic(auto)]

ghost use Rattle.std.specs.Prelude.{◌≤◌, ◌<◌, length, take, drop};
ghost use Rattle.row_control.specs.Controls.{repeated};
ghost use Rattle.row_fill.specs.Fills.{Small, Put, Onward, Filled};

use row_control::Place;
use row_piece::{clear_from, copy_over, fill_over};

// The next n bytes of the payload are put into the row.
fn literal(n: usize, s: &[u8], p: Place, row: &mut [u8]) -> Place
    requires { Small n p.at p.from s.now }
    ensures { Put row.old row.new p.at (take n (drop p.from s.now)) p.from n n result.from result.at }
{
    copy_over(row, p.at, s, p.from, n);
    p.past(n, n)
}

// The payload's next byte is put into n places of the row.
fn run(n: usize, s: &[u8], p: Place, row: &mut [u8]) -> Place
    requires { Small n p.at p.from s.now }
    ensures { Put row.old row.new p.at (repeated n (drop p.from s.now)) p.from 1 n result.from result.at }
{
    let next = p.past(1, n);
    if p.from < s.len() {
        fill_over(row, p.at, n, s[p.from]);
        return next;
    }
    next
}

// One element is put into the row. The tests stand in the order of how often they say what is to be done: a `match` looks for 128 first.
fn element(method: u8, s: &[u8], p: Place, row: &mut [u8]) -> Place
    requires { (1 ≤ method) × (method ≤ 2) × (p.from < length s.now) × (p.at < 600) }
    ensures { Onward method s.now p.from p.at row.old row.new result.from result.at }
{
    let c = s[p.from];
    let n = usize::from(c);
    let next = p.past(1, 0);
    if method == 1 {
        return run(n + 1, s, next, row);
    }
    if c < 128 {
        return literal(n + 1, s, next, row);
    }
    if c == 128 {
        return next;
    }
    run(257 - n, s, next, row)
}

// The row filled by a payload. Answers how far the payload was read: where the row is full, the rest of it is not looked at.
// Each element says how far the next one is.
pub fn fill_row(method: u8, s: &[u8], row: &mut [u8]) -> usize
    requires { (1 ≤ method) × (method ≤ 2) × (length row.old ≤ 600) }
    ensures { Filled method s.now row.old row.new result }
{
    let mut p = Place { from: 0, at: 0 };
    while p.from < s.len() {
        if row.len() <= p.at {
            return p.from;
        }
        p = element(method, s, p, row);
    }
    clear_from(row, p.at);
    p.from
}
