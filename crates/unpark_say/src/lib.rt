// What the program `unpark` says of a text: what it holds, a line for each member and then its positions and its row, or one line with the number of the
// refusal.
#![tactic(auto)]

ghost use Rattle.std.specs.Prelude.{[]};
ghost use Rattle.common.specs.Writing.{Written};
ghost use Rattle.rules.specs.Forms.{parked_of, JOB};
ghost use Rattle.rules.specs.Park.{give_out};
ghost use Rattle.unpark_say.specs.Said.{names, member_lines, holds, Tells, Says};

use common::Writer;
use park_text::{numbers_of, seed_row, stacked, write_positions, write_row};
use report_line::write_line;
use report_verdict::{Saying, say};
use rules::{LONGEST_STREAM, Refusal, State, Stored};
use unpark_read::unpark;

// A line for each member of the line JOB. They stand one by one, each name beside its number: a table of names to go over with the numbers is no plainer.
fn write_members(w: usize, h: usize, t: &State, out: &mut Writer)
    ensures { Written out.old (member_lines names (give_out JOB.members (parked_of w h t.now)) []) out.new }
{
    let n = numbers_of(w, h, t);
    write_line(b"W", &[n[0]], out);
    write_line(b"H", &[n[1]], out);
    write_line(b"x", &[n[2]], out);
    write_line(b"y", &[n[3]], out);
    write_line(b"L", &[n[4]], out);
    write_line(b"R", &[n[5]], out);
    write_line(b"T", &[n[6]], out);
    write_line(b"HMI", &[n[7]], out);
    write_line(b"VMI", &[n[8]], out);
    write_line(b"termination", &[n[9]], out);
    write_line(b"resolution", &[n[10]], out);
    write_line(b"method", &[n[11]], out);
    write_line(b"started", &[n[12]], out);
    write_line(b"margin", &[n[13]], out);
    write_line(b"used", &[n[14]], out);
    write_line(b"depth", &[n[15]], out);
}

// What a text holds.
fn write_held(j: &Stored, out: &mut Writer)
    ensures { Written out.old (holds (parked_of j.now.wide j.now.high j.now.state)) out.new }
{
    write_members(j.wide, j.high, &j.state, out);
    let core = &j.state.core;
    write_positions(stacked(core.depth, &core.stack), out);
    write_row(seed_row(j.wide, core), out);
}

// What a text holds, written to the front of the room: where it ends. 12 where the text is longer than any stream may be, else 17 or 18.
fn tell(s: &[u8], room: &mut [u8]) -> Result<usize, Refusal>
    ensures { Tells s.now room.old result room.new }
{
    if LONGEST_STREAM < s.len() {
        return Err(Refusal::StreamLength);
    }
    let held = unpark(s)?;
    let mut out = Writer { room, at: 0 };
    write_held(&held, &mut out);
    Ok(out.at)
}

// What a text holds, at the front of the room, or the line of the refusal.
pub fn say_unparked(s: &[u8], room: &mut [u8]) -> Saying
    ensures { Says s.now room.old result room.new }
{
    let outcome = tell(s, room);
    say(outcome, room)
}
