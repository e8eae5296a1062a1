// The report of a stream, written into a room that is lent: its lines in item order, as successive runs find them.
// Nothing is refused: a stream over the program's limit has a report that says so, and what has no room is not written.
#![tactic(auto)]

ghost use Rattle.std.specs.Prelude.{◌≡◌, ◌≤◌, length};
ghost use Rattle.common.specs.Writing.{Written};
ghost use Rattle.rules.specs.Report.{report_page, report, fault_alone, stream_lines};
ghost use Rattle.report_laws.specs.Bound.{Reported};

use common::Writer;
use report_fault::{write_refused, write_size};
use report_page::write_last;
use report_run::{count_of, write_ran};
use rules::Refusal;
use run::run;
use state_afresh::afresh_on;

// "Reads up to 65,536 bytes of standard input, page 640 × 800."
const WIDTH: usize = 640;

const HEIGHT: usize = 800;

const LIMIT: usize = 65536;

// Items a run is allowed: more than such a stream has. Any number above 0 prints the same.
const ALLOWANCE: usize = 131073;

// The lines behind SIZE: run after run, none of which is refused, until nothing is left to do. `zeros` is what each run leaves known of the page: a blank
// one is neither zeroed again nor counted.
fn write_stream(s: &[u8], page: &mut [u8], out: &mut Writer)
    requires s_len_bound { length s.now ≤ 65536 }
    requires page_len { length page.old ≡ 64000 }
    ensures { Written out.old (stream_lines fault_alone report_page s.now) out.new }
{
    let mut state = afresh_on(WIDTH, HEIGHT);
    let mut place = 0;
    let mut number = 1;
    let mut findings = 0;
    let mut zeros = 0;
    loop {
        let r = run(page, WIDTH, HEIGHT, s, state, place, ALLOWANCE, &mut zeros);
        let o = r.unwrap();
        if o.done == 0 {
            return write_last(number, o.state.core, page, findings, out);
        }
        write_ran(o, number, page, zeros, out);
        number += usize::from(o.ended);
        findings += count_of(o.finding);
        place = o.place;
        state = o.state;
    }
}

// The report of a stream: SIZE, and the lines of the stream, or the refusal of one that is too long.
fn write_lines(s: &[u8], out: &mut Writer)
    ensures { Written out.old (report s.now) out.new }
{
    write_size(WIDTH, HEIGHT, out);
    if LIMIT < s.len() {
        return write_refused(Refusal::StreamLength, out);
    }
    let mut page = [0; 64000];
    write_stream(s, &mut page, out);
}

// That report from the start of a room on, as far as there is room; the place behind it is given.
pub fn write_report(s: &[u8], room: &mut [u8]) -> usize
    ensures { Reported s.now room.old room.new result }
{
    let mut out = Writer { room, at: 0 };
    write_lines(s, &mut out);
    out.at
}
