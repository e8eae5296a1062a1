// The pages of standard input as PBM on standard output, one after the other, and the report's lines on standard error as they come.
// The page measure is given by two words; without them it is 2552 by 3304. One byte more than the limit is read, so that a longer
// input is seen to be longer. A page is written before its line: what PAGE and END tell of is written. If the input cannot be read the
// program says UNREAD and nothing else; if a write fails it stops and says UNWRITTEN.
// A third word that is a number other than 0 asks how far in the job it is: then AT, with the place from which the next step goes on, is behind
// each PAGE but that of a used last page, which is told with END. Other readers do not ask, and their lines stay as they are.
#![tactic(auto)]

ghost use Rattle.std.specs.Prelude.{◌≡◌, true, ◌≤◌, length};
ghost use Rattle.rules.specs.Measure.{allowed, measure_of, page_bytes, longest_stream};
ghost use Rattle.pages_open.specs.Opening.{longest_lines};

use common::Writer;
use state_afresh::afresh_on;
use std::io;

// What a step gave, the page behind its head, if there is one to be written, before the lines that tell of it.
fn write_step(
    out: &impl Print,
    err: &impl Print,
    paged: bool,
    head: &[u8],
    page: &[u8],
    lines: &[u8],
) -> io::Result<()> {
    if paged {
        out.write_all(head)?;
        out.write_all(page)?;
    }
    err.write_all(lines)
}

// The line AT behind a page, if it is asked for. Its room is for the word, a tab, twenty digits and LF.
fn write_at(err: &impl Print, place: usize) -> io::Result<()> {
    let mut room = [0u8; 24];
    let mut out = Writer {
        room: &mut room,
        at: 0,
    };
    report_line::write_line(b"AT", &[place], &mut out);
    let end = out.at;
    err.write_all(&room[..end])
}

// Step after step, until the job is over or a write fails. On a job that is allowed no step is refused.
fn write_steps(
    out: &impl Print,
    err: &impl Print,
    page: &mut [u8],
    w: usize,
    h: usize,
    s: &[u8],
    head: &[u8],
    room: &mut [u8],
    asked: bool,
) -> io::Result<()>
    requires h_value { allowed w h ≡ true }
    requires page_len { length page.old ≡ page_bytes (measure_of w h) }
    requires s_len_bound { length s.now ≤ longest_stream }
    requires longest_lines_in_bounds { longest_lines ≤ length room.old }
{
    let mut state = afresh_on(w, h);
    let mut place: usize = 0;
    let mut number: usize = 1;
    let mut findings: usize = 0;
    let mut zeros: usize = 0;
    loop {
        let r = pages_step::next(
            page, w, h, s, state, place, number, findings, &mut zeros, room,
        );
        let step = r.unwrap();
        write_step(out, err, step.paged, head, page, &room[..step.end])?;
        if step.over {
            return Ok(());
        }
        if asked && step.paged {
            write_at(err, step.place)?;
        }
        state = step.state;
        place = step.place;
        number = step.number;
        findings = step.findings;
    }
}

// The pages of a job on a page of w by h dots.
fn write_pages(
    out: &impl Print,
    err: &impl Print,
    w: usize,
    h: usize,
    s: &[u8],
    head: &[u8],
    room: &mut [u8],
    asked: bool,
) -> io::Result<()>
    requires h_value { allowed w h ≡ true }
    requires s_len_bound { length s.now ≤ longest_stream }
    requires longest_lines_in_bounds { longest_lines ≤ length room.old }
{
    let mut page = given::largest_page();
    let bytes = h * (w / 8);
    write_steps(out, err, &mut page[..bytes], w, h, s, head, room, asked)
}

// The first lines of a job, and its pages if it is not refused.
fn write_job(
    out: &impl Print,
    err: &impl Print,
    w: usize,
    h: usize,
    s: &[u8],
    asked: bool,
) -> io::Result<()> {
    let mut room = [0u8; 184];
    let first = pages_open::begin(w, h, s, &mut room);
    err.write_all(&room[..first.end])?;
    if first.refused {
        return Ok(());
    }
    let mut head = [0u8; 45];
    let head_end = pages_open::write_head(w, h, &mut head);
    write_pages(out, err, w, h, s, &head[..head_end], &mut room, asked)
}

fn main(rt: HostRuntime) {
    let err = rt.stderr();
    let w = given::measure_word(&rt, 1, 2552);
    let h = given::measure_word(&rt, 2, 3304);
    let asked = given::measure_word(&rt, 3, 0) != 0;
    let mut input = given::longest_input();
    given::answer(&mut rt.stdin(), &err, &mut input, |job| {
        write_job(&rt.stdout(), &err, w, h, job, asked)
    });
}
