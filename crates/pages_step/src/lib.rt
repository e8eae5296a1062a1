// A job in steps, for a program that writes its pages and its lines as they come: neither all pages nor all lines fit in a room.
// A step is one run: it leaves a page to be written in the page buffer, and its lines in a room. Where the run is refused the step tells why and writes nothing;
// on a job that `pages_open::begin` has not refused none is.
#![tactic(auto)]

ghost use Rattle.std.specs.Prelude.{◌≡◌, ◌≤◌, length};
ghost use Rattle.common.specs.Writing.{Written};
ghost use Rattle.dot_page.specs.Zeros.{FirstZero};
ghost use Rattle.rules.specs.Run.{carried};
ghost use Rattle.pages_step.specs.Steps.{Stepped, has_page, step_lines, step_sheet};

use common::Writer;
use pages_mark::write_marked;
use report_page::{write_last, write_page_if};
use report_run::count_of;
use rules::{Progress, Refusal, State};
use run::run;

// Items a step is allowed: more than any job has.
const ALLOWANCE: usize = 2097153;

// What a step leaves: the state, the place, the number of the page being drawn and the findings so far, all for the next step; where its lines end in the
// room; whether the page buffer holds a page to be written; whether there is no further step to make.
#[derive(Drop)]
pub struct StepDone {
    pub state: State,
    pub place: usize,
    pub number: usize,
    pub findings: usize,
    pub end: usize,
    pub paged: bool,
    pub over: bool,
}

// Whether a page is to be written: one that was ended, or the last if it is used.
fn leaves_page(o: &Progress) -> bool
    ensures { result ≡ has_page (carried o.now) }
{
    if o.done == 0 {
        return o.state.core.used;
    }
    o.ended
}

// The lines of a run, or the last ones where nothing was left to do. The first `zeros` bytes of the page are known to be zero.
fn write_lines(
    o: &Progress,
    number: usize,
    findings: usize,
    page: &[u8],
    zeros: usize,
    out: &mut Writer,
)
    requires { (length page.now ≤ 4294967296) × FirstZero zeros page.now }
    ensures { Written out.old (step_lines number findings (carried o.now) page.now) out.new }
{
    if o.done == 0 {
        return write_last(number, o.state.core, page, findings, out);
    }
    write_marked(o.found, o.finding, o.began, out);
    write_page_if(o.ended, number, page, zeros, out);
}

// One step of the job s: a run from the place on, on the page that is lent, and its lines at the front of the room. `zeros` is how many bytes of the page are
// known to be zero, before the step and behind it. A page of at most 2^32 bytes is asked for, so that its dots can be counted, and numbers that can be
// counted on.
pub fn next(
    page: &mut [u8],
    w: usize,
    h: usize,
    s: &[u8],
    t: State,
    place: usize,
    number: usize,
    findings: usize,
    zeros: &mut usize,
    room: &mut [u8],
) -> Result<StepDone, Refusal>
    requires { (length page.old ≤ 4294967296) × (number ≤ 4294967296) × (findings ≤ 4294967296) × FirstZero zeros.old page.old }
    ensures { Stepped w h page.old s.now t place number findings room.old (step_sheet t place number findings result) page.new room.new × FirstZero zeros.new page.new }
{
    let o = run(page, w, h, s, t, place, ALLOWANCE, zeros)?;
    let mut out = Writer { room, at: 0 };
    write_lines(&o, number, findings, page, *zeros, &mut out);
    let end = out.at;
    let paged = leaves_page(&o);
    Ok(StepDone {
        state: o.state,
        place: o.place,
        number: number + usize::from(o.ended),
        findings: findings + count_of(o.finding),
        end,
        paged,
        over: o.done == 0,
    })
}
