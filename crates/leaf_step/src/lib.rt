// A step of a job behind a boundary to C, for tests: steps are compared with refused states, pages and places among the cases.
// What a step refuses is refused by the paper's number, and writes nothing.
#![tactic(auto)]

ghost use Rattle.std.specs.Prelude.{◌≤◌, length};
ghost use Rattle.leaf_step.specs.Told.{ToldStep};

use number_finding::refusal_number;
use state_load::read_state;
use state_save::write_state;

// One step, from *place on. The page is the caller's between calls, so none of its bytes are known to be zero. What `pages_step::next` asks is asked here.
#[unsafe(no_mangle)]
pub extern "C" fn rov_step(
    w: usize,
    h: usize,
    page: &mut [u8],
    stream: &[u8],
    state: &mut [u8],
    place: &mut usize,
    number: &mut usize,
    findings: &mut usize,
    room: &mut [u8],
    end: &mut usize,
    paged: &mut usize,
    over: &mut usize,
) -> u32
    requires { (length page.old ≤ 4294967296) × (number.old ≤ 4294967296) × (findings.old ≤ 4294967296) }
    ensures { ToldStep w h page.old stream.now state.old place.old number.old findings.old room.old result page.new state.new place.new number.new findings.new room.new end.new paged.new over.new }
{
    let t = read_state(state);
    let mut zeros = 0;
    let step = pages_step::next(
        page, w, h, stream, t, *place, *number, *findings, &mut zeros, room,
    );
    match step {
        Ok(r) => {
            *place = r.place;
            *number = r.number;
            *findings = r.findings;
            *end = r.end;
            *paged = usize::from(r.paged);
            *over = usize::from(r.over);
            write_state(r.state, state);
            0
        }
        Err(why) => {
            *end = 0;
            *paged = 0;
            *over = 1;
            refusal_number(why)
        }
    }
}
