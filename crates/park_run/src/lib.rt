// A job run afresh for so many items, and its state parked: what the program `park` does. Refused jobs (10, 11, 12, then as a state is refused: 16, 15) write
// nothing of the room. The page is a place to draw on, which nobody reads.
#![tactic(auto)]

ghost use Rattle.std.specs.Prelude.{◌≡◌, true, ◌≤◌, length, drop};
ghost use Rattle.rules.specs.Measure.{allowed, measure_of, page_bytes, longest_stream};
ghost use Rattle.rules.specs.Park.{parking};
ghost use Rattle.park_run.specs.Jobs.{state_after, ParksJob};

use park_write::park;
use rules::{LONGEST_STREAM, Refusal, State};
use run::run;
use state_afresh::afresh_on;
use state_page::page_of;

// The state behind at most `items` items of the stream s: run after run, since a run stops behind a finding and behind a page end, until nothing is done.
fn state_after(page: &mut [u8], w: usize, h: usize, s: &[u8], items: usize) -> State
    requires h_value { allowed w h ≡ true }
    requires h_in_bounds { page_bytes (measure_of w h) ≤ length page.old }
    requires s_len_bound { length s.now ≤ longest_stream }
    ensures { (result ≡ state_after (measure_of w h) items s.now) × (drop (page_bytes (measure_of w h)) page.new ≡ drop (page_bytes (measure_of w h)) page.old) }
{
    let mut state = afresh_on(w, h);
    let mut place: usize = 0;
    let mut more = items;
    let mut zeros: usize = 0;
    loop {
        let o = run(page, w, h, s, state, place, more, &mut zeros).unwrap();
        if o.done == 0 {
            return o.state;
        }
        more -= o.done;
        place = o.place;
        state = o.state;
    }
}

// The state of a job on a page of w by h dots, run afresh for at most `items` items, parked at the front of the room. Refusals 10, 11, 12 are checked in that
// order, and then those of parking a state, of which 13 never comes: what a run leaves is sound.
#[tactic(auto, unfolding(crate::specs::Jobs::park_job))]
pub fn park_job(
    page: &mut [u8],
    w: usize,
    h: usize,
    s: &[u8],
    items: usize,
    room: &mut [u8],
) -> Result<usize, Refusal>
    ensures { ParksJob w h page.old s.now items room.old (parking result) page.new room.new }
{
    let g = page_of(w, h).ok_or(Refusal::PageMeasure)?;
    let bytes = g.high() * g.wide();
    if page.len() < bytes {
        return Err(Refusal::PageBuffer);
    }
    if LONGEST_STREAM < s.len() {
        return Err(Refusal::StreamLength);
    }
    let t = state_after(page, w, h, s, items);
    park(w, h, t, room)
}
