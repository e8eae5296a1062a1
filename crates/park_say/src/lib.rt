// What the program `park` says of a job: the parked text of its state, or one line with the number of the refusal.
#![tactic(auto)]

ghost use Rattle.park_say.specs.Said.{Says};

use park_run::park_job;
use report_verdict::{Saying, say};

// The parked text of a job on a page of w by h dots, run afresh for at most `items` items, at the front of the room, or the line of the refusal.
// The page is a place to draw on, which nobody reads.
pub fn say_parked(
    page: &mut [u8],
    w: usize,
    h: usize,
    s: &[u8],
    items: usize,
    room: &mut [u8],
) -> Saying
    ensures { Says w h page.old s.now items room.old result room.new }
{
    let outcome = park_job(page, w, h, s, items, room);
    say(outcome, room)
}
