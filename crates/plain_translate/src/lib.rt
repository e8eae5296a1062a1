// The plain stream of a stream: the same pages, the same end state, no finding. The stream is walked twice: once to count, on no room at all, so that
// nothing is written where the room is short.
#![tactic(auto)]

ghost use Rattle.rules.specs.Plain.{translated};
ghost use Rattle.theorems.specs.Statements.{TranslatePromise};

use plain_stream::write_stream;
use rules::{LONGEST_STREAM, Refusal};
use state_page::page_of;

// The plain stream of the stream s on a page of w by h dots, written to the front of the room: its length. Refusals 10, 12, 15 are checked in that order;
// of a call that is refused no byte of the room is written.
pub fn translate(w: usize, h: usize, s: &[u8], room: &mut [u8]) -> Result<usize, Refusal>
    ensures { TranslatePromise w h s.now room.old (translated result) room.new }
{
    let g = page_of(w, h).ok_or(Refusal::PageMeasure)?;
    if LONGEST_STREAM < s.len() {
        return Err(Refusal::StreamLength);
    }
    let most = room.len().min(LONGEST_STREAM);
    let n = write_stream(g, s, &mut room[0..0], most);
    if most < n {
        return Err(Refusal::Room);
    }
    write_stream(g, s, room, most);
    Ok(n)
}
