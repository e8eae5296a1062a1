// What the program `plain` says of a stream: its plain stream, or one line with the number of the refusal.
#![tactic(auto)]

ghost use Rattle.plain_say.specs.Said.{Says};

use plain_translate::translate;
use report_verdict::{Saying, say};

// The plain stream of the stream s on a page of w by h dots, at the front of the room, or the line of the refusal.
pub fn say_plain(w: usize, h: usize, s: &[u8], room: &mut [u8]) -> Saying
    ensures { Says w h s.now room.old result room.new }
{
    let outcome = translate(w, h, s, room);
    say(outcome, room)
}
