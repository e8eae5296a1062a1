// A state parked as text in a room that is lent. Refused calls (10, 13, 16, 15, in that order) write nothing: the text is counted first.
#![tactic(auto)]

ghost use Rattle.rules.specs.Park.{parking};
ghost use Rattle.park_write.specs.Parks.{Parks};

use common::Writer;
use park_text::{text_length, write_text};
use rules::{Refusal, Sequence, State};
use state_page::page_of;
use state_sound::sound;

// The text of the state t on a page of w by h dots, written to the front of the room: its length. Refusals 10, 13, 16, 15 are checked in that order.
#[tactic(auto, unfolding(rules::specs::Park::park))]
pub fn park(w: usize, h: usize, t: State, room: &mut [u8]) -> Result<usize, Refusal>
    ensures { Parks w h t room.old (parking result) room.new }
{
    let g = page_of(w, h).ok_or(Refusal::PageMeasure)?;
    if !sound(g, t) {
        return Err(Refusal::UnsoundState);
    }
    if t.sequence != Sequence::Closed {
        return Err(Refusal::SequenceOpen);
    }
    let n = text_length(w, h, &t);
    if room.len() < n {
        return Err(Refusal::Room);
    }
    let mut out = Writer { room, at: 0 };
    write_text(w, h, &t, &mut out);
    Ok(n)
}
