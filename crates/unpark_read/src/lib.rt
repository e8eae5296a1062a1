// A parked text read back: the page measure and the state, or refused by 17 or 18, with no state. One pass over any bytes: the form of the whole text first,
// and nothing is judged before it is known. What was read is judged when its lines are done with, and not inside of their reading: so the arrays of the lines
// and the copies that soundness is asked on need not stand on the stack at once.
#![tactic(auto)]

ghost use Rattle.std.specs.Prelude.{◌≡◌, get_or, [], ◌/◌};
ghost use Rattle.rules.specs.Texts.{line_of, row};
ghost use Rattle.rules.specs.Forms.{parked_of, flags_of, JOB};
ghost use Rattle.rules.specs.Park.{of_numbers, parked_sound, unparked, unpark};
ghost use Rattle.unpark_lines.specs.Answers.{heard};
ghost use Rattle.unpark_read.specs.Held.{low16, low8, held_layout, held_raster, held, sixteen, last_judged, judged_read};

use rules::{Beside, Core, Layout, Raster, Refusal, Sequence, Spot, State, Stored};
use state_page::page_of;
use state_sound::sound;
use unpark_lines::{Reader, lowered};

// A number in a place of 16 bits.
fn lowered_16(n: u64) -> u16
    ensures { result ≡ low16 n }
{
    u16::try_from(n).unwrap_or(u16::MAX)
}

// A number in a place of 8 bits.
fn lowered_8(n: u64) -> u8
    ensures { result ≡ low8 n }
{
    u8::try_from(n).unwrap_or(u8::MAX)
}

// Margins, motion and line termination, of the numbers of a line JOB.
fn layout_of(n: &[u64; 16]) -> Layout
    ensures { result ≡ held_layout (of_numbers JOB (sixteen n.now) [] []).state.core.layout }
{
    Layout {
        left: lowered(n[4]),
        right: lowered(n[5]),
        top: lowered(n[6]),
        hmi: lowered(n[7]),
        vmi: lowered(n[8]),
        termination: lowered_8(n[9]),
    }
}

// Raster graphics but for the seed row and the row method.
fn raster_of(n: &[u64; 16]) -> Raster
    ensures { result ≡ held_raster (of_numbers JOB (sixteen n.now) [] []).state.core.raster }
{
    Raster {
        resolution: lowered_16(n[10]),
        started: n[12] == 1,
        margin: lowered(n[13]),
    }
}

// The state that the numbers, the positions and the row of a text say.
fn state_of(n: &[u64; 16], stack: [Spot; 20], seed: [u8; 600]) -> State
    ensures { result ≡ held (of_numbers JOB (sixteen n.now) stack seed).state }
{
    State {
        core: Core {
            at: Spot {
                x: lowered(n[2]),
                y: lowered(n[3]),
            },
            layout: layout_of(n),
            raster: raster_of(n),
            used: n[14] == 1,
            depth: n[15] as usize,
            stack,
            seed,
        },
        beside: Beside {
            method: lowered_8(n[11]),
        },
        sequence: Sequence::Closed,
    }
}

// Whether a page of w by h dots is allowed, and the state sound on it.
#[tactic(auto, unfolding(rules::specs::Park::parked_sound))]
fn sound_on(w: usize, h: usize, t: State) -> bool
    ensures { result ≡ parked_sound (parked_of w h t) }
{
    match page_of(w, h) {
        Some(g) => sound(g, t),
        None => false,
    }
}

// The line JOB at the front of a text. Two of its fields are flags: started and used.
fn read_job(reader: &mut Reader) -> Option<[u64; 16]>
    ensures { heard result reader.new ≡ line_of JOB.word (flags_of JOB.members) reader.old }
{
    let mut flags = [false; 16];
    flags[12] = true;
    flags[14] = true;
    reader.line(b"JOB", &flags)
}

// The line ROW, with which the text is over, and what the text then says, not judged yet.
fn read_last(reader: &mut Reader, n: &[u64; 16], stack: [Spot; 20]) -> Option<Stored>
    ensures { judged_read result ≡ last_judged n.now stack (row (get_or n.now 0 0 / 8) reader.old) }
{
    let seed = reader.row((n[0] / 8) as usize)?;
    if !reader.is_over() {
        return None;
    }
    Some(Stored {
        wide: n[0] as usize,
        high: n[1] as usize,
        state: state_of(n, stack, seed),
    })
}

// What a parked text says, not judged yet; None where it is not of the form: another word, field, number, count of lines or pairs, a line that does not end
// with LF, something behind the last line.
fn read_text(s: &[u8]) -> Option<Stored>
    ensures { judged_read result ≡ unpark s.now }
{
    let mut reader = Reader::new(s);
    let n = read_job(&mut reader)?;
    let stack = reader.positions(n[15] as usize)?;
    read_last(&mut reader, &n, stack)
}

// What a parked text gives back: what it says, where that is allowed and sound. Else 17 where it is not of the form, and 18.
#[tactic(auto, unfolding(crate::specs::Held::judged_read, crate::specs::Held::judged_parked))]
pub fn unpark(s: &[u8]) -> Result<Stored, Refusal>
    ensures { unparked result ≡ unpark s.now }
{
    let Some(stored) = read_text(s) else {
        return Err(Refusal::TextForm);
    };
    if sound_on(stored.wide, stored.high, stored.state) {
        Ok(stored)
    } else {
        Err(Refusal::TextState)
    }
}
