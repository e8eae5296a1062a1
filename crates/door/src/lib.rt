// The library for C, include/rovinuset.h: states are kept by the caller as bytes, pages and streams are lent, answers are numbers.
// Each function takes any numbers and any bytes; what cannot be carried out is refused by the paper's number and writes nothing.
// A refusal is what a call gives back. A finding is told by a reference of its own: both tables grow, and one number could not say which is meant.
#![tactic(auto)]

ghost use Rattle.std.specs.Prelude.{◌≡◌, cond, ◌&&◌, leb, length, take};
ghost use Rattle.common.specs.Bits.{ones_all};
ghost use Rattle.rules.specs.Given.{verdict_of};
ghost use Rattle.rules.specs.Measure.{allowed, measure_of, page_bytes};
ghost use Rattle.rules.specs.Findings.{verdict_number};
ghost use Rattle.rules.specs.Sound.{sound};
ghost use Rattle.std.proofs.lemmas.List.Edits.{sets};
ghost use Rattle.state_load.specs.Kept.{state_at, state_bytes};
ghost use Rattle.door.specs.Answers.{MadeAfresh, Answered, length_told, ToldPlain, ToldParked, ToldUnparked};

use number_finding::{finding_number, refusal_number};
use rules::{Refusal, State};
use state_afresh::afresh;
use state_load::{STATE_BYTES, read_state};
use state_page::page_of;
use state_save::write_state;
use state_sound::sound;

// The state afresh, for a page of w by h dots.
#[unsafe(no_mangle)]
pub extern "C" fn rov_afresh(w: usize, h: usize, state: &mut [u8]) -> u32
    ensures { MadeAfresh w h state.old result state.new }
{
    let Some(g) = page_of(w, h) else {
        return refusal_number(Refusal::PageMeasure);
    };
    if state.len() < STATE_BYTES {
        return refusal_number(Refusal::UnsoundState);
    }
    write_state(afresh(g), state);
    0
}

// Whether the bytes are a state that is sound on a page of w by h dots.
#[unsafe(no_mangle)]
pub extern "C" fn rov_sound(w: usize, h: usize, state: &[u8]) -> bool
    ensures { result ≡ (allowed w h && sound (measure_of w h) (state_at state.now)) }
{
    match page_of(w, h) {
        Some(g) => sound(g, read_state(state)),
        None => false,
    }
}

// The dots set on a page of w by h dots; 0 where the buffer holds none.
#[unsafe(no_mangle)]
pub extern "C" fn rov_dots(w: usize, h: usize, page: &[u8]) -> usize
    ensures { result ≡ cond (allowed w h && leb (page_bytes (measure_of w h)) (length page.now)) (ones_all (take (page_bytes (measure_of w h)) page.now)) 0 }
{
    let Some(g) = page_of(w, h) else {
        return 0;
    };
    let n = g.high() * g.wide();
    if page.len() < n {
        return 0;
    }
    dot_page::count(&page[..n])
}

// A state, written into the caller's bytes. A function of its own, so that the copy that is handed on takes no room on the stack while a run goes on.
fn keep(t: &State, state: &mut [u8])
    ensures { state.new ≡ sets state.old 0 (state_bytes t.now) }
{
    write_state(*t, state);
}

// At most `allowance` items of the stream, from *place on. The page is the caller's between calls, so none of its bytes are known to be zero.
#[unsafe(no_mangle)]
pub extern "C" fn rov_run(
    w: usize,
    h: usize,
    page: &mut [u8],
    stream: &[u8],
    state: &mut [u8],
    allowance: usize,
    place: &mut usize,
    done: &mut usize,
    finding: &mut u32,
    found: &mut usize,
    ended: &mut usize,
) -> u32
    ensures { Answered w h page.old stream.now state.old allowance place.old result page.new state.new place.new done.new finding.new found.new ended.new }
{
    let t = read_state(state);
    let mut zeros = 0;
    match run::run(page, w, h, stream, t, *place, allowance, &mut zeros) {
        Ok(o) => {
            *place = o.place;
            *done = o.done;
            *finding = finding_number(o.finding);
            *found = o.found;
            *ended = usize::from(o.ended);
            keep(&o.state, state);
            0
        }
        Err(why) => {
            *done = 0;
            *finding = 0;
            *found = 0;
            *ended = 0;
            refusal_number(why)
        }
    }
}

// The length that a call gave, 0 where it was refused; its refusal's number, 0 for none.
fn tell_length(outcome: Result<usize, Refusal>, length: &mut usize) -> u32
    ensures number { result ≡ verdict_number (verdict_of outcome) }
    ensures length { length.new ≡ length_told outcome }
{
    match outcome {
        Ok(n) => {
            *length = n;
            0
        }
        Err(why) => {
            *length = 0;
            refusal_number(why)
        }
    }
}

// The plain stream of the stream, written to the front of the room.
#[unsafe(no_mangle)]
pub extern "C" fn rov_translate(
    w: usize,
    h: usize,
    stream: &[u8],
    room: &mut [u8],
    length: &mut usize,
) -> u32
    ensures { ToldPlain w h stream.now room.old result room.new length.new }
{
    let plain = plain_translate::translate(w, h, stream, room);
    tell_length(plain, length)
}

// The text of a state on a page of w by h dots, written to the front of the room.
#[unsafe(no_mangle)]
pub extern "C" fn rov_park(
    w: usize,
    h: usize,
    state: &[u8],
    room: &mut [u8],
    length: &mut usize,
) -> u32
    ensures { ToldParked w h state.now room.old result room.new length.new }
{
    let parked = park_write::park(w, h, read_state(state), room);
    tell_length(parked, length)
}

// The page measure and the state that a parked text holds. What is wrong with the text is told before a buffer that is too short. Refused, nothing is written.
#[unsafe(no_mangle)]
pub extern "C" fn rov_unpark(text: &[u8], w: &mut usize, h: &mut usize, state: &mut [u8]) -> u32
    ensures { ToldUnparked text.now w.old h.old state.old result w.new h.new state.new }
{
    // looked at where it lies: what is taken out of a Result is copied
    let held = unpark_read::unpark(text);
    match &held {
        Ok(_) if state.len() < STATE_BYTES => refusal_number(Refusal::UnsoundState),
        Ok(u) => {
            *w = u.wide;
            *h = u.high;
            keep(&u.state, state);
            0
        }
        Err(why) => refusal_number(*why),
    }
}
