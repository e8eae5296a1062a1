// A run: at most the items that the caller allows, from a place of the stream on, in a state that was handed in, on a page that is lent.
// Refused calls (10 to 14) write nothing. A run stops early only after a finding, a page end or the stream's end.
#![tactic(auto)]

ghost use Rattle.std.specs.Prelude.{◌≡◌, cond, ◌||◌, ◌≤◌, eqb, length, replicate};
ghost use Rattle.dot_page.specs.Zeros.{FirstZero};
ghost use Rattle.rules.specs.Measure.{page_bytes};
ghost use Rattle.rules.specs.Run.{run, carried, ran};
ghost use Rattle.theorems.specs.Facts.{Fits, Shaped, SoundState};
ghost use Rattle.theorems.specs.Statements.{RunPromise};
ghost use Rattle.run_items.specs.Turns.{RunsOn};

use rules::{LONGEST_STREAM, Page, Progress, Refusal, State};
use run_items::{is_over, run_items};
use state_page::page_of;
use state_sound::sound;

// With the page unused and an item to do, a run zeroes the page first, if not all of its bytes are known to be zero. Given is how many then are.
fn ready_page(page: &mut [u8], used: bool, allowance: usize, over: bool, zeros: usize) -> usize
    requires { FirstZero zeros page.old }
    ensures { (page.new ≡ cond (used || eqb allowance 0 || over) page.old (replicate (length page.old) 0)) × (result ≡ cond (used || eqb allowance 0 || over) 0 (length page.old)) }
{
    if used || allowance == 0 || over {
        return 0;
    }
    if zeros < page.len() {
        page.fill(0);
    }
    page.len()
}

// A run on the page's own bytes; `zeros` is how many of them are known to be zero before it and behind it.
fn run_page(
    page: &mut [u8],
    g: Page,
    s: &[u8],
    t: State,
    place: usize,
    allowance: usize,
    zeros: &mut usize,
) -> Progress
    requires { (place ≤ length s.now) × Fits g × Shaped t.core × SoundState g t × (length page.old ≡ page_bytes g) × FirstZero zeros.old page.old }
    ensures { RunsOn (run g allowance t place page.old s.now) (carried result) page.new × FirstZero zeros.new page.new }
{
    let over = is_over(s, place, t.sequence);
    *zeros = ready_page(page, t.core.used, allowance, over, *zeros);
    run_items(page, g, s, t, place, allowance, zeros)
}

// At most `allowance` items of the stream s, from a place of it on, on a page of w by h dots that is lent. Refusals 10 to 14 are checked in that order.
// `zeros` is how many bytes of the page, from the first on, are known to be zero, 0 where none are: before the run, so that an unused page that is blank
// already is not zeroed again; behind it, so that who counts the dots of pages need not count those of a blank one. Who knows nothing lends a 0.
pub fn run(
    page: &mut [u8],
    w: usize,
    h: usize,
    s: &[u8],
    t: State,
    place: usize,
    allowance: usize,
    zeros: &mut usize,
) -> Result<Progress, Refusal>
    requires { FirstZero zeros.old page.old }
    ensures { RunPromise w h page.old s.now t place allowance (ran t place result) page.new × FirstZero zeros.new page.new }
{
    let g = page_of(w, h).ok_or(Refusal::PageMeasure)?;
    let n = g.high() * g.wide();
    if page.len() < n {
        return Err(Refusal::PageBuffer);
    }
    if LONGEST_STREAM < s.len() {
        return Err(Refusal::StreamLength);
    }
    if !sound(g, t) {
        return Err(Refusal::UnsoundState);
    }
    if s.len() < place {
        return Err(Refusal::StartPlace);
    }
    *zeros = (*zeros).min(n);
    Ok(run_page(&mut page[..n], g, s, t, place, allowance, zeros))
}
