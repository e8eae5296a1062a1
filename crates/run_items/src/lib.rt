// The items of a run, one after the other, on the page's own bytes: what `run` does once a call is taken and the page is ready.
// Nothing is refused. A run stops early only after a finding, a page end or the stream's end.
#![tactic(auto)]

ghost use Rattle.std.specs.Prelude.{◌≡◌, cond, not, ◌&&◌, ◌≤◌, length, drop};
ghost use Rattle.common.specs.Lists.{is_nil};
ghost use Rattle.rules.specs.Findings.{is_clean};
ghost use Rattle.rules.specs.Acts.{is_closed};
ghost use Rattle.rules.specs.Run.{place_of, spot_of, run_from, carried};
ghost use Rattle.theorems.specs.Facts.{Fits, Shaped, SoundState};
ghost use Rattle.do_deed.specs.Deeds.{OnStack, pen_after, stack_by};
ghost use Rattle.run_items.specs.Turns.{text_next, RunsOn, StillBlank};
ghost use Rattle.run_items.specs.Stops.{no_stop, stop_behind};

use do_deed::{Deed, Stacking};
use do_item::do_item;
use do_text::typed_pen;
use number_finding::is_clean;
use read_item::{is_text, read_item};
use rules::{Finding, Page, Progress, Sequence, Spot, State};
use state_pen::{Pen, core_of, pen_of};

// Whether there is no item to do: the stream's end, and no sequence open.
pub fn is_over(s: &[u8], at: usize, q: Sequence) -> bool
    ensures { result ≡ (is_closed q && is_nil (drop at s.now)) }
{
    s.len() <= at && q == Sequence::Closed
}

// Whether the next item is space or text: the cursor moves, and nothing else is to be looked at.
pub fn text_next(s: &[u8], at: usize, q: Sequence) -> bool
    ensures { result ≡ text_next s.now at q }
{
    at < s.len() && q == Sequence::Closed && is_text(s[at])
}

// A finding's place, 0 where there is none.
fn place_of(f: Finding, at: usize) -> usize
    ensures { result ≡ place_of f at }
{
    if is_clean(f) { 0 } else { at }
}

// Where on the page a finding was, the origin where there is none.
fn spot_of(f: Finding, at: Spot) -> Spot
    ensures { result ≡ spot_of f at }
{
    if is_clean(f) { Spot { x: 0, y: 0 } } else { at }
}

// What an item tells of a run that stops behind it: the item's finding, with its place in the stream and on the page, whether it ended the page, and
// whether that page was used before it.
#[derive(Clone, Copy)]
struct Stop {
    finding: Finding,
    found: usize,
    began: Spot,
    ended: bool,
    was_used: bool,
}

impl Stop {
    // No item has stopped the run.
    fn none() -> Stop
        ensures { result ≡ no_stop }
    {
        Stop {
            finding: Finding::Nothing,
            found: 0,
            began: Spot { x: 0, y: 0 },
            ended: false,
            was_used: false,
        }
    }

    // Behind the deed of an item that began at a place of the stream and met a pen.
    fn behind(d: &Deed, begins: usize, met: Pen) -> Stop
        ensures { result ≡ stop_behind d.now begins met }
    {
        Stop {
            finding: d.finding,
            found: place_of(d.finding, begins),
            began: spot_of(d.finding, met.at),
            ended: d.ended,
            was_used: met.used,
        }
    }

    // Whether the run goes on behind the item: it had no finding and ended no page.
    fn goes_on(self) -> bool
        ensures { result ≡ (is_clean self.finding && not self.ended) }
    {
        is_clean(self.finding) && !self.ended
    }
}

// The pen behind a deed, which met another pen: the stack is done as the deed tells.
fn restacked(d: &Deed, met: Pen, stack: &mut [Spot; 20]) -> Pen
    requires { OnStack d.now.stacking met d.now }
    ensures pen { result ≡ pen_after d.now stack.old }
    ensures stack { stack.new ≡ stack_by d.now.stacking met d.now.pen.depth stack.old }
{
    let mut pen = d.pen;
    match d.stacking {
        Stacking::Kept => {}
        Stacking::Pushed => stack[met.depth] = met.at,
        Stacking::Popped => {
            let free = Spot { x: 0, y: 0 };
            pen.at = stack[pen.depth];
            stack[pen.depth] = free;
        }
        Stacking::Emptied => *stack = [Spot { x: 0, y: 0 }; 20],
    }
    pen
}

// The bytes that are known to be zero behind a run: those known before it, if nothing was drawn on the page, else none. A page end hands the page over as
// it is, so a page that was ended is as it was before the item that ended it, used or not.
fn zeros_behind(ended: bool, before: bool, behind: bool, zeros: usize) -> usize
    ensures { result ≡ cond (cond ended before behind) 0 zeros }
{
    let drawn = if ended { before } else { behind };
    if drawn { 0 } else { zeros }
}

// The items of a run. Text is done here, byte by byte: only the cursor moves, and the page is used.
// The core is large: its pen, its stack and its seed row are kept apart, and a state is made of them only at the end.
// `zeros` is how many bytes of the page are known to be zero, 0 where none are: it stays as it is where the page is unused, or was when it was ended.
pub fn run_items(
    page: &mut [u8],
    g: Page,
    s: &[u8],
    t: State,
    place: usize,
    allowance: usize,
    zeros: &mut usize,
) -> Progress
    requires { (place ≤ length s.now) × Fits g × Shaped t.core × SoundState g t }
    ensures { RunsOn (run_from g allowance 0 place t page.old (drop place s.now)) (carried result) page.new × StillBlank g page.old zeros.old page.new zeros.new }
{
    let mut pen = pen_of(t.core);
    let mut stack = t.core.stack;
    let mut seed = t.core.seed;
    let mut beside = t.beside;
    let mut sequence = t.sequence;
    let mut at = place;
    let mut done = 0;
    let mut stop = Stop::none();
    // A turn takes one item, so its step is the item's own.
    while done < allowance {
        if text_next(s, at, sequence) {
            pen = typed_pen(g, pen, s[at]);
            at += 1;
            done += 1;
            continue;
        }
        if is_over(s, at, sequence) {
            break;
        }
        let begins = at;
        let met = pen;
        let r = read_item(s, at, sequence);
        let d = do_item(page, g, s, r.item, met, beside, &mut seed);
        pen = restacked(&d, met, &mut stack);
        beside = d.beside;
        sequence = r.sequence;
        at = r.next;
        done += 1;
        let behind = Stop::behind(&d, begins, met);
        if !behind.goes_on() {
            stop = behind;
            break;
        }
    }
    *zeros = zeros_behind(stop.ended, stop.was_used, pen.used, *zeros);
    Progress {
        state: State {
            core: core_of(pen, stack, seed),
            beside,
            sequence,
        },
        place: at,
        finding: stop.finding,
        found: stop.found,
        began: stop.began,
        ended: stop.ended,
        done,
    }
}
