// What stands before the pages of a job: the first line of its report, with the refusal if there is one, and the head of each page as PBM has it.
// Both are written into a room that is lent: what has no room is not written.
#![tactic(auto)]

ghost use Rattle.std.specs.Prelude.{◌≡◌, [], ◌∷◌};
ghost use Rattle.common.specs.Stores.{Holds};
ghost use Rattle.common.specs.Writing.{Written};
ghost use Rattle.pages_open.specs.Opening.{Begins, pbm_head, longest_head, refusal_line, refusal_of};
ghost use Rattle.rules.specs.Report.{line, SIZE};

use common::Writer;
use number_write::write_decimal;
use report_fault::{write_refused, write_size};
use report_verdict::Saying;
use rules::{LONGEST_STREAM, Refusal};

// The head of a page of w by h dots: P4, width, height.
fn write_pbm(w: usize, h: usize, out: &mut Writer)
    ensures { Written out.old (pbm_head w h) out.new }
{
    out.put_all(b"P4\n");
    write_decimal(w, out);
    out.put(b' ');
    write_decimal(h, out);
    out.put(b'\n');
}

// That head, from the start of the room on.
pub fn write_head(w: usize, h: usize, room: &mut [u8]) -> usize
    ensures { Holds longest_head (pbm_head w h) room.old room.new result }
{
    let mut out = Writer { room, at: 0 };
    write_pbm(w, h, &mut out);
    out.at
}

// Why a job is refused before its first step: its measure is not allowed, or it is too long.
fn refusal_of(w: usize, h: usize, s: &[u8]) -> Option<Refusal>
    ensures { result ≡ refusal_of w h s.now }
{
    if !state_page::allowed(w, h) {
        return Some(Refusal::PageMeasure);
    }
    if LONGEST_STREAM < s.len() {
        return Some(Refusal::StreamLength);
    }
    None
}

// SIZE, and REFUSED where there is a reason.
fn write_first(w: usize, h: usize, refusal: Option<Refusal>, out: &mut Writer)
    ensures { Written out.old (line SIZE (w ∷ h ∷ []) (refusal_line refusal)) out.new }
{
    write_size(w, h, out);
    if let Some(why) = refusal {
        write_refused(why, out);
    }
}

// The lines before the first step, from the start of the room on.
pub fn begin(w: usize, h: usize, s: &[u8], room: &mut [u8]) -> Saying
    ensures { Begins w h s.now room.old result room.new }
{
    let refusal = refusal_of(w, h, s);
    let mut out = Writer { room, at: 0 };
    write_first(w, h, refusal, &mut out);
    Saying {
        refused: refusal.is_some(),
        end: out.at,
    }
}
