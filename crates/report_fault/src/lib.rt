// The lines SIZE, REFUSED and FAULT of the report.
// Nothing is refused: what has no room is not written.
#![tactic(auto)]

ghost use Rattle.std.specs.Prelude.{[], ◌∷◌};
ghost use Rattle.common.specs.Writing.{Written};
ghost use Rattle.rules.specs.Report.{line, SIZE, refused_line, fault};

use common::Writer;
use number_finding::{finding_number, is_clean, refusal_number};
use report_line::write_line;
use rules::{Finding, Refusal};

// SIZE, W, H.
pub fn write_size(w: usize, h: usize, out: &mut Writer)
    ensures { Written out.old (line SIZE (w ∷ h ∷ []) []) out.new }
{
    write_line(b"SIZE", &[w, h], out);
}

// REFUSED, and the refusal's number.
pub fn write_refused(why: Refusal, out: &mut Writer)
    ensures { Written out.old (refused_line why) out.new }
{
    let n = refusal_number(why) as usize;
    write_line(b"REFUSED", &[n], out);
}

// FAULT, place, number; nothing where all is well.
pub fn write_fault(place: usize, f: Finding, out: &mut Writer)
    ensures { Written out.old (fault place f []) out.new }
{
    if is_clean(f) {
        return out.settle();
    }
    let n = finding_number(f) as usize;
    write_line(b"FAULT", &[place, n], out);
}
