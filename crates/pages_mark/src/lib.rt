// What the program `pages` says of a finding: the report's line FAULT, and behind it a line of its own, MARK, with where on the page the item began, so that
// who draws pages can mark it there. Nothing is refused: what has no room is not written.
#![tactic(auto)]

ghost use Rattle.std.specs.Prelude.{[]};
ghost use Rattle.common.specs.Writing.{Written};
ghost use Rattle.pages_mark.specs.Marks.{marked};
ghost use Rattle.rules.specs.Report.{told};

use common::Writer;
use number_finding::{finding_number, is_clean};
use report_fault::write_fault;
use report_line::write_line;
use rules::{Finding, Spot};

// FAULT, place, number; MARK, place, number, x, y. Nothing where all is well.
pub fn write_marked(place: usize, f: Finding, began: Spot, out: &mut Writer)
    ensures { Written out.old (told marked began place f []) out.new }
{
    write_fault(place, f, out);
    if is_clean(f) {
        return;
    }
    let n = finding_number(f) as usize;
    let x = began.x as usize;
    let y = began.y as usize;
    write_line(b"MARK", &[place, n, x, y], out);
}
