// What one run adds to the report: the lines of its finding and of the page that it ended, and what they count.
// Nothing is refused: what has no room is not written.
#![tactic(auto)]

ghost use Rattle.std.specs.Prelude.{◌≡◌, [], ◌≤◌, length};
ghost use Rattle.common.specs.Writing.{Written};
ghost use Rattle.dot_page.specs.Zeros.{FirstZero};
ghost use Rattle.report_laws.specs.Left.{printed};
ghost use Rattle.rules.specs.Report.{counted, fault_alone};
ghost use Rattle.rules.specs.Run.{carried};

use common::Writer;
use number_finding::is_clean;
use rules::{Finding, Progress};

// A finding counts one.
pub fn count_of(f: Finding) -> usize
    ensures { (result ≡ counted f) × (result ≤ 1) }
{
    usize::from(!is_clean(f))
}

// What a run found: the line of its finding, and the line of the page that it ended, whose first `zeros` bytes are known to be zero.
pub fn write_ran(o: Progress, number: usize, page: &[u8], zeros: usize, out: &mut Writer)
    requires { (length page.now ≤ 4294967296) × FirstZero zeros page.now }
    ensures { Written out.old (printed fault_alone number (carried o) page.now []) out.new }
{
    report_fault::write_fault(o.found, o.finding, out);
    report_page::write_page_if(o.ended, number, page, zeros, out);
}
