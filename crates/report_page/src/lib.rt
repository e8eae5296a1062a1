// The lines PAGE and END of the report, for a page that is done and for the end.
// Nothing is refused: what has no room is not written.
#![tactic(auto)]

ghost use Rattle.std.specs.Prelude.{cond, [], ◌∷◌, ◌≤◌, length};
ghost use Rattle.common.specs.Bits.{ones_all};
ghost use Rattle.common.specs.Writing.{Written};
ghost use Rattle.dot_page.specs.Zeros.{FirstZero};
ghost use Rattle.rules.specs.Acts.{world};
ghost use Rattle.rules.specs.Report.{line, PAGE, END, last_lines};

use common::Writer;
use report_line::write_line;
use rules::Core;

// PAGE, page number, dots set on it, if the page is to be told. Its first `zeros` bytes are known to be zero and not counted.
pub fn write_page_if(wanted: bool, number: usize, page: &[u8], zeros: usize, out: &mut Writer)
    requires { (length page.now ≤ 4294967296) × FirstZero zeros page.now }
    ensures { Written out.old (cond wanted (line PAGE (number ∷ ones_all page.now ∷ []) []) []) out.new }
{
    if !wanted {
        return out.settle();
    }
    let dots = dot_page::count_behind(page, zeros);
    write_line(b"PAGE", &[number, dots], out);
}

// END, x, y, stack depth, findings.
fn write_end(core: Core, findings: usize, out: &mut Writer)
    ensures { Written out.old (line END (core.at.x ∷ core.at.y ∷ core.depth ∷ findings ∷ []) []) out.new }
{
    let x = core.at.x as usize;
    let y = core.at.y as usize;
    write_line(b"END", &[x, y, core.depth, findings], out);
}

// The last lines: the page that is left, if it is used, and END. Of a used page no byte is known to be zero.
pub fn write_last(number: usize, core: Core, page: &[u8], findings: usize, out: &mut Writer)
    requires { length page.now ≤ 4294967296 }
    ensures { Written out.old (last_lines number (world core page.now []) findings) out.new }
{
    write_page_if(core.used, number, page, 0, out);
    write_end(core, findings, out);
}
