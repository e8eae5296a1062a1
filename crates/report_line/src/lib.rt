// A line of the report, written piece by piece: its word, its numbers behind tabs, LF.
// Nothing is refused: what has no room is not written.
#![tactic(auto)]

ghost use Rattle.std.specs.Prelude.{[], ◌∷◌};
ghost use Rattle.common.specs.Writing.{Written};
ghost use Rattle.rules.specs.Plain.{decimal};
ghost use Rattle.rules.specs.Report.{line};

use common::Writer;

// A number behind a tab.
pub fn write_field(n: usize, out: &mut Writer)
    ensures { Written out.old (9 ∷ decimal n []) out.new }
{
    out.put(b'\t');
    number_write::write_decimal(n, out);
}

// A line: its word, its numbers, LF.
pub fn write_line(word: &[u8], numbers: &[usize], out: &mut Writer)
    ensures { Written out.old (line word.now numbers.now []) out.new }
{
    out.put_all(word);
    for n in numbers {
        write_field(*n, out);
    }
    out.put(b'\n');
}
