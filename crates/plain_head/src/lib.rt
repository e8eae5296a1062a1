// What stands before the payload of a command, written plain: ESC, two bytes, the count and the letter. Where the room ends, writing ends.
#![tactic(auto)]

ghost use Rattle.std.specs.Prelude.{[], ◌∷◌};
ghost use Rattle.common.specs.Writing.{Written};
ghost use Rattle.rules.specs.Commands.{spelling, print_spelled, row_spelled};
ghost use Rattle.plain_head.specs.Heads.{head_of, HeadLength};

use common::Writer;

// ESC, a first byte and a group byte.
pub fn write_start(first: u8, group: u8, out: &mut Writer)
    ensures { Written out.old (27 ∷ first ∷ group ∷ []) out.new }
{
    out.put_all(&[27, first, group]);
}

// The head of a command with n bytes of payload.
fn write_head(first: u8, group: u8, letter: u8, n: usize, out: &mut Writer)
    ensures { Written out.old (head_of (spelling first group letter) n) out.new }
{
    write_start(first, group, out);
    number_write::write_decimal(n, out);
    out.put(letter);
}

// The head of &p#X for n bytes of payload.
pub fn write_print_head(n: usize, out: &mut Writer)
    ensures { Written out.old (head_of print_spelled n) out.new }
{
    write_head(b'&', b'p', b'X', n, out);
}

// The head of *b#W for n bytes of payload.
pub fn write_row_head(n: usize, out: &mut Writer)
    ensures { Written out.old (head_of row_spelled n) out.new }
{
    write_head(b'*', b'b', b'W', n, out);
}

// The length of such a head.
pub fn head_length(n: usize) -> usize
    ensures { HeadLength n result }
{
    4 + plain_length::decimal_length(n)
}
