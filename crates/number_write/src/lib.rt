// Numbers and values, written as the plain stream has them. Sizes are in ten-thousandths.
// Nothing is refused: what has no room is not written.
#![tactic(auto)]

ghost use Rattle.std.specs.Prelude.{◌≡◌, cond, [], ◌+◌, ◌*◌, ◌/◌, ◌≤◌, ◌<◌, length, drop};
ghost use Rattle.common.specs.Writing.{Written};
ghost use Rattle.rules.specs.Plain.{decimal, places_up_to, put_size, put_value};

use common::Writer;
use rules::Value;

// The digits of a number, with no leading zeros, at the end of twenty bytes: where they begin.
// They come the last first, until one is left, so that the loop goes by the number.
fn fill_digits(n: usize, digits: &mut [u8; 20]) -> usize
    ensures { (drop result digits.new ≡ decimal n []) × (result ≤ 20) }
{
    let mut left = n;
    let mut i: usize = 19;
    while 10 <= left {
        digits[i] = (48 + left % 10) as u8;
        left = left / 10;
        i -= 1;
    }
    digits[i] = (48 + left) as u8;
    i
}

// A number in decimal, with no leading zeros.
pub fn write_decimal(n: usize, out: &mut Writer)
    ensures { Written out.old (decimal n []) out.new }
{
    let mut digits = [48u8; 20];
    let first = fill_digits(n, &mut digits);
    out.put_all(&digits[first..]);
}

// The first place of a number below ten times its weight.
fn first_place(n: u32, weight: u32) -> u8
    requires { n < 10 * weight }
    ensures { result ≡ 48 + n / weight }
{
    (48 + n / weight) as u8
}

// The places behind a point, with no trailing zeros: none where nothing is left.
fn write_places(n: u32, out: &mut Writer)
    requires { (n < 10000) × (out.old.at ≤ length out.old.room.now) }
    ensures { Written out.old (places_up_to 4 1000 n []) out.new }
{
    let mut left = n;
    for unit in [1000, 100, 10, 1] {
        if left == 0 {
            return;
        }
        out.put(first_place(left, unit));
        left %= unit;
    }
}

// A size, with a point only where places follow.
fn write_size(n: u32, out: &mut Writer)
    ensures { Written out.old (put_size n []) out.new }
{
    write_decimal((n / 10000) as usize, out);
    let part = n % 10000;
    if part == 0 {
        return;
    }
    out.put(b'.');
    write_places(part, out);
}

// The byte that makes a value relative.
fn sign(negative: bool) -> u8
    ensures { result ≡ cond negative 45 43 }
{
    if negative { b'-' } else { b'+' }
}

// A value as the plain stream has it: a relative one with its sign.
pub fn write_value(v: Value, out: &mut Writer)
    ensures { Written out.old (put_value v []) out.new }
{
    match v {
        Value::Absolute(n) => write_size(n, out),
        Value::Relative { negative, size } => {
            out.put(sign(negative));
            write_size(size, out);
        }
    }
}
