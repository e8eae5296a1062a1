// The value of a command, read from a stream. Sizes are in ten-thousandths.
// Nothing is refused: any bytes have a value, a place beyond the end has the value 0.
#![tactic(auto)]

ghost use Rattle.std.specs.Prelude.{◌≡◌, ◌+◌, ◌*◌, ◌-◌, ◌≤◌, ◌<◌, min, drop};
ghost use Rattle.rules.specs.Number.{digits, places, fraction, size};
ghost use Rattle.read_number.specs.Answers.{Took, ReadAt};

use rules::Value;

// The largest size, 32,767, in ten-thousandths.
const LARGEST: u32 = 327670000;

// A value, and the place behind it.
#[derive(Clone, Copy)]
pub struct ValueAt {
    pub value: Value,
    pub next: usize,
}

// A number, and the place behind it.
#[derive(Clone, Copy)]
struct NumberAt {
    number: u32,
    next: usize,
}

impl NumberAt {
    ghost use Rattle.std.specs.Prelude.{◌≡◌};
    ghost use Rattle.read_number.specs.Answers.{relative_at, absolute_at};

    // A size with a sign before it.
    fn relative(self, negative: bool) -> ValueAt
        ensures { result ≡ relative_at negative self }
    {
        ValueAt {
            value: Value::Relative {
                negative,
                size: self.number,
            },
            next: self.next,
        }
    }

    // A size with no sign.
    fn absolute(self) -> ValueAt
        ensures { result ≡ absolute_at self }
    {
        ValueAt {
            value: Value::Absolute(self.number),
            next: self.next,
        }
    }
}

// The number n with one more digit; from 32,768 on it does not matter how far.
fn one_more(n: u32, b: u8) -> u32
    requires { (48 ≤ b) × (b < 58) × (n ≤ 32768) }
    ensures { result ≡ min (n * 10 + (b - 48)) 32768 }
{
    (n * 10 + u32::from(b - b'0')).min(32768)
}

// The whole number at a place, or 32,768 where it is more. No `for`: the place where the digits end is a part of the answer.
fn read_digits(s: &[u8], at: usize) -> NumberAt
    ensures { Took s.now at (digits 0 (drop at s.now)) 32768 result }
{
    let mut n = 0;
    let mut i = at;
    while i < s.len() && s[i].is_ascii_digit() {
        n = one_more(n, s[i]);
        i += 1;
    }
    NumberAt { number: n, next: i }
}

// The number n with one more place, of the weight given.
fn one_place(n: u32, weight: u32, b: u8) -> u32
    requires { (48 ≤ b) × (b < 58) × (n + 10 * weight ≤ 327690000) }
    ensures { result ≡ n + (b - 48) * weight }
{
    n + u32::from(b - b'0') * weight
}

// The size n with the digits at a place behind its point; from the fifth on they weigh nothing. The place is counted as above.
fn read_places(s: &[u8], at: usize, n: u32) -> NumberAt
    requires { n ≤ 327680000 }
    ensures { Took s.now at (places 1000 n (drop at s.now)) 327670000 result }
{
    let mut sum = n;
    let mut weight = 1000;
    let mut i = at;
    while i < s.len() && s[i].is_ascii_digit() {
        sum = one_place(sum, weight, s[i]);
        weight /= 10;
        i += 1;
    }
    NumberAt {
        number: sum.min(LARGEST),
        next: i,
    }
}

// The whole number n as a size, with the point and digits at a place, if there is a point.
fn read_fraction(s: &[u8], at: usize, n: u32) -> NumberAt
    requires { n ≤ 32768 }
    ensures { Took s.now at (fraction n (drop at s.now)) 327670000 result }
{
    match s.get(at) {
        Some(b'.') => read_places(s, at + 1, n * 10000),
        _ => NumberAt {
            number: (n * 10000).min(LARGEST),
            next: at,
        },
    }
}

// The size at a place: digits, an optional point and digits. A size over 32,767 becomes 32,767.
fn read_size(s: &[u8], at: usize) -> NumberAt
    ensures { Took s.now at (size (drop at s.now)) 327670000 result }
{
    let whole = read_digits(s, at);
    read_fraction(s, whole.next, whole.number)
}

// The value at a place: a sign makes it relative, also before 0.
pub fn read_value(s: &[u8], at: usize) -> ValueAt
    ensures { ReadAt s.now at result }
{
    match s.get(at) {
        Some(b'+') => read_size(s, at + 1).relative(false),
        Some(b'-') => read_size(s, at + 1).relative(true),
        _ => read_size(s, at).absolute(),
    }
}
