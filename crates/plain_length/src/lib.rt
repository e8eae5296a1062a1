// How many bytes a number or a value has as it is written, so that a caller can count before it writes.
#![tactic(auto)]

ghost use Rattle.std.specs.Prelude.{[], ◌<◌};
ghost use Rattle.rules.specs.Plain.{decimal, places_up_to, put_size, put_value};
ghost use Rattle.plain_length.specs.Counts.{Counted};

use rules::Value;

// How many digits a number has in decimal. The loop goes by the number, until one digit is left.
pub fn decimal_length(n: usize) -> usize
    ensures { Counted (decimal n []) 20 result }
{
    let mut count = 1;
    let mut left = n;
    while 10 <= left {
        left /= 10;
        count += 1;
    }
    count
}

// How many places are written behind a point: none where nothing is left.
fn places_length(n: u32) -> usize
    requires { n < 10000 }
    ensures { Counted (places_up_to 4 1000 n []) 4 result }
{
    let mut count = 0;
    let mut left = n;
    for unit in [1000, 100, 10, 1] {
        if left == 0 {
            return count;
        }
        left %= unit;
        count += 1;
    }
    count
}

// How many bytes a size has.
fn size_length(n: u32) -> usize
    ensures { Counted (put_size n []) 25 result }
{
    let whole = decimal_length((n / 10000) as usize);
    let places = n % 10000;
    if places == 0 {
        return whole;
    }
    whole + 1 + places_length(places)
}

// How many bytes a value has in the plain stream.
pub fn value_length(v: Value) -> usize
    ensures { Counted (put_value v []) 26 result }
{
    match v {
        Value::Absolute(n) => size_length(n),
        Value::Relative { negative, size } => size_length(size) + 1,
    }
}
