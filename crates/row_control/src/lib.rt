// The control bytes of a payload, by methods 1 to 3: what each means, and a first look over the payload, which shows whether a byte is missing.
#![tactic(auto)]

ghost use Rattle.std.specs.Prelude.{◌≡◌, ◌+◌, ◌^◌, ◌≤◌, ◌<◌, length};
ghost use Rattle.rules.specs.Rows.{control2, control3, is_whole};
ghost use Rattle.row_control.specs.Controls.{control_of, count, whole_from, Means, Passed, Behind};

use rules::Mode;

// A place of a payload, and the place of the row where the next byte goes.
#[derive(Clone, Copy)]
pub struct Place {
    pub from: usize,
    pub at: usize,
}

impl Place {
    // The place behind k bytes of the payload and n of the row.
    pub fn past(self, k: usize, n: usize) -> Place
        requires { (self.from + k < 2 ^ 64) × (self.at + n < 2 ^ 64) }
        ensures { (result.from ≡ self.from + k) × (result.at ≡ self.at + n) }
    {
        Place {
            from: self.from + k,
            at: self.at + n,
        }
    }
}

// Method 2: what a control byte means.
#[tactic(auto, unfolding(crate::specs::Controls::count))]
fn packed(c: u8, at: usize) -> Mode
    ensures { Means (control2 c at) result }
{
    let n = usize::from(c);
    match c {
        0..=127 => Mode::Copy(n, at),
        128 => Mode::Ready(at),
        _ => Mode::Repeat(257 - n, at),
    }
}

// Method 3: what a control byte means.
#[tactic(auto, unfolding(crate::specs::Controls::count))]
fn delta(c: u8, at: usize) -> Mode
    requires { at < 1000 }
    ensures { Means (control3 c at) result }
{
    let n = usize::from(c / 32);
    match usize::from(c % 32) {
        31 => Mode::Offset(n, at + 31),
        k => Mode::Copy(n, at + k),
    }
}

// What a control byte means, by method.
#[tactic(auto, unfolding(crate::specs::Controls::control_of, crate::specs::Controls::count))]
fn control(method: u8, c: u8, at: usize) -> Mode
    requires { at < 1000 }
    ensures { Means (control_of method c at) result }
{
    match method {
        1 => Mode::Repeat(usize::from(c) + 1, at),
        2 => packed(c, at),
        _ => delta(c, at),
    }
}

// The place of the first byte from i on that is not 255, or the end.
pub fn past_full(s: &[u8], i: usize) -> usize
    requires { i ≤ length s.now }
    ensures { Passed s.now i result }
{
    let rest = &s[i..];
    i + rest.iter().position(|b| *b != 255).unwrap_or(rest.len())
}

// The place behind what a mode asks for, from i on; it lies past the end if bytes are missing.
#[tactic(auto, unfolding(crate::specs::Controls::count, crate::specs::Controls::wanted))]
fn behind(m: Mode, s: &[u8], i: usize) -> usize
    requires { (i ≤ length s.now) × (count m < 257) }
    ensures { Behind m s.now i result }
{
    match m {
        Mode::Ready(_) => i,
        Mode::Offset(n, _) => past_full(s, i) + (n + 2),
        Mode::Copy(n, _) => i + (n + 1),
        Mode::Repeat(..) => i + 1,
    }
}

// A look from a place on, where a control byte is next: whether no byte is missing. Each byte says how far the next one is.
pub fn look_from(method: u8, s: &[u8], from: usize) -> bool
    ensures { result ≡ whole_from (control_of method) s.now from }
{
    let mut i = from;
    while i < s.len() {
        let m = control(method, s[i], 0);
        i = behind(m, s, i + 1);
    }
    i <= s.len()
}

// The first look: whether no byte is missing. By method 1 none is exactly if the bytes are pairs.
pub fn look(method: u8, s: &[u8]) -> bool
    ensures { result ≡ is_whole (control_of method) (Mode.Ready 0) s.now }
{
    if method == 1 {
        s.len() % 2 == 0
    } else {
        look_from(method, s, 0)
    }
}
