// The lines of a parked text, read from any bytes.
// An answer is what stands at the front of the bytes that are left, or None where they are not of the form: then the whole text is not, and no caller reads on.
#![tactic(auto)]

ghost use Rattle.std.specs.Prelude.{◌≡◌, ◌-◌, ◌*◌, ◌≤◌, ◌<◌, List, ℕ, replicate, if◌then◌else◌, Some, None, IfSome};
ghost use Rattle.common.specs.Lists.{is_nil};
ghost use Rattle.rules.specs.Measure.{origin};
ghost use Rattle.rules.specs.Texts.{Found, found, up_to, number, field, expect, expect_all, numbers, line_of, is_hex, unhex, pair, many, position, row};
ghost use Rattle.unpark_lines.specs.Answers.{heard, passed, stored, low, low_position, kind_field};

use rules::Spot;
use std::marker::Model;

// The bytes of a text that are left to read.
#[derive(Drop)]
pub struct Reader<'a> {
    rest: &'a [u8],
}

impl<'a> Model for Reader<'a> {
    ghost Value = { List ℕ };

    ghost view = { λ r. r.rest.now };
}

// What stands in a text as often as a number before it says.
pub trait Repeated: Copy {
    ghost form: { List ℕ → Found Self };

    // One of them.
    fn read(reader: &mut Reader) -> Option<Self>
        ensures { heard result reader.new ≡ form reader.old };
}

// A number as a state keeps it: one beyond 32 bits, which no sound state has, is lowered.
pub fn lowered(n: u64) -> u32
    ensures { result ≡ low n }
{
    u32::try_from(n).unwrap_or(u32::MAX)
}

// What a capital hexadecimal digit stands for.
#[tactic(auto, unfolding(rules::specs::Texts::is_hex, rules::specs::Texts::unhex))]
fn nibble(b: u8) -> Option<u8>
    ensures value { result ≡ (if is_hex b then Some (unhex b) else None) }
    ensures small { IfSome result (λ n. n < 16) }
{
    match b {
        b'0'..=b'9' => Some(b - b'0'),
        b'A'..=b'F' => Some(b - b'A' + 10),
        _ => None,
    }
}

impl<'a> Reader<'a> {
    // All of a text.
    pub fn new(text: &'a [u8]) -> Reader<'a>
        ensures { result ≡ text.now }
    {
        Reader { rest: text }
    }

    // Whether nothing is left.
    pub fn is_over(&self) -> bool
        ensures { result ≡ is_nil self.now }
    {
        self.rest.is_empty()
    }

    // The bytes of a word, which must stand there.
    fn word(&mut self, word: &[u8]) -> Option<()>
        ensures { passed result self.new ≡ expect_all word.now self.old }
    {
        self.rest = self.rest.strip_prefix(word)?;
        Some(())
    }

    // One byte, which must be e.
    #[tactic(auto, unfolding(rules::specs::Texts::expect))]
    fn byte(&mut self, e: u8) -> Option<()>
        ensures { passed result self.new ≡ expect e self.old }
    {
        let (first, rest) = self.rest.split_first()?;
        if *first != e {
            return None;
        }
        self.rest = rest;
        Some(())
    }

    // The LF that ends a line.
    fn line_end(&mut self) -> Option<()>
        ensures { passed result self.new ≡ expect 10 self.old }
    {
        self.byte(b'\n')
    }

    // ---- decimals

    // At most so many more digits, behind the first: nineteen in all fit.
    fn more_digits(&mut self, first: u64, most: usize) -> u64
        requires { (first < 10) × (most ≤ 18) }
        ensures { found result self.new ≡ up_to most first self.old }
    {
        let mut n = first;
        for _ in 0..most {
            let Some((digit, rest)) = self.rest.split_first() else {
                break;
            };
            if !digit.is_ascii_digit() {
                break;
            }
            n = n * 10 + u64::from(*digit - b'0');
            self.rest = rest;
        }
        n
    }

    // A decimal: 1 to 10 digits, no leading zeros.
    #[tactic(auto, unfolding(rules::specs::Texts::number))]
    fn number(&mut self) -> Option<u64>
        ensures { heard result self.new ≡ number self.old }
    {
        let (first, rest) = self.rest.split_first()?;
        self.rest = rest;
        match *first {
            b'0' => Some(0),
            b'1'..=b'9' => Some(self.more_digits(u64::from(*first - b'0'), 9)),
            _ => None,
        }
    }

    // A tab and the decimal behind it.
    #[tactic(auto, unfolding(rules::specs::Texts::field, rules::specs::Texts::then))]
    fn field(&mut self) -> Option<u64>
        ensures { heard result self.new ≡ field self.old }
    {
        self.byte(b'\t')?;
        self.number()
    }

    // A field; a flag is 0 or 1.
    #[tactic(auto, unfolding(crate::specs::Answers::kind_field, rules::specs::Texts::then))]
    fn fitting(&mut self, flag: bool) -> Option<u64>
        ensures { heard result self.new ≡ kind_field flag self.old }
    {
        let n = self.field()?;
        if flag && 1 < n {
            return None;
        }
        Some(n)
    }

    // ---- a line of numbers

    // N fields, and LF. A field is a flag where `flags` says so.
    fn numbers<const N: usize>(&mut self, flags: &[bool; N]) -> Option<[u64; N]>
        ensures { heard result self.new ≡ numbers flags.now self.old }
    {
        let mut held = [0u64; N];
        for i in 0..N {
            held[i] = self.fitting(flags[i])?;
        }
        self.line_end()?;
        Some(held)
    }

    // The line of a word and N numbers, LF behind it. A number is a flag where `flags` says so.
    #[tactic(auto, unfolding(rules::specs::Texts::line_of, rules::specs::Texts::then))]
    pub fn line<const N: usize>(&mut self, word: &[u8], flags: &[bool; N]) -> Option<[u64; N]>
        ensures { heard result self.new ≡ line_of word.now flags.now self.old }
    {
        self.word(word)?;
        self.numbers(flags)
    }

    // ---- lists

    // n of a kind, in an array that was blank. One that has no place in it is read and not stored.
    fn many<T: Repeated, const N: usize>(&mut self, n: usize, blank: T) -> Option<[T; N]>
        ensures { heard result self.new ≡ stored (replicate N blank) (many T.form n self.old) }
    {
        let mut held = [blank; N];
        for i in 0..n {
            let one = T::read(self)?;
            if i < N {
                held[i] = one;
            }
        }
        Some(held)
    }

    // The lines of n positions.
    pub fn positions(&mut self, n: usize) -> Option<[Spot; 20]>
        ensures { heard result self.new ≡ stored (replicate 20 origin) (many low_position n self.old) }
    {
        self.many(n, Spot { x: 0, y: 0 })
    }

    // The line of a row of n bytes: the word ROW and its tab, n pairs, LF.
    #[tactic(auto, unfolding(rules::specs::Texts::row, rules::specs::Texts::then))]
    pub fn row(&mut self, n: usize) -> Option<[u8; 600]>
        ensures { heard result self.new ≡ stored (replicate 600 0) (row n self.old) }
    {
        self.word(b"ROW\t")?;
        let bytes = self.many(n, 0u8)?;
        self.line_end()?;
        Some(bytes)
    }
}

impl Repeated for Spot {
    ghost form = { low_position };

    // The line of a position: the word POS, x and y, LF.
    #[tactic(auto, unfolding(crate::specs::Answers::low_position, rules::specs::Texts::position, rules::specs::Texts::then))]
    fn read(reader: &mut Reader) -> Option<Spot> {
        let [x, y] = reader.line(b"POS", &[false; 2])?;
        let x = lowered(x);
        let y = lowered(y);
        Some(Spot { x, y })
    }
}

impl Repeated for u8 {
    ghost form = { pair };

    // A byte of a row: a pair of digits.
    #[tactic(auto, unfolding(rules::specs::Texts::pair))]
    fn read(reader: &mut Reader) -> Option<u8> {
        let [high, low, rest @ ..] = reader.rest else {
            return None;
        };
        reader.rest = rest;
        Some(nibble(*high)? * 16 + nibble(*low)?)
    }
}
