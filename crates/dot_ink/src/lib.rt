// The squares of a row: its bits as two, three or four dots each, made once, byte by byte; and where its last dots are.
#![tactic(auto)]

ghost use Rattle.std.specs.Prelude.{◌≡◌, ◌*◌, ◌≤◌, ◌<◌, length};
ghost use Rattle.dot_ink.specs.Ink.{Blank, Used, spread_of, Spread, Squared};

// Whether N bytes are all zero: or-ed into one.
#[tactic(auto, using(crate::proofs::Inks::blank_ored))]
fn is_blank<const N: usize>(bytes: &[u8; N]) -> bool
    ensures { Blank N bytes.now 0 result }
{
    bytes.iter().fold(0, |all, b| all | *b) == 0
}

// The bytes of a row without the blank blocks of N bytes at its end: up to its last nonzero byte, and fewer than N zeros behind it.
#[tactic(auto, using(crate::proofs::Inks::front_whole, crate::proofs::Inks::front_less))]
fn used_by<const N: usize>(row: &[u8]) -> usize
    requires { (0 < N) × (N ≤ 64) }
    ensures { Used row.now result }
{
    let mut used = row;
    while let Some((front, block)) = used.split_last_chunk::<N>() {
        if !is_blank(block) {
            break;
        }
        used = front;
    }
    used.len()
}

// The bytes of a row up to its last nonzero one, and at most fifteen zeros behind it: how many. A row that is blank at its end, as most are, is first
// gone over in large steps.
#[tactic(auto, using(crate::proofs::Inks::used_again))]
pub fn used(row: &[u8]) -> usize
    ensures { Used row.now result }
{
    let nearly = used_by::<64>(row);
    used_by::<16>(&row[..nearly])
}

// Four bits, two dots each.
fn two_of(x: u8) -> u8
    requires { x < 16 }
    ensures { result ≡ spread_of 2 x 1 }
{
    x % 2 * 3 + x / 2 % 2 * 12 + x / 4 % 2 * 48 + x / 8 * 192
}

// Two bits, four dots each.
fn four_of(x: u8) -> u8
    requires { x < 4 }
    ensures { result ≡ spread_of 4 x 3 }
{
    x % 2 * 15 + x / 2 * 240
}

// Three dots to a bit: the first byte of three.
fn three_first(b: u8) -> u8
    ensures { result ≡ spread_of 3 b 0 }
{
    b / 128 * 224 + b / 64 % 2 * 28 + b / 32 % 2 * 3
}

// The middle one.
fn three_middle(b: u8) -> u8
    ensures { result ≡ spread_of 3 b 1 }
{
    b / 32 % 2 * 128 + b / 16 % 2 * 112 + b / 8 % 2 * 14 + b / 4 % 2
}

// The last one.
fn three_last(b: u8) -> u8
    ensures { result ≡ spread_of 3 b 2 }
{
    b / 4 % 2 * 192 + b / 2 % 2 * 56 + b % 2 * 7
}

// How a byte becomes N bytes of squares, each bit N dots. A trait and no closure, since a bound `Fn` that names N is not covered yet. What is made is
// written where it belongs: four bytes that are given back and copied take 1.8 times as long.
trait Spreads<const N: usize> {
    fn spread(b: u8, ink: &mut [u8])
        requires { length ink.old ≡ N }
        ensures { Spread N b ink.new };
}

// Two dots to a bit.
struct Two;

impl Spreads<2> for Two {
    fn spread(b: u8, ink: &mut [u8]) {
        ink[0] = two_of(b / 16);
        ink[1] = two_of(b % 16);
    }
}

// Three dots to a bit.
struct Three;

impl Spreads<3> for Three {
    #[tactic(auto, using(crate::proofs::Inks::spread_three))]
    fn spread(b: u8, ink: &mut [u8]) {
        ink[0] = three_first(b);
        ink[1] = three_middle(b);
        ink[2] = three_last(b);
    }
}

// Four dots to a bit.
struct Four;

impl Spreads<4> for Four {
    fn spread(b: u8, ink: &mut [u8]) {
        ink[0] = four_of(b / 64);
        ink[1] = four_of(b / 16 % 4);
        ink[2] = four_of(b / 4 % 4);
        ink[3] = four_of(b % 4);
    }
}

// The first n bytes of a row, N dots to a bit. Not by `chunks_exact_mut`: of what such a loop has written a proof knows the length alone.
#[tactic(auto, using(crate::proofs::Inks::making_starts, crate::proofs::Inks::making_more, crate::proofs::Inks::making_ends))]
fn squares_by<const N: usize, S: Spreads<N>>(ink: &mut [u8], row: &[u8], n: usize)
    requires { (n ≤ length row.now) × (N * n ≤ length ink.old) }
    ensures { Squared row.now N n ink.old ink.new }
{
    for (i, b) in row[..n].iter().enumerate() {
        S::spread(*b, &mut ink[N * i..N * i + N]);
    }
}

// The first n bytes of a row as squares of two, three or four dots: what each of its page rows has, from the row's first dot on. What stands behind
// them in `ink` stays.
#[tactic(auto, using(crate::proofs::Inks::squared_told, crate::proofs::Inks::squared_last, crate::proofs::Inks::room_told, crate::proofs::Inks::room_last))]
pub fn squares(ink: &mut [u8], row: &[u8], n: usize, dots: usize)
    requires { (2 ≤ dots) × (dots ≤ 4) × (n ≤ length row.now) × (dots * n ≤ length ink.old) }
    ensures { Squared row.now dots n ink.old ink.new }
{
    match dots {
        2 => squares_by::<2, Two>(ink, row, n),
        3 => squares_by::<3, Three>(ink, row, n),
        _ => squares_by::<4, Four>(ink, row, n),
    }
}
