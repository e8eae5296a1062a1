// The text of a state, line by line; and its length, counted before anything is written.
// Nothing is refused: what has no room is not written.
#![tactic(auto)]

ghost use Rattle.std.specs.Prelude.{◌≡◌, [], ◌∷◌, ◌+◌, ◌*◌, ◌/◌, ◌≤◌, ◌<◌, length, take};
ghost use Rattle.common.specs.Writing.{Written};
ghost use Rattle.plain_length.specs.Counts.{Counted};
ghost use Rattle.rules.specs.Forms.{parked_of, JOB};
ghost use Rattle.rules.specs.Park.{give_out, write};
ghost use Rattle.rules.specs.Plain.{decimal};
ghost use Rattle.rules.specs.Report.{fields};
ghost use Rattle.rules.specs.Texts.{put_many, put_position, hex, put_pair, put_row};

use common::Writer;
use plain_length::decimal_length;
use report_line::write_line;
use rules::{Core, Spot, State};

// The numbers of the line JOB, in their order.
pub fn numbers_of(w: usize, h: usize, t: &State) -> [usize; 16]
    ensures { result ≡ give_out JOB.members (parked_of w h t.now) }
{
    let core = &t.core;
    let layout = core.layout;
    let raster = core.raster;
    [
        w,
        h,
        core.at.x as usize,
        core.at.y as usize,
        layout.left as usize,
        layout.right as usize,
        layout.top as usize,
        layout.hmi as usize,
        layout.vmi as usize,
        usize::from(layout.termination),
        usize::from(raster.resolution),
        usize::from(t.beside.method),
        usize::from(raster.started),
        raster.margin as usize,
        usize::from(core.used),
        core.depth,
    ]
}

// The stacked positions, the deepest first.
pub fn stacked(depth: usize, stack: &[Spot; 20]) -> &[Spot]
    ensures value { result.now ≡ take depth stack.now }
    ensures few { length result.now ≤ 20 }
{
    &stack[..depth.min(20)]
}

// The bytes of the seed row that a page of w dots has.
pub fn seed_row(w: usize, core: &Core) -> &[u8]
    ensures { result.now ≡ take (w / 8) core.now.seed }
{
    &core.seed[..(w / 8).min(600)]
}

// The line of a position.
#[tactic(auto, unfolding(rules::specs::Texts::put_position))]
fn write_position(p: Spot, out: &mut Writer)
    ensures { Written out.old (put_position p []) out.new }
{
    write_line(b"POS", &[p.x as usize, p.y as usize], out);
}

// A line for each position.
pub fn write_positions(spots: &[Spot], out: &mut Writer)
    ensures { Written out.old (put_many put_position spots.now []) out.new }
{
    out.settle();
    for p in spots {
        write_position(*p, out);
    }
}

// A capital hexadecimal digit.
#[tactic(auto, unfolding(rules::specs::Texts::hex))]
fn hex(n: u8) -> u8
    requires { n < 16 }
    ensures { result ≡ hex n }
{
    if n < 10 { b'0' + n } else { b'A' + n - 10 }
}

// The two digits of a byte.
#[tactic(auto, unfolding(rules::specs::Texts::put_pair), using(common::proofs::Writing::written_both))]
fn write_pair(b: u8, out: &mut Writer)
    ensures { Written out.old (put_pair b []) out.new }
{
    out.put(hex(b / 16));
    out.put(hex(b % 16));
}

// The line of a row: the digits of its bytes behind its word, and LF.
pub fn write_row(bytes: &[u8], out: &mut Writer)
    ensures { Written out.old (put_row bytes.now []) out.new }
{
    out.put_all(b"ROW\t");
    for b in bytes {
        write_pair(*b, out);
    }
    out.put(b'\n');
}

// The text of a state on a page of w by h dots.
pub fn write_text(w: usize, h: usize, t: &State, out: &mut Writer)
    ensures { Written out.old (write JOB (parked_of w h t.now)) out.new }
{
    write_line(b"JOB", &numbers_of(w, h, t), out);
    write_positions(stacked(t.core.depth, &t.core.stack), out);
    write_row(seed_row(w, &t.core), out);
}

// The length of a number behind a tab.
fn field_length(n: usize) -> usize
    ensures { Counted (9 ∷ decimal n []) 21 result }
{
    1 + decimal_length(n)
}

// The length of at most sixteen numbers behind tabs, and LF.
fn fields_length(numbers: &[usize]) -> usize
    requires { length numbers.now ≤ 16 }
    ensures { Counted (fields numbers.now []) 337 result }
{
    let mut count = 0;
    for n in numbers {
        count += field_length(*n);
    }
    count + 1
}

// The length of the line of a position.
fn position_length(p: Spot) -> usize
    ensures { Counted (put_position p []) 46 result }
{
    4 + field_length(p.x as usize) + field_length(p.y as usize)
}

// The length of the lines of the stacked positions.
fn positions_length(core: &Core) -> usize
    ensures { Counted (put_many put_position (take core.now.depth core.now.stack) []) 920 result }
{
    let mut count = 0;
    let spots = stacked(core.depth, &core.stack);
    for p in spots {
        count += position_length(*p);
    }
    count
}

// The length of the text of a state.
pub fn text_length(w: usize, h: usize, t: &State) -> usize
    ensures { result ≡ length (write JOB (parked_of w h t.now)) }
{
    let numbers = numbers_of(w, h, t);
    let job = 3 + fields_length(&numbers);
    let positions = positions_length(&t.core);
    let row = 5 + 2 * seed_row(w, &t.core).len();
    job + positions + row
}
