// The leaves one by one behind a boundary to C, for tests and measurements: a value, an item, a row, a painting, a count.
// Each function hands on what its leaf promises; an answer that is an enum is told by numbers. Nothing is refused.
#![tactic(auto)]

ghost use Rattle.std.specs.Prelude.{◌≡◌, [], ◌++◌, ◌+◌, ◌-◌, ◌≤◌, min, length, drop, replicate};
ghost use Rattle.common.specs.Bits.{ones_all};
ghost use Rattle.common.specs.Stores.{Wrote};
ghost use Rattle.rules.specs.Dots.{painted};
ghost use Rattle.rules.specs.Number.{value, size_of};
ghost use Rattle.rules.specs.Plain.{put_value};
ghost use Rattle.read_item.specs.Items.{read_at};
ghost use Rattle.row_decode.specs.Decoding.{Decoded};
ghost use Rattle.leaf_field.specs.Fields.{sign_number, opened, field, value_of};

use common::Writer;
use leaf_field::{field_of, sign_of, size_of};
use rules::{Sequence, Value};

// The sign of the value at a place.
#[unsafe(no_mangle)]
pub extern "C" fn rov_value_sign(s: &[u8], at: usize) -> u32
    ensures { result ≡ sign_number (value (drop at s.now)).value }
{
    sign_of(read_number::read_value(s, at).value)
}

// The size of the value at a place.
#[unsafe(no_mangle)]
pub extern "C" fn rov_value_size(s: &[u8], at: usize) -> u32
    ensures { result ≡ size_of (value (drop at s.now)).value }
{
    size_of(read_number::read_value(s, at).value)
}

// The place behind the value at a place.
#[unsafe(no_mangle)]
pub extern "C" fn rov_value_next(s: &[u8], at: usize) -> usize
    ensures { result ≡ at + (length (drop at s.now) - length (value (drop at s.now)).rest) }
{
    read_number::read_value(s, at).next
}

// The open sequence from its two bytes, 0 for none.
fn opened_by(first: u8, group: u8) -> Sequence
    ensures { result ≡ opened first group }
{
    if first == 0 {
        Sequence::Closed
    } else {
        Sequence::Open { first, group }
    }
}

// A field of the item at a place.
#[unsafe(no_mangle)]
pub extern "C" fn rov_item_field(s: &[u8], at: usize, first: u8, group: u8, n: u8) -> usize
    ensures { result ≡ field (read_at s.now at (opened first group)) n }
{
    let r = read_item::read_item(s, at, opened_by(first, group));
    field_of(r, n)
}

// A value from its sign and size.
fn value_from(relative: bool, negative: bool, size: u32) -> Value
    ensures { result ≡ value_of relative negative size }
{
    if relative {
        Value::Relative { negative, size }
    } else {
        Value::Absolute(size)
    }
}

// The plain form of a value, written at a place of the room.
#[unsafe(no_mangle)]
pub extern "C" fn rov_write_value(
    relative: bool,
    negative: bool,
    size: u32,
    room: &mut [u8],
    at: usize,
) -> usize
    ensures { Wrote room.old at (put_value (value_of relative negative size) []) room.new result }
{
    let at = at.min(room.len());
    let mut out = Writer { room, at };
    number_write::write_value(value_from(relative, negative, size), &mut out);
    out.at
}

// A row decoded into the seed row: whether it came whole.
#[unsafe(no_mangle)]
pub extern "C" fn rov_decode(method: u8, payload: &[u8], row: &mut [u8; 600], wide: usize) -> bool
    requires { length row.old ≡ 600 }
    ensures { Decoded method (min wide 600) payload.now row.old row.new result }
{
    row_decode::decode(method, payload, row, wide)
}

// A row painted on a page.
#[unsafe(no_mangle)]
pub extern "C" fn rov_paint(
    page: &mut [u8],
    wide: usize,
    row: &[u8],
    dots: usize,
    from: usize,
    line: usize,
)
    ensures { page.new ≡ painted wide row.now dots from line page.old }
{
    dot_paint::paint(page, wide, row, dots, from, line);
}

// The first n bytes of a page zeroed.
#[unsafe(no_mangle)]
pub extern "C" fn rov_clear(page: &mut [u8], n: usize)
    ensures { page.new ≡ replicate (min n (length page.old)) 0 ++ drop n page.old }
{
    common::clear(page, n);
}

// The dots set on a page.
#[unsafe(no_mangle)]
pub extern "C" fn rov_count(page: &[u8]) -> usize
    requires { length page.now ≤ 4294967296 }
    ensures { result ≡ ones_all page.now }
{
    dot_page::count(page)
}
