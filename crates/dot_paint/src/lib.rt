// A row painted on a page. Refuses nothing: what lies beyond the page is not painted.
#![tactic(auto)]

ghost use Rattle.std.specs.Prelude.{◌≡◌, ◌≤◌, ◌<◌};
ghost use Rattle.rules.specs.Dots.{inked_line, inked_lines, painted};
ghost use Rattle.dot_ink.specs.Ink.{Used};

use dot_ink::{squares, used};
use dot_lay::lay;
use dot_slowly::paint_slowly;

// A page row painted with a row: laid where a bit is one dot, and dot by dot where it is more.
fn paint_line(part: &mut [u8], row: &[u8], dots: usize, from: usize)
    requires { 0 < dots }
    ensures { part.new ≡ inked_line row.now dots from 0 part.old }
{
    if dots == 1 {
        lay(part, row, from);
    } else {
        paint_slowly(part, row, dots, from);
    }
}

// So many page rows, each lent on to be painted with a row, as far as the page goes. Not by `chunks_mut`: of a slice that it has lent, a proof
// knows the length alone.
fn paint_lines(page: &mut [u8], wide: usize, row: &[u8], dots: usize, from: usize, lines: usize)
    requires { 0 < dots }
    ensures { page.new ≡ inked_lines wide row.now dots from lines page.old }
{
    let mut a = 0;
    for _ in 0..lines {
        if page.len() <= a {
            return;
        }
        let b = a + wide.min(page.len() - a);
        paint_line(&mut page[a..b], row, dots, from);
        a = b;
    }
}

// The page from the row's first page row on, with the squares of the row's first e bytes made once, as far as a page row goes.
fn lay_squares(page: &mut [u8], wide: usize, row: &[u8], dots: usize, from: usize, e: usize)
    requires { (2 ≤ dots) × (dots ≤ 4) × (wide ≤ 600) × Used row.now e }
    ensures { page.new ≡ inked_lines wide row.now dots from dots page.old }
{
    let mut ink = [0u8; 600];
    let n = e.min(wide.div_ceil(dots));
    let m = dots * n;
    squares(&mut ink[..m], row, n, dots);
    paint_lines(page, wide, &ink[..m], 1, from, dots);
}

// The page from the row's first page row on. Squares of more than four dots, and on page rows of more than 600 bytes, which no page
// has, are painted slowly.
fn paint_rest(page: &mut [u8], wide: usize, row: &[u8], dots: usize, from: usize)
    ensures { page.new ≡ inked_lines wide row.now dots from dots page.old }
{
    if dots == 0 {
        return;
    }
    let e = used(row);
    if e == 0 {
        return;
    }
    if (2..=4).contains(&dots) && wide <= 600 {
        lay_squares(page, wide, row, dots, from, e);
    } else {
        paint_lines(page, wide, &row[..e], dots, from, dots);
    }
}

// A row painted from dot (from, line) on, with squares of so many dots; `wide` bytes are a page row. Other dots stay.
pub fn paint(page: &mut [u8], wide: usize, row: &[u8], dots: usize, from: usize, line: usize)
    ensures { page.new ≡ painted wide row.now dots from line page.old }
{
    if wide == 0 {
        return;
    }
    if page.len() / wide < line {
        return;
    }
    let a = line * wide;
    paint_rest(&mut page[a..], wide, row, dots, from);
}
