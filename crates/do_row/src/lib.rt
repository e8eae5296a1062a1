// A row drawn: decoded over the seed row, painted where the cursor was, its finding told. That the bytes of the seed row from W/8 on are zero is asked for.
#![tactic(auto)]

ghost use Rattle.std.specs.Prelude.{◌≡◌, true, cond, ◌/◌, drop, take};
ghost use Rattle.rules.specs.declared.Core.{Core};
ghost use Rattle.rules.specs.declared.Command.TheVariants.{Row};
ghost use Rattle.rules.specs.Measure.{dot_unit};
ghost use Rattle.rules.specs.Sound.{all_zero};
ghost use Rattle.rules.specs.Dots.{painted};
ghost use Rattle.rules.specs.Acts.{mean_command};
ghost use Rattle.do_deed.specs.Deeds.{DeedOn};

use do_deed::Deed;
use do_seed::{begin_seed, begun_raster, row_at};
use do_value::whole_negative;
use rules::{Beside, Finding, Page, Raster, Value};
use state_pen::Pen;

// The dots to a bit; none where there is no resolution.
fn dots_of(resolution: u16) -> usize
    ensures { result ≡ 300 / resolution }
{
    300usize.checked_div(usize::from(resolution)).unwrap_or(0)
}

// The first W/8 bytes of a row painted where the cursor and the graphics margin are.
fn paint_row(page: &mut [u8], g: Page, row: &[u8; 600], r: Raster, y: u32)
    ensures { page.new ≡ painted g.wide (take g.wide row.now) (300 / r.resolution) (r.margin / dot_unit) (y / dot_unit) page.old }
{
    let wide = g.wide();
    let dots = dots_of(r.resolution);
    let from = (r.margin / 24) as usize;
    let line = (y / 24) as usize;
    dot_paint::paint(page, wide, &row[..wide], dots, from, line);
}

// The finding of a row: 7 where it is damaged. A damaged row is drawn too, as zeros, so that whether it came whole is a flag and no error.
fn row_finding(intact: bool) -> Finding
    ensures { result ≡ cond intact Finding.Nothing Finding.DamagedRow }
{
    if intact {
        Finding::Nothing
    } else {
        Finding::DamagedRow
    }
}

// *b#W: a row. It is decoded over the seed row, which it then is, and painted where the cursor was.
pub fn do_row(
    page: &mut [u8],
    g: Page,
    v: Value,
    payload: &[u8],
    p: Pen,
    m: Beside,
    seed: &mut [u8; 600],
) -> Deed
    requires { all_zero (drop g.wide seed.old) ≡ true }
    ensures { DeedOn g (λ (c : Core). mean_command g (Row v) payload.now c m) p seed.old page.old result seed.new page.new }
{
    if whole_negative(v) {
        return Deed::kept(Finding::NotAllowed, p, m);
    }
    let raster = begun_raster(p.raster);
    let at = row_at(g, p.at, raster);
    begin_seed(p.raster.started, seed);
    let intact = row_decode::decode(m.method, payload, seed, g.wide());
    paint_row(page, g, seed, raster, p.at.y);
    let pen = Pen {
        at,
        raster,
        used: true,
        ..p
    };
    Deed::kept(row_finding(intact), pen, m)
}
