// Paper 01, "Commands": what a command with a value changes, or the finding that bars it, which is seen before anything is changed.
#![tactic(auto)]

ghost use Rattle.std.specs.Prelude.{◌≡◌};
ghost use Rattle.do_change.specs.Changed.{change_of};

use do_change::{Change, push_pop};
use do_margin::{hmi_at, left_at, lines_at, right_at, termination_at, top_at, vmi_at};
use do_position::{across_at, down_at};
use do_raster::{end_at, reset_at, resolution_at, skip_at, start_at};
use rules::{Finding, Kind, Page, Value};
use state_page::first_line_at;
use state_pen::Pen;

// What a command changes. The value is here as it is used.
pub fn changed(g: Page, k: Kind, v: Value, p: Pen) -> Result<Change, Finding>
    ensures { result ≡ change_of g k v p.at p.layout p.raster p.depth }
{
    let Pen {
        at,
        layout,
        raster,
        depth,
        ..
    } = p;
    let top = u64::from(layout.top);
    match k {
        Kind::Column => Ok(Change::To(across_at(g, layout.hmi, v, at))),
        Kind::DecipointAcross => Ok(Change::To(across_at(g, 10, v, at))),
        Kind::DotAcross => Ok(Change::To(across_at(g, 24, v, at))),
        Kind::DecipointDown => Ok(Change::To(down_at(g, top, 10, v, at))),
        Kind::DotDown => Ok(Change::To(down_at(g, top, 24, v, at))),
        Kind::Line => Ok(Change::To(down_at(g, first_line_at(layout), layout.vmi, v, at))),
        Kind::LeftMargin => left_at(g, v, at, layout),
        Kind::RightMargin => right_at(g, v, at, layout),
        Kind::TopMargin => top_at(g, v, at, layout),
        Kind::Vmi => vmi_at(v, at, layout),
        Kind::LinesPerInch => lines_at(v, at, layout),
        Kind::Hmi => Ok(hmi_at(v, at, layout)),
        Kind::Termination => termination_at(v, at, layout),
        Kind::PushPop => push_pop(v, depth),
        Kind::Resolution => resolution_at(v, raster),
        Kind::StartRaster => start_at(v, at, raster),
        Kind::EndRaster => Ok(end_at(raster)),
        Kind::ResetRaster => Ok(reset_at(raster)),
        Kind::SkipRows => skip_at(g, v, at, raster),
    }
}
