// Paper 01, "Measures": the state afresh.
#![tactic(auto)]

ghost use Rattle.std.specs.Prelude.{◌≡◌, true};
ghost use Rattle.rules.specs.Measure.{allowed, measure_of};
ghost use Rattle.rules.specs.States.{fresh_top, fresh_layout, fresh_core, afresh};

use rules::{Beside, Core, Layout, Page, Raster, Sequence, Spot, State};
use state_page::{first_line_at, into_height, measure_of, width};

// The top margin of a page afresh.
fn fresh_top(g: Page) -> u32
    ensures { result ≡ fresh_top g }
{
    if 150 < g.high() { 3600 } else { 0 }
}

// Margins, motion and line termination afresh.
#[tactic(auto, unfolding(rules::specs::States::fresh_layout))]
fn fresh_layout(g: Page) -> Layout
    ensures { result ≡ fresh_layout g }
{
    Layout {
        left: 0,
        right: width(g),
        top: fresh_top(g),
        hmi: 720,
        vmi: 1200,
        termination: 0,
    }
}

// The core afresh.
#[tactic(auto, unfolding(rules::specs::States::fresh_core, rules::specs::States::fresh_raster))]
pub fn fresh_core(g: Page) -> Core
    ensures { result ≡ fresh_core g }
{
    let layout = fresh_layout(g);
    Core {
        at: Spot {
            x: 0,
            y: into_height(g, first_line_at(layout)),
        },
        layout,
        raster: Raster {
            resolution: 75,
            started: false,
            margin: 0,
        },
        used: false,
        depth: 0,
        stack: [Spot { x: 0, y: 0 }; 20],
        seed: [0; 600],
    }
}

// The state afresh.
#[tactic(auto, unfolding(rules::specs::States::afresh))]
pub fn afresh(g: Page) -> State
    ensures { result ≡ afresh g }
{
    State {
        core: fresh_core(g),
        beside: Beside { method: 0 },
        sequence: Sequence::Closed,
    }
}

// The state afresh on a page of this width and height, in dots.
#[tactic(auto, unfolding(rules::specs::Measure::allowed))]
pub fn afresh_on(w: usize, h: usize) -> State
    requires { allowed w h ≡ true }
    ensures { result ≡ afresh (measure_of w h) }
{
    afresh(Page::new(measure_of(w, h)))
}
