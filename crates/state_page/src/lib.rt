// A page's measure, and places brought into it. Lengths are in units of 1/7200 inch.
// A measure within 4,800 by 6,800 dots is asked for; beyond it lengths would not fit.
#![tactic(auto)]

mod numbers;
mod page;

pub use numbers::{inch_over, is_resolution};
pub use page::{
    allowed, first_line_at, in_height, in_width, into_height, into_width, measure_of, page_of,
    width,
};
