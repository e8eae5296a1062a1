// A state kept between calls as bytes at fixed offsets, numbers little-endian, for callers that are not Rattle: read.
// Any bytes are read. Those that are no state, because they are too few or a flag is neither 0 nor 1, are read as a state
// whose row method is 255: no such state is sound. Nothing is refused.
#![tactic(auto)]

ghost use Rattle.std.specs.Prelude.{◌≡◌, cond, not, ◌+◌, ◌*◌, ◌≤◌, eqb, get_or};
ghost use Rattle.state_load.specs.Kept.{u32_at, u64_at, spot_at, layout_at, raster_at, bytes_at, stack_at, core_at, is_state, sequence_at, state_takes, state_at};

use common::byte_at;
use rules::{Beside, Core, Layout, Raster, Sequence, Spot, State};
use std::array;

// The bytes that a state takes: ROV_STATE.
pub const STATE_BYTES: usize = 808;

// So many bytes from a place on.
fn bytes_at<const N: usize>(b: &[u8], at: usize) -> [u8; N]
    requires { at + N ≤ state_takes }
    ensures { result ≡ bytes_at N b.now at }
{
    array::from_fn(|i| byte_at(b, at + i))
}

// Two bytes as a number, the lowest first.
#[tactic(auto, unfolding(crate::specs::Kept::table))]
fn u16_at(b: &[u8], at: usize) -> u16
    requires { at + 2 ≤ state_takes }
    ensures { result ≡ get_or b.now at 0 + 256 * get_or b.now (at + 1) 0 }
{
    u16::from_le_bytes(bytes_at(b, at))
}

// Four bytes as a number.
#[tactic(auto, unfolding(crate::specs::Kept::table))]
fn u32_at(b: &[u8], at: usize) -> u32
    requires { at + 4 ≤ state_takes }
    ensures { result ≡ u32_at b.now at }
{
    u32::from_le_bytes(bytes_at(b, at))
}

// Eight bytes as a number.
#[tactic(auto, unfolding(crate::specs::Kept::table))]
fn u64_at(b: &[u8], at: usize) -> usize
    requires { at + 8 ≤ state_takes }
    ensures { result ≡ u64_at b.now at }
{
    usize::from_le_bytes(bytes_at(b, at))
}

// A place on the page.
fn spot_at(b: &[u8], at: usize) -> Spot
    requires { at + 8 ≤ state_takes }
    ensures { result ≡ spot_at b.now at }
{
    Spot {
        x: u32_at(b, at),
        y: u32_at(b, at + 4),
    }
}

// The stack's twenty places.
fn stack_at(b: &[u8]) -> [Spot; 20]
    ensures { result ≡ stack_at b.now }
{
    array::from_fn(|i| spot_at(b, 48 + 8 * i))
}

// A byte that is a flag.
fn flag_at(b: &[u8], at: usize) -> bool
    ensures { result ≡ not (eqb (get_or b.now at 0) 0) }
{
    byte_at(b, at) != 0
}

// Margins, motion and line termination.
fn layout_at(b: &[u8]) -> Layout
    ensures { result ≡ layout_at b.now }
{
    Layout {
        left: u32_at(b, 8),
        right: u32_at(b, 12),
        top: u32_at(b, 16),
        hmi: u32_at(b, 20),
        vmi: u32_at(b, 24),
        termination: byte_at(b, 34),
    }
}

// Raster graphics but for the seed row and the row method.
fn raster_at(b: &[u8]) -> Raster
    ensures { result ≡ raster_at b.now }
{
    Raster {
        resolution: u16_at(b, 32),
        started: flag_at(b, 36),
        margin: u32_at(b, 28),
    }
}

// All that the commands see.
fn core_at(b: &[u8]) -> Core
    ensures { result ≡ core_at b.now }
{
    Core {
        at: spot_at(b, 0),
        layout: layout_at(b),
        raster: raster_at(b),
        used: flag_at(b, 37),
        depth: u64_at(b, 40),
        stack: stack_at(b),
        seed: bytes_at(b, 208),
    }
}

// Whether the bytes may be a state: enough of them, and flags that are 0 or 1.
fn is_state(b: &[u8]) -> bool
    ensures { result ≡ is_state b.now }
{
    STATE_BYTES <= b.len() && byte_at(b, 36) <= 1 && byte_at(b, 37) <= 1
}

// The row method; one that there is not where the bytes are no state.
fn method_at(b: &[u8]) -> u8
    ensures { result ≡ cond (is_state b.now) (get_or b.now 35 0) 255 }
{
    if is_state(b) { byte_at(b, 35) } else { 255 }
}

// The open sequence; none where both bytes are 0.
fn sequence_at(b: &[u8]) -> Sequence
    ensures { result ≡ sequence_at b.now }
{
    match (byte_at(b, 38), byte_at(b, 39)) {
        (0, 0) => Sequence::Closed,
        (first, group) => Sequence::Open { first, group },
    }
}

// The state that bytes are read as.
#[tactic(auto, unfolding(crate::specs::Kept::state_at))]
pub fn read_state(b: &[u8]) -> State
    ensures { result ≡ state_at b.now }
{
    State {
        core: core_at(b),
        beside: Beside {
            method: method_at(b),
        },
        sequence: sequence_at(b),
    }
}
