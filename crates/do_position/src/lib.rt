// Paper 01, "Commands": where a command puts the cursor.
#![tactic(auto)]

ghost use Rattle.std.specs.Prelude.{◌≡◌, ◌<◌};
ghost use Rattle.rules.specs.Effects.{target, displacement};
ghost use Rattle.do_position.specs.Spots.{across_spot, down_spot};

use rules::{Page, Spot, Value};
use state_page::{into_height, into_width};

// A displacement: size times unit, cut to whole units.
fn displacement(size: u32, unit: u32) -> u64
    ensures { (result ≡ displacement size unit) × (result < 1844674407370956) }
{
    u64::from(size) * u64::from(unit) / 10000
}

// Where a position lies: an absolute one from its base, a relative one from where the cursor is, no less than 0.
fn target(base: u64, now: u32, unit: u32, v: Value) -> u64
    requires { base < 8589934592 }
    ensures { result ≡ target base now unit v }
{
    let now = u64::from(now);
    match v {
        Value::Absolute(size) => base + displacement(size, unit),
        Value::Relative {
            negative: false,
            size,
        } => now + displacement(size, unit),
        Value::Relative {
            negative: true,
            size,
        } => now.saturating_sub(displacement(size, unit)),
    }
}

// The cursor behind &a#C, &a#H, *p#X.
pub fn across_at(g: Page, unit: u32, v: Value, at: Spot) -> Spot
    ensures { result ≡ across_spot g unit v at }
{
    let x = into_width(g, target(0, at.x, unit, v));
    Spot { x, ..at }
}

// The cursor behind &a#V, *p#Y, &a#R. One function for both axes would have to be told the field, the limit and the base, and be no plainer.
pub fn down_at(g: Page, base: u64, unit: u32, v: Value, at: Spot) -> Spot
    requires { base < 8589934592 }
    ensures { result ≡ down_spot g base unit v at }
{
    let y = into_height(g, target(base, at.y, unit, v));
    Spot { y, ..at }
}
