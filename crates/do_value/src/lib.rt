// Paper 01, "Commands": how a command uses its value: as a position, with its fraction, its whole part only, or not at all.
// Nothing is refused: any value has its use, and whether it is negative in that use is an answer.
#![tactic(auto)]

ghost use Rattle.std.specs.Prelude.{◌≡◌, ◌≤◌};
ghost use Rattle.rules.specs.Number.{size_of, has_minus, whole_part};
ghost use Rattle.rules.specs.Commands.{whole, use_of, position_value, used_value, is_negative};
ghost use Rattle.do_value.specs.Uses.{meant};

use rules::{Kind, Value};

// The four uses.
#[derive(Drop)]
enum Using {
    Position,
    Full,
    Whole,
    Ignored,
}

// How the command uses its value.
fn use_of(k: Kind) -> Using
    ensures { meant result ≡ use_of k }
{
    match k {
        Kind::Column
        | Kind::DecipointAcross
        | Kind::DotAcross
        | Kind::DecipointDown
        | Kind::DotDown
        | Kind::Line => Using::Position,
        Kind::Vmi | Kind::Hmi => Using::Full,
        Kind::LeftMargin
        | Kind::RightMargin
        | Kind::TopMargin
        | Kind::LinesPerInch
        | Kind::Termination
        | Kind::PushPop
        | Kind::Resolution
        | Kind::StartRaster
        | Kind::SkipRows => Using::Whole,
        Kind::EndRaster | Kind::ResetRaster => Using::Ignored,
    }
}

// The size, in ten-thousandths.
pub fn size_of(v: Value) -> u32
    ensures { result ≡ size_of v }
{
    match v {
        Value::Absolute(size) | Value::Relative { size, .. } => size,
    }
}

// Whether there is a minus.
fn has_minus(v: Value) -> bool
    ensures { result ≡ has_minus v }
{
    matches!(v, Value::Relative { negative: true, .. })
}

// The whole part of the size.
pub fn whole_part(v: Value) -> u32
    ensures { (result ≡ whole_part v) × (result ≤ 429496) }
{
    size_of(v) / 10000
}

// A position's value: a relative 0 has no minus.
fn position_value(v: Value) -> Value
    ensures { result ≡ position_value v }
{
    match v {
        Value::Absolute(_) => v,
        Value::Relative { negative, size } => Value::Relative {
            negative: negative && 0 < size,
            size,
        },
    }
}

// The value as the command uses it: elsewhere than in a position a plus means nothing.
#[tactic(auto, unfolding(rules::specs::Commands::used_value))]
pub fn used_value(k: Kind, v: Value) -> Value
    ensures { result ≡ used_value (use_of k) v }
{
    match use_of(k) {
        Using::Position => position_value(v),
        Using::Full => Value::Absolute(size_of(v)),
        Using::Whole => Value::Absolute(whole_part(v) * 10000),
        Using::Ignored => Value::Absolute(0),
    }
}

// Whether the value is negative where its whole part is used: -0.5 is not.
#[tactic(auto, unfolding(rules::specs::Commands::is_negative))]
pub fn whole_negative(v: Value) -> bool
    ensures { result ≡ is_negative whole v }
{
    has_minus(v) && 0 < whole_part(v)
}

// Whether the value is negative as the command uses it, which no position and no ignored value is.
#[tactic(auto, unfolding(rules::specs::Commands::is_negative))]
pub fn is_negative(k: Kind, v: Value) -> bool
    ensures { result ≡ is_negative (use_of k) v }
{
    match use_of(k) {
        Using::Position | Using::Ignored => false,
        Using::Full => has_minus(v) && 0 < size_of(v),
        Using::Whole => whole_negative(v),
    }
}
