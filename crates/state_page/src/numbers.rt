// Arithmetic and a test of numbers that the effects share.
ghost use Rattle.std.specs.Prelude.{◌≡◌, ◌-◌, ◌/◌, ◌≤◌, max};
ghost use Rattle.common.specs.Choice.{one_of};
ghost use Rattle.rules.specs.Measure.{inch};
ghost use Rattle.rules.specs.Sound.{resolutions};

// A part of an inch; none where there are no parts.
pub fn inch_over(n: u32) -> u32
    ensures { (result ≡ inch / n) × (result ≤ 7200) }
{
    7200u32.checked_div(n).unwrap_or(0)
}

// Whether *t#R takes this number.
pub fn is_resolution(n: u32) -> bool
    ensures { result ≡ one_of resolutions n }
{
    matches!(n, 75 | 100 | 150 | 300)
}
