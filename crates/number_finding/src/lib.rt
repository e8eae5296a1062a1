// The paper's number for each finding and each refusal, and whether there is a finding at all.
#![tactic(auto)]

ghost use Rattle.std.specs.Prelude.{◌≡◌};
ghost use Rattle.rules.specs.Findings.{finding_number, is_clean, refusal_number};

use rules::{Finding, Refusal};

// A finding's number, 0 for none.
pub fn finding_number(f: Finding) -> u32
    ensures { result ≡ finding_number f }
{
    f as u32
}

// Whether there is no finding.
pub fn is_clean(f: Finding) -> bool
    ensures { result ≡ is_clean f }
{
    f == Finding::Nothing
}

// A refusal's number.
pub fn refusal_number(why: Refusal) -> u32
    ensures { result ≡ refusal_number why }
{
    why as u32
}
