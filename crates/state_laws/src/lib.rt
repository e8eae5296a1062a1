// Laws alone, no code: a state kept as bytes is read back as it was, and bytes that are no state are refused.
#![tactic(auto)]
