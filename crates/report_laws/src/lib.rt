// Laws alone, no code: what successive runs print is the report, and how long a report can be.
#![tactic(auto)]
