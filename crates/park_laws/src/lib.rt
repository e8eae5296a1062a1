// Laws alone, no code: a parked text reads as the state it was written from, each such state has one text, and no text is longer than a room that can be lent.
#![tactic(auto)]
