//! What licenses each entry of a range's log, given the entries before it, as definitions.
#![tactic(auto)]
