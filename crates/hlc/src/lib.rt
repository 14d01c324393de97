//! The hybrid logical clock of a node.
#![tactic(auto)]

mod clock;

pub use clock::Clock;
