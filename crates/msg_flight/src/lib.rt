//! The messages between nodes that are on their way.
#![tactic(auto)]

mod flight;

pub use flight::Flight;
