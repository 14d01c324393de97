//! What is read off the history of a cluster's run, as definitions.
#![tactic(auto)]

mod laws;

pub use laws::{puts_are_put, puts_stand_in_logs, serves_are_served};
