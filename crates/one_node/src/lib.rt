//! The simulated cluster: one node, one range, one table.
#![tactic(auto)]

mod clock;
mod cluster;
mod courses;
mod laying;
mod range;
mod steps;
mod transaction;

pub use cluster::Cluster;
pub use laying::{has_passed, laid_at};
