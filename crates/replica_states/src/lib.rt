//! How the ranges with their replicas stand to what has happened, as definitions and what follows from them; and what
//! a node's start does to its replicas.
#![tactic(auto)]

mod making;
mod restarts;

pub use making::first_range;
pub use restarts::{restart_moved, restart_servers};
