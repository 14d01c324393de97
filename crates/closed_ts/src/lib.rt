//! When a replica may serve a read, which timestamps a range closes, and which replica is asked next.
#![tactic(auto)]

mod routing;
mod serving;
mod targets;

pub use routing::next_target;
pub use serving::{by_closure, by_lease};
pub use targets::target;
