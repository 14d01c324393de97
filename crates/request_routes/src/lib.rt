//! Which replica of a range a request goes to next, and where a node believes the leaseholders to be.
#![tactic(auto)]

mod hints;
mod progress;
mod routes;

pub use hints::{Hint, Hints};
pub use progress::Progress;
pub use routes::{Policy, nodes_of_region};
