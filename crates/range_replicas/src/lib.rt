//! A range with all its replicas: the log on which its voters agree, and the server of each replica at its node.
#![tactic(auto)]

mod making;
mod range;

pub use making::majority_is_more_than_half;
pub use range::ReplicatedRange;
