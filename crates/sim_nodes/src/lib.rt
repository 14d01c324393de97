//! The nodes of a simulated cluster: their clocks, the ranges with their replicas, the messages in flight, and the
//! journal of what they do.
#![tactic(auto)]

mod acts;
mod ended_txns;
mod network;
mod nodes;
mod readers;
mod requests;
mod views;

pub use cluster_state::Begun;
pub use nodes::Nodes;
