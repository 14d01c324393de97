//! What is kept of a node.

use hlc::Clock;
use mr_base::NodeId;

/// A node: its clock, at which boot it is, from 1 on, and whether it runs.
#[derive(Drop)]
pub struct NodeState {
    pub id: NodeId,
    pub clock: Clock,
    pub boot: u32,
    pub runs: bool,
}
