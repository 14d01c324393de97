//! What is kept of all nodes.

use mr_base::NodeSet;
use msg_flight::Flight;
use node_states::{NodeState, Stage};
use range_replicas::ReplicatedRange;
use request_routes::Hints;
use run_ledger::Ledger;

/// The nodes, those of them that run, the ranges made so far, each node's hints, the messages in flight, how many
/// attempts were begun and messages sent, and what was done, on this stage.
#[derive(Drop)]
pub struct State {
    pub stage: Stage,
    pub nodes: Vec<NodeState>,
    pub running: NodeSet,
    pub ranges: Vec<ReplicatedRange>,
    pub hints: Vec<Hints>,
    pub flight: Flight,
    pub attempts: u32,
    pub sent: u64,
    pub ledger: Ledger,
}
