//! What is kept of the lines of a scenario that were read.

use crate::seen_nodes::SeenNodes;
use crate::txn_names::TxnNames;
use mr_base::{Bytes, ListOf};

/// The lines that were read so far, as far as the next one depends on them.
#[derive(Drop)]
pub(crate) struct Seen {
    /// Whether the scenario is read for its ranges alone.
    pub zones_only: bool,
    /// How many lines weren't skipped.
    pub counted: u32,
    /// Whether a statement stood before `begin`.
    pub stated: bool,
    /// Whether `begin` was read.
    pub begun: bool,
    /// The regions of the nodes, in the order in which they came.
    pub regions: ListOf<Bytes>,
    pub nodes: SeenNodes,
    /// The names of the transactions.
    pub names: TxnNames,
}
