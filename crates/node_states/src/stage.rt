//! What a cluster begins with.

use descriptors::Catalog;
use mr_base::{ListOf, NodeId, NodeInfo, RangeId, Settings};

/// A node, and what its physical clock shows at first, in milliseconds.
#[derive(Drop)]
pub struct NodePlan {
    pub info: NodeInfo,
    pub clock: u64,
}

/// A range that is made at `begin`: its replicas, those that vote and the others, each in the order of their
/// placement, and whether it is of a GLOBAL table.
#[derive(Drop)]
pub struct RangePlan {
    pub number: RangeId,
    pub voters: ListOf<NodeId>,
    pub others: ListOf<NodeId>,
    pub is_global: bool,
}

/// The settings, the nodes, the catalog with the number of each table's first range, and the ranges. Nodes and ranges
/// stand in the order of their numbers, from 1 on.
#[derive(Drop)]
pub struct Stage {
    pub settings: Settings,
    pub nodes: ListOf<NodePlan>,
    pub catalog: Catalog,
    pub first_ranges: ListOf<RangeId>,
    pub ranges: ListOf<RangePlan>,
}
