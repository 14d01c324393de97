//! Sets of nodes, and what a scenario says of a node.

ghost use Rattle.std.specs.Prelude.{◌≡◌, ◌↔◌, ◌≤◌, ◌⊎◌, IsTrue, IfOk};
ghost use Rattle.mr_base.specs.Nodes.{IsMember, IsNode, nodes_in};
ghost use Rattle.mr_base.specs.declared.ids.NodeId.{NodeId};

use crate::byte_string::Bytes;
use crate::ids::NodeId;
use crate::memory::{CloneIn, Memory};
use std::alloc::Global;

/// A set of nodes from 1 to 64: node k is bit k - 1.
#[derive(Clone, Copy, PartialEq, Eq)]
pub struct NodeSet(pub u64);

/// A node with the region and the zone in which it stands.
#[derive(Drop)]
pub struct NodeInfo {
    pub id: NodeId,
    pub region: Bytes,
    pub zone: Bytes,
}

impl NodeSet {
    /// The set without nodes.
    pub const EMPTY: NodeSet = NodeSet(0);

    /// Whether the set has the node.
    pub fn has(self, n: NodeId) -> bool
        requires { IsNode n }
        ensures { IsTrue result ↔ IsMember self n }
    {
        self.0 & 1 << (n.0 - 1) != 0
    }

    /// The set and the node.
    pub fn with(self, n: NodeId) -> NodeSet
        requires { IsNode n }
        ensures { (m : NodeId) → IsNode m → (IsMember result m ↔ ((m ≡ n) ⊎ IsMember self m)) }
    {
        NodeSet(self.0 | 1 << (n.0 - 1))
    }

    /// How many nodes the set has.
    pub fn count(self) -> u32
        ensures { result ≡ nodes_in self }
    {
        self.0.count_ones()
    }
}

/// The empty set has no node.
pub fn nodes_of_the_empty_set()
    ensures none { (n : NodeId) → ¬ IsMember NodeSet.EMPTY n }
    ensures count { nodes_in NodeSet.EMPTY ≡ 0 }
{}

impl CloneIn for NodeInfo {
    fn clone_in(&self, alloc: Global) -> Result<NodeInfo, Memory> {
        Ok(NodeInfo {
            id: self.id,
            region: self.region.clone_in(alloc)?,
            zone: self.zone.clone_in(alloc)?,
        })
    }
}
