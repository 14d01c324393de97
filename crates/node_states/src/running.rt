//! Which nodes run, as a set.

ghost use Rattle.std.specs.Prelude.{◌≡◌, ◌≤◌, ◌↔◌, ◌⊎◌, All, false, length, map, true};
ghost use Rattle.mr_base.specs.Nodes.{IsMember, IsNode};
ghost use Rattle.mr_base.specs.declared.ids.NodeId.{NodeId};
ghost use Rattle.std.specs.List.{list_any};
ghost use Rattle.node_states.specs.Moves.{can_not_move, moved};
ghost use Rattle.node_states.specs.Stage.{AreNumbered};
ghost use Rattle.node_states.specs.Ties.{IsAmong};

use crate::moves::{Move, move_nodes};
use crate::states::NodeState;
use mr_base::{NodeSet, nodes_of_the_empty_set};

/// The nodes that run.
pub fn running_nodes(nodes: &[NodeState]) -> NodeSet
    requires numbered { AreNumbered 0 (map (λ node. node.id.0) nodes.now) }
    requires few { length nodes.now ≤ 64 }
    ensures { All (IsAmong result) nodes.now }
{
    nodes_of_the_empty_set();
    let mut running = NodeSet::EMPTY;
    for node in nodes {
        running = with_running(running, node);
    }
    running
}

/// A set, and a node where that runs.
fn with_running(set: NodeSet, node: &NodeState) -> NodeSet
    requires { IsNode node.now.id }
    ensures { (m : NodeId) → IsNode m → (IsMember result m ↔ (((m ≡ node.now.id) × (node.now.runs ≡ true)) ⊎ IsMember set m)) }
{
    if node.runs {
        return set.with(node.id);
    }
    set
}

/// Moves all nodes, and gives those that run then.
pub fn move_all(nodes: &mut [NodeState], moving: Move) -> NodeSet
    requires can { list_any (can_not_move moving) nodes.old ≡ false }
    requires numbered { AreNumbered 0 (map (λ node. node.id.0) nodes.old) }
    requires few { length nodes.old ≤ 64 }
    ensures nodes { nodes.new ≡ map (moved moving) nodes.old }
    ensures running { All (IsAmong result) nodes.new }
{
    move_nodes(nodes, moving);
    running_nodes(nodes)
}
