//! The nodes as they are at first.

ghost use Rattle.std.specs.Prelude.{◌≡◌, ◌++◌, ◌∷◌, [], IfOk, OnOk, map};
ghost use Rattle.node_states.specs.Moves.{first_node};

use crate::stage::NodePlan;
use crate::states::NodeState;
use hlc::Clock;
use mr_base::Memory;
use std::alloc::Global;

/// The nodes of a stage, which all run, at their first boot.
pub fn first_nodes(alloc: Global, plans: &[NodePlan]) -> Result<Vec<NodeState>, Memory>
    ensures { IfOk result (λ nodes. nodes.items ≡ map first_node plans.now) }
{
    let mut nodes = Vec::new(alloc);
    for plan in plans {
        nodes.push(first_node(plan))?;
    }
    Ok(nodes)
}

fn first_node(plan: &NodePlan) -> NodeState
    ensures { result ≡ first_node plan.now }
{
    NodeState {
        id: plan.info.id,
        clock: Clock::new(plan.clock),
        boot: 1,
        runs: true,
    }
}
