//! What is kept where nothing has been done yet.

ghost use Rattle.std.specs.Prelude.{◌≡◌, [], IfOk};
ghost use Rattle.node_states.specs.Stage.{IsStage};
ghost use Rattle.cluster_state.specs.Tied.{IsTied, past};

use crate::state::State;
use mr_base::Memory;
use msg_flight::Flight;
use node_states::{NodeState, Stage, first_nodes, running_nodes};
use request_routes::Hints;
use run_ledger::Ledger;
use std::alloc::Global;

impl State {
    /// The nodes of a stage, which have done nothing.
    pub fn new(alloc: Global, stage: Stage) -> Result<State, Memory>
        requires { IsStage stage }
        ensures stage { IfOk result (λ s. s.stage ≡ stage) }
        ensures history { IfOk result (λ s. past s ≡ []) }
        ensures tied { IfOk result (λ s. IsTied s) }
    {
        let nodes = first_nodes(alloc, stage.nodes.as_slice())?;
        let hints = no_hints(alloc, nodes.as_slice())?;
        let running = running_nodes(nodes.as_slice());
        Ok(State {
            stage,
            nodes,
            running,
            ranges: Vec::new(alloc),
            hints,
            flight: Flight::new(alloc),
            attempts: 0,
            sent: 0,
            ledger: Ledger::new(alloc),
        })
    }
}

/// No node has a hint yet.
fn no_hints(alloc: Global, nodes: &[NodeState]) -> Result<Vec<Hints>, Memory> {
    let mut hints = Vec::new(alloc);
    for _node in nodes {
        hints.push(Hints::new(alloc))?;
    }
    Ok(hints)
}
