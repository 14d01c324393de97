//! Requests to the own node.

ghost use Rattle.std.specs.Prelude.{◌≡◌, ◌≢◌, [], IfOk, OnErr, Some, true};
ghost use Rattle.run_laws.specs.OrderEvents.{IsInStep};
ghost use Rattle.run_laws.specs.Places.{stepping};
ghost use Rattle.run_words.specs.Askers.{range_asked};
ghost use Rattle.run_words.specs.History.{History};
ghost use Rattle.run_words.specs.Logs.{log_of};
ghost use Rattle.run_words.specs.Nodes.{is_running};
ghost use Rattle.run_words.specs.Ranges.{HoldsReplica};
ghost use Rattle.cluster_state.specs.Handled.{HasHandled};
ghost use Rattle.cluster_state.specs.Tied.{HasMade, IsTied, IsUnrecorded, past, the_setup};

use crate::serving::answer_at;
use crate::state::State;
use mr_base::{Memory, NodeId, Reply, Request};
use node_states::range_asked;
use range_replicas::majority_is_more_than_half;
use std::alloc::Global;

impl State {
    /// A node handles a request in a step of its own, and gives the reply, if there is one.
    pub fn handle_here(
        &mut self,
        alloc: Global,
        node: NodeId,
        q: &Request,
    ) -> Result<Option<Reply>, Memory>
        requires tied { IsTied self.old }
        requires placed { IsInStep (past self.old) }
        requires node { stepping (past self.old) ≡ Some node }
        requires running { is_running (the_setup self.old) (past self.old) node ≡ true }
        requires replica { HoldsReplica (the_setup self.old) (past self.old) node (range_asked q.now) }
        requires begun { log_of (the_setup self.old) (past self.old) (range_asked q.now) ≢ [] }
        ensures handled { IfOk result (λ reply. (items : History)
            × HasHandled (the_setup self.old) (past self.old) node q.now reply items × HasMade items self.old self.new) }
        ensures err { OnErr result (IsUnrecorded self.old self.new) }
    {
        majority_is_more_than_half();
        let number = range_asked(q);
        let clock = self.nodes[(node.0 - 1) as usize].clock.reading();
        let answered = answer_at(
            alloc,
            &mut self.ranges[(number.0 - 1) as usize],
            node,
            clock,
            &self.stage.settings,
            self.running,
            q,
        )?;
        self.ledger.write_all(answered.entries)?;
        Ok(answered.reply)
    }
}
