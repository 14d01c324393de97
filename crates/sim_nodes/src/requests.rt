//! Requests to the own node, as the layers above ask for them.

ghost use Rattle.std.specs.Prelude.{◌≡◌, ◌≢◌, [], IfOk, OnErr, Some, false, true};
ghost use Rattle.run_laws.specs.OrderEvents.{IsInStep};
ghost use Rattle.run_laws.specs.Places.{stepping};
ghost use Rattle.run_words.specs.Askers.{range_asked};
ghost use Rattle.run_words.specs.History.{History};
ghost use Rattle.run_words.specs.Logs.{log_of};
ghost use Rattle.run_words.specs.Nodes.{is_running};
ghost use Rattle.run_words.specs.Ranges.{HoldsReplica};
ghost use Rattle.cluster_state.specs.Handled.{HasHandled};
ghost use Rattle.sim_nodes.specs.NodesValue.{ended_as, setup, with_items};

use crate::nodes::Nodes;
use mr_base::{Memory, NodeId, Reply, Request};

impl Nodes {
    /// A node that holds a replica of the range, which has begun, handles a request in a step of its own, and gives
    /// the reply, which all requests have but resolves.
    pub fn handle_here(&mut self, node: NodeId, q: &Request) -> Result<Option<Reply>, Memory>
        requires open { self.old.ended ≡ false }
        requires placed { IsInStep self.old.history }
        requires node { stepping self.old.history ≡ Some node }
        requires running { is_running (setup self.old) self.old.history node ≡ true }
        requires replica { HoldsReplica (setup self.old) self.old.history node (range_asked q.now) }
        requires begun { log_of (setup self.old) self.old.history (range_asked q.now) ≢ [] }
        ensures handled { IfOk result (λ reply. (items : History)
            × HasHandled (setup self.old) self.old.history node q.now reply items × (self.new ≡ with_items items self.old)) }
        ensures err { OnErr result (self.new ≡ ended_as self.old) }
    {
        self.ended = true;
        let reply = self.state.handle_here(self.alloc, node, q)?;
        self.ended = false;
        Ok(reply)
    }
}
