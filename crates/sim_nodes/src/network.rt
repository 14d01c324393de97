//! Messages that are sent and lost, as the layers above ask for them.

ghost use Rattle.std.specs.Prelude.{◌≡◌, ◌≢◌, ◌+◌, ◌∷◌, [], IfOk, OnErr, OnOk, Some, false};
ghost use Rattle.journal.specs.declared.entries.JournalEntry.TheVariants as made;
ghost use Rattle.journal.specs.declared.entries.Shown.TheVariants as shown;
ghost use Rattle.journal.specs.declared.events.Event.TheVariants as events;
ghost use Rattle.node_states.specs.Placed.{IsRequestPlaced};
ghost use Rattle.run_laws.specs.Messages.{IsInFlight};
ghost use Rattle.run_laws.specs.Order.{IsSendDue};
ghost use Rattle.run_laws.specs.OrderEvents.{IsFirstAt};
ghost use Rattle.run_words.specs.Askers.{range_asked};
ghost use Rattle.run_words.specs.Clocks.{reading};
ghost use Rattle.run_words.specs.History.{Made};
ghost use Rattle.run_words.specs.Logs.{log_of};
ghost use Rattle.run_words.specs.Messages.{messages};
ghost use Rattle.sim_nodes.specs.NodesValue.{ended_as, setup, with_items};
ghost use Rattle.cluster_state.specs.Tied.{IsThere};

use crate::nodes::Nodes;
use mr_base::{Memory, MsgId, NodeId, Request, TxnId};

impl Nodes {
    /// A message in flight is lost.
    pub fn lose_message(&mut self, id: MsgId) -> Result<(), Memory>
        requires open { self.old.ended ≡ false }
        requires flying { IsInFlight self.old.history id }
        requires line { IsFirstAt self.old.history (events.Drop id) }
        ensures made { OnOk result (self.new ≡ with_items (Made (made.Dropped id) ∷ []) self.old) }
        ensures err { OnErr result (self.new ≡ ended_as self.old) }
    {
        self.ended = true;
        self.state.lose_message(id)?;
        self.ended = false;
        Ok(())
    }

    /// A gateway sends a request of its transaction to another node that holds a replica of the range, which has begun,
    /// and gives the message's number.
    pub fn send(
        &mut self,
        txn: TxnId,
        from: NodeId,
        to: NodeId,
        request: Request,
    ) -> Result<MsgId, Memory>
        requires open { self.old.ended ≡ false }
        requires there { IsThere self.old.stage from }
        requires due { IsSendDue self.old.history }
        requires placed { IsRequestPlaced (setup self.old) self.old.history from to
            (Some (reading (setup self.old) self.old.history from)) request }
        requires begun { log_of (setup self.old) self.old.history (range_asked request) ≢ [] }
        ensures number { IfOk result (λ id. id.0 ≡ messages (setup self.old) self.old.history + 1) }
        ensures made { IfOk result (λ id. self.new ≡ with_items (Made (made.Sent id from to
            (Some (reading (setup self.old) self.old.history from)) (shown.Request request)) ∷ []) self.old) }
        ensures err { OnErr result (self.new ≡ ended_as self.old) }
    {
        self.ended = true;
        let id = self.state.send(self.alloc, txn, from, to, request)?;
        self.ended = false;
        Ok(id)
    }
}
