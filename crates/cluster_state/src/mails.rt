//! Messages are sent, and dropped.

ghost use Rattle.std.specs.Prelude.{◌≡◌, ◌≢◌, ◌∷◌, ◌+◌, [], IfOk, OnErr, OnOk, Some};
ghost use Rattle.journal.specs.declared.entries.JournalEntry.TheVariants as made;
ghost use Rattle.journal.specs.declared.entries.Shown.TheVariants as shown;
ghost use Rattle.journal.specs.declared.events.Event.TheVariants as events;
ghost use Rattle.node_states.specs.Placed.{IsRequestPlaced};
ghost use Rattle.run_laws.specs.Messages.{IsInFlight};
ghost use Rattle.run_laws.specs.Order.{IsSendDue};
ghost use Rattle.run_laws.specs.OrderEvents.{IsFirstAt};
ghost use Rattle.run_words.specs.Askers.{range_asked};
ghost use Rattle.run_words.specs.Clocks.{reading};
ghost use Rattle.run_words.specs.History.{Made};
ghost use Rattle.run_words.specs.Logs.{log_of};
ghost use Rattle.run_words.specs.Messages.{messages};
ghost use Rattle.cluster_state.specs.Tied.{HasMade, IsThere, IsTied, IsUnrecorded, past, the_setup};

use crate::state::State;
use journal::JournalEntry;
use mr_base::{Body, Memory, Message, MsgId, NodeId, Request, TxnId};
use node_states::sent_entry;
use std::alloc::Global;

impl State {
    /// A message in flight is lost.
    pub fn lose_message(&mut self, id: MsgId) -> Result<(), Memory>
        requires tied { IsTied self.old }
        requires flying { IsInFlight (past self.old) id }
        requires line { IsFirstAt (past self.old) (events.Drop id) }
        ensures made { OnOk result (HasMade (Made (made.Dropped id) ∷ []) self.old self.new) }
        ensures err { OnErr result (IsUnrecorded self.old self.new) }
    {
        self.ledger.reserve(1)?;
        let _lost = self.flight.take(id);
        self.ledger.write(JournalEntry::Dropped { id });
        Ok(())
    }

    /// A gateway sends a request of its transaction to another node, and gives the message's number.
    pub fn send(
        &mut self,
        alloc: Global,
        txn: TxnId,
        from: NodeId,
        to: NodeId,
        request: Request,
    ) -> Result<MsgId, Memory>
        requires tied { IsTied self.old }
        requires there { IsThere self.old.stage from }
        requires due { IsSendDue (past self.old) }
        requires placed { IsRequestPlaced (the_setup self.old) (past self.old) from to
            (Some (reading (the_setup self.old) (past self.old) from)) request }
        requires begun { log_of (the_setup self.old) (past self.old) (range_asked request) ≢ [] }
        ensures number { IfOk result (λ id. id.0 ≡ messages (the_setup self.old) (past self.old) + 1) }
        ensures made { IfOk result (λ id. HasMade (Made (made.Sent id from to
            (Some (reading (the_setup self.old) (past self.old) from)) (shown.Request request)) ∷ []) self.old self.new) }
        ensures err { OnErr result (IsUnrecorded self.old self.new) }
    {
        let number = self.sent.checked_add(1).ok_or(Memory)?;
        let gateway = &self.nodes[(from.0 - 1) as usize];
        let message = Message {
            id: MsgId(number),
            from,
            to,
            clock: Some(gateway.clock.reading()),
            txn,
            boot: gateway.boot,
            body: Body::Request(request),
        };
        let entry = sent_entry(alloc, &message)?;
        self.ledger.reserve(1)?;
        self.flight.send(message)?;
        self.sent = number;
        self.ledger.write(entry);
        Ok(MsgId(number))
    }
}
