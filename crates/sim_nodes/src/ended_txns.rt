//! The ends of transactions, as the layers above ask for them.

ghost use Rattle.std.specs.Prelude.{◌≡◌, ◌∷◌, [], OnErr, OnOk, false};
ghost use Rattle.journal.specs.declared.entries.JournalEntry.TheVariants as made;
ghost use Rattle.run_laws.specs.Order.{IsAnswerDue, IsLossDue, IsRefusalDue};
ghost use Rattle.run_laws.specs.Waited.{HasWaited};
ghost use Rattle.run_words.specs.History.{Made};
ghost use Rattle.sim_nodes.specs.NodesValue.{ended_as, setup, with_items};

use crate::nodes::Nodes;
use journal::{StatementResult, Why};
use mr_base::{ListOf, Memory, SqlState, Ts, TxnId};

impl Nodes {
    /// A transaction is refused, in its own step or where its wait has ended.
    pub fn refuse(&mut self, txn: TxnId, why: Why) -> Result<(), Memory>
        requires open { self.old.ended ≡ false }
        requires due { IsRefusalDue self.old.history txn why }
        ensures made { OnOk result (self.new ≡ with_items (Made (made.Refuse txn why) ∷ []) self.old) }
        ensures err { OnErr result (self.new ≡ ended_as self.old) }
    {
        self.ended = true;
        self.state.refuse(txn, why)?;
        self.ended = false;
        Ok(())
    }

    /// A transaction is acknowledged at a timestamp, once its gateway's clock has come to that.
    pub fn ack(
        &mut self,
        txn: TxnId,
        ts: Ts,
        results: ListOf<StatementResult>,
    ) -> Result<(), Memory>
        requires open { self.old.ended ≡ false }
        requires due { IsAnswerDue self.old.history txn }
        requires waited { HasWaited (setup self.old) self.old.history txn ts }
        ensures made { OnOk result (self.new ≡ with_items (Made (made.Ack txn ts results) ∷ []) self.old) }
        ensures err { OnErr result (self.new ≡ ended_as self.old) }
    {
        self.ended = true;
        self.state.ack(txn, ts, results)?;
        self.ended = false;
        Ok(())
    }

    /// A transaction ends by a fault of its statements at a timestamp, once its gateway's clock has come to that.
    pub fn fault(&mut self, txn: TxnId, ts: Ts, state: SqlState) -> Result<(), Memory>
        requires open { self.old.ended ≡ false }
        requires due { IsAnswerDue self.old.history txn }
        requires waited { HasWaited (setup self.old) self.old.history txn ts }
        ensures made { OnOk result (self.new ≡ with_items (Made (made.Fault txn ts state) ∷ []) self.old) }
        ensures err { OnErr result (self.new ≡ ended_as self.old) }
    {
        self.ended = true;
        self.state.fault(txn, ts, state)?;
        self.ended = false;
        Ok(())
    }

    /// A transaction is lost where its gateway stops.
    pub fn lose(&mut self, txn: TxnId) -> Result<(), Memory>
        requires open { self.old.ended ≡ false }
        requires due { IsLossDue self.old.history txn }
        ensures made { OnOk result (self.new ≡ with_items (Made (made.Lost txn) ∷ []) self.old) }
        ensures err { OnErr result (self.new ≡ ended_as self.old) }
    {
        self.ended = true;
        self.state.lose(txn)?;
        self.ended = false;
        Ok(())
    }
}
