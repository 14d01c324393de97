//! Transactions are answered, refused or lost.

ghost use Rattle.std.specs.Prelude.{◌≡◌, ◌∷◌, [], OnErr, OnOk};
ghost use Rattle.journal.specs.declared.entries.JournalEntry.TheVariants as made;
ghost use Rattle.run_laws.specs.Order.{IsAnswerDue, IsLossDue, IsRefusalDue};
ghost use Rattle.run_laws.specs.Waited.{HasWaited};
ghost use Rattle.run_words.specs.History.{Made};
ghost use Rattle.cluster_state.specs.Tied.{HasMade, IsTied, IsUnrecorded, past, the_setup};

use crate::state::State;
use journal::{JournalEntry, StatementResult, Why};
use mr_base::{ListOf, Memory, SqlState, Ts, TxnId};

impl State {
    /// A transaction is refused, in its own step or where its wait has ended.
    pub fn refuse(&mut self, txn: TxnId, why: Why) -> Result<(), Memory>
        requires tied { IsTied self.old }
        requires due { IsRefusalDue (past self.old) txn why }
        ensures made { OnOk result (HasMade (Made (made.Refuse txn why) ∷ []) self.old self.new) }
        ensures err { OnErr result (IsUnrecorded self.old self.new) }
    {
        self.ledger.reserve(1)?;
        self.ledger.write(JournalEntry::Refuse { txn, why });
        Ok(())
    }

    /// A transaction is acknowledged at a timestamp, once its gateway's clock has come to that.
    pub fn ack(
        &mut self,
        txn: TxnId,
        ts: Ts,
        results: ListOf<StatementResult>,
    ) -> Result<(), Memory>
        requires tied { IsTied self.old }
        requires due { IsAnswerDue (past self.old) txn }
        requires waited { HasWaited (the_setup self.old) (past self.old) txn ts }
        ensures made { OnOk result (HasMade (Made (made.Ack txn ts results) ∷ []) self.old self.new) }
        ensures err { OnErr result (IsUnrecorded self.old self.new) }
    {
        self.ledger.reserve(1)?;
        self.ledger.write(JournalEntry::Ack { txn, ts, results });
        Ok(())
    }

    /// A transaction ends by a fault of its statements at a timestamp, once its gateway's clock has come to that.
    pub fn fault(&mut self, txn: TxnId, ts: Ts, state: SqlState) -> Result<(), Memory>
        requires tied { IsTied self.old }
        requires due { IsAnswerDue (past self.old) txn }
        requires waited { HasWaited (the_setup self.old) (past self.old) txn ts }
        ensures made { OnOk result (HasMade (Made (made.Fault txn ts state) ∷ []) self.old self.new) }
        ensures err { OnErr result (IsUnrecorded self.old self.new) }
    {
        self.ledger.reserve(1)?;
        self.ledger.write(JournalEntry::Fault { txn, ts, state });
        Ok(())
    }

    /// A transaction is lost where its gateway stops.
    pub fn lose(&mut self, txn: TxnId) -> Result<(), Memory>
        requires tied { IsTied self.old }
        requires due { IsLossDue (past self.old) txn }
        ensures made { OnOk result (HasMade (Made (made.Lost txn) ∷ []) self.old self.new) }
        ensures err { OnErr result (IsUnrecorded self.old self.new) }
    {
        self.ledger.reserve(1)?;
        self.ledger.write(JournalEntry::Lost { txn });
        Ok(())
    }
}
