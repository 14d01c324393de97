//! Transactions begin, and are tried again.

ghost use Rattle.std.specs.Prelude.{◌≡◌, ◌+◌, ◌∷◌, [], IfOk, OnErr, Some};
ghost use Rattle.journal.specs.declared.entries.JournalEntry.TheVariants as made;
ghost use Rattle.run_laws.specs.Order.{IsBeginDue};
ghost use Rattle.run_laws.specs.OrderEvents.{IsInStep};
ghost use Rattle.run_words.specs.Askers.{own_txn};
ghost use Rattle.run_words.specs.History.{Made};
ghost use Rattle.run_words.specs.Transactions.{attempts};
ghost use Rattle.cluster_state.specs.Tied.{HasMade, IsThere, IsTied, IsUnrecorded, past, the_setup};

use crate::state::State;
use journal::JournalEntry;
use mr_base::{AttemptId, Memory, NodeId, Ts, TxnId};
use node_states::{limit_at, next_reading, start_at};
use range_log::RetryCause;

/// How a transaction has begun: its first attempt, its start, and the uncertainty limit (a wall in milliseconds) where it
/// reads the present.
#[derive(Clone, Copy)]
pub struct Begun {
    pub attempt: AttemptId,
    pub start: Ts,
    pub limit: Option<u64>,
}

impl State {
    /// A transaction begins at its gateway, which runs.
    pub fn begin_txn(&mut self, txn: TxnId, gateway: NodeId) -> Result<Begun, Memory>
        requires tied { IsTied self.old }
        requires there { IsThere self.old.stage gateway }
        requires due { IsBeginDue (the_setup self.old) (past self.old) txn gateway }
        ensures made { IfOk result (λ b. HasMade (Made (made.Begin txn b.attempt gateway b.start b.limit) ∷ []) self.old self.new) }
        ensures err { OnErr result (IsUnrecorded self.old self.new) }
    {
        let attempt = self.next_attempt()?;
        let place = (gateway.0 - 1) as usize;
        let reading = next_reading(&mut self.nodes[place])?;
        let start = start_at(reading, attempt);
        let limit = limit_at(self.ledger.event(), start, &self.stage.settings)?;
        self.ledger.reserve(1)?;
        self.attempts = attempt.0;
        self.ledger.write(JournalEntry::Begin {
            txn,
            attempt,
            gateway,
            start,
            limit,
        });
        Ok(Begun {
            attempt,
            start,
            limit,
        })
    }

    /// A transaction is tried again, by a new attempt.
    pub fn retry(&mut self, txn: TxnId, cause: RetryCause) -> Result<AttemptId, Memory>
        requires tied { IsTied self.old }
        requires stepping { IsInStep (past self.old) }
        requires own { own_txn (past self.old) ≡ Some txn }
        ensures number { IfOk result (λ a. a.0 ≡ attempts (the_setup self.old) (past self.old) + 1) }
        ensures made { IfOk result (λ a. HasMade (Made (made.Retry txn a cause) ∷ []) self.old self.new) }
        ensures err { OnErr result (IsUnrecorded self.old self.new) }
    {
        let attempt = self.next_attempt()?;
        self.ledger.reserve(1)?;
        self.attempts = attempt.0;
        self.ledger.write(JournalEntry::Retry {
            txn,
            attempt,
            cause,
        });
        Ok(attempt)
    }

    /// The number of the next attempt.
    fn next_attempt(&self) -> Result<AttemptId, Memory>
        ensures { IfOk result (λ a. a.0 ≡ self.now.attempts + 1) }
    {
        match self.attempts.checked_add(1) {
            Some(number) => Ok(AttemptId(number)),
            None => Err(Memory),
        }
    }
}
