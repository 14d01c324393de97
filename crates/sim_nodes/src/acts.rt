//! Lines and beginnings, as the layers above ask for them.

ghost use Rattle.std.specs.Prelude.{◌≡◌, ◌≢◌, ℕ, ◌+◌, ◌∷◌, [], IfOk, OnErr, OnOk, Some, false, length, min, true};
ghost use Rattle.journal.specs.declared.entries.JournalEntry.TheVariants as made;
ghost use Rattle.journal.specs.declared.events.Event.TheVariants as events;
ghost use Rattle.node_states.specs.Stage.{IsStage};
ghost use Rattle.run_laws.specs.Order.{IsBeginDue};
ghost use Rattle.run_laws.specs.OrderEvents.{IsFirstAt, IsInStep, IsLineDue, NamesNode};
ghost use Rattle.run_words.specs.Askers.{own_txn};
ghost use Rattle.run_words.specs.History.{History, Made, Ran, Ticked};
ghost use Rattle.run_words.specs.Logs.{applied, log_of};
ghost use Rattle.run_words.specs.Nodes.{is_running};
ghost use Rattle.run_words.specs.Ranges.{HoldsReplica};
ghost use Rattle.run_words.specs.Steps.{event_of, has_ticked};
ghost use Rattle.run_words.specs.Transactions.{attempts};
ghost use Rattle.cluster_state.specs.Applying.{Applies};
ghost use Rattle.sim_nodes.specs.Begun.{HasBegun};
ghost use Rattle.cluster_state.specs.LeaseMoves.{MovesLease};
ghost use Rattle.sim_nodes.specs.NodesValue.{ended_as, setup, with_items};
ghost use Rattle.cluster_state.specs.Tied.{IsThere};

use crate::nodes::Nodes;
use cluster_state::{Begun, State};
use journal::Event;
use mr_base::{AttemptId, Memory, NodeId, RangeId, TxnId};
use node_states::Stage;
use range_log::RetryCause;
use std::alloc::Global;

impl Nodes {
    /// The nodes of a stage, which have done nothing.
    pub fn new(alloc: Global, stage: Stage) -> Result<Nodes, Memory>
        requires { IsStage stage }
        ensures { IfOk result (λ n. n ≡ record { stage = stage; history = []; ended = false }) }
    {
        let state = State::new(alloc, stage)?;
        Ok(Nodes {
            alloc,
            state,
            ended: false,
        })
    }

    /// Runs a line of the scenario: clocks tick, a node stops or starts. What else it asks for is done by the calls
    /// behind it.
    pub fn line(&mut self, number: u32, event: Event) -> Result<(), Memory>
        requires open { self.old.ended ≡ false }
        requires due { IsLineDue (event_of self.old.history) (has_ticked self.old.history) }
        requires names { NamesNode (setup self.old) event }
        ensures made { OnOk result (self.new ≡ with_items (Ran number event ∷ []) self.old) }
        ensures err { OnErr result (self.new ≡ ended_as self.old) }
    {
        self.ended = true;
        self.state.line(number, event)?;
        self.ended = false;
        Ok(())
    }

    /// A replica of a node that runs applies up to so many more entries, at the line that says so.
    pub fn apply(&mut self, node: NodeId, range: RangeId, more: u64) -> Result<(), Memory>
        requires open { self.old.ended ≡ false }
        requires line { IsFirstAt self.old.history (events.Apply node range more) }
        requires running { is_running (setup self.old) self.old.history node ≡ true }
        requires replica { HoldsReplica (setup self.old) self.old.history node range }
        requires made { log_of (setup self.old) self.old.history range ≢ [] }
        ensures made { OnOk result ((items : History) × Applies node range
            (min (applied (setup self.old) self.old.history node range + more)
            (length (log_of (setup self.old) self.old.history range)))
            (setup self.old) self.old.history items × (self.new ≡ with_items items self.old)) }
        ensures err { OnErr result (self.new ≡ ended_as self.old) }
    {
        self.ended = true;
        self.state.apply(node, range, more)?;
        self.ended = false;
        Ok(())
    }

    /// Makes the ranges behind the `begin` line, in the order of their numbers: each begins with its first lease.
    pub fn begin(&mut self) -> Result<(), Memory>
        requires open { self.old.ended ≡ false }
        requires first { (line : ℕ) × (self.old.history ≡ Ran line events.Begin ∷ []) }
        ensures begun { OnOk result (HasBegun self.old self.new) }
        ensures stage { self.new.stage ≡ self.old.stage }
        ensures err { OnErr result (self.new.ended ≡ true) }
    {
        self.ended = true;
        self.state.begin(self.alloc)?;
        self.ended = false;
        Ok(())
    }

    /// A node that runs takes the lease of a range where that is expired, at the line that says so; else it is said why
    /// not.
    pub fn acquire(&mut self, range: RangeId, node: NodeId) -> Result<(), Memory>
        requires open { self.old.ended ≡ false }
        requires there { IsThere self.old.stage node }
        requires line { IsFirstAt self.old.history (events.LeaseAcquire range node) }
        requires running { is_running (setup self.old) self.old.history node ≡ true }
        requires made { log_of (setup self.old) self.old.history range ≢ [] }
        ensures made { OnOk result ((items : History) × MovesLease range items × (self.new ≡ with_items items self.old)) }
        ensures err { OnErr result (self.new ≡ ended_as self.old) }
    {
        self.ended = true;
        self.state.acquire(range, node)?;
        self.ended = false;
        Ok(())
    }

    /// The holder of the lease of a range, where it runs, hands it on to a node at the line that says so; else it is said
    /// why not.
    pub fn transfer(&mut self, range: RangeId, to: NodeId) -> Result<(), Memory>
        requires open { self.old.ended ≡ false }
        requires there { IsThere self.old.stage to }
        requires line { IsFirstAt self.old.history (events.LeaseTransfer range to) }
        requires made { log_of (setup self.old) self.old.history range ≢ [] }
        ensures made { OnOk result ((items : History) × MovesLease range items × (self.new ≡ with_items items self.old)) }
        ensures err { OnErr result (self.new ≡ ended_as self.old) }
    {
        self.ended = true;
        self.state.transfer(range, to)?;
        self.ended = false;
        Ok(())
    }

    /// The holder of the lease of a range, where it runs, extends it at the line that says so; else it is said why not.
    pub fn extend(&mut self, range: RangeId) -> Result<(), Memory>
        requires open { self.old.ended ≡ false }
        requires line { IsFirstAt self.old.history (events.LeaseExtend range) }
        requires made { log_of (setup self.old) self.old.history range ≢ [] }
        ensures made { OnOk result ((items : History) × MovesLease range items × (self.new ≡ with_items items self.old)) }
        ensures err { OnErr result (self.new ≡ ended_as self.old) }
    {
        self.ended = true;
        self.state.extend(range)?;
        self.ended = false;
        Ok(())
    }

    /// Ticks all clocks inside a `settle` line, once.
    pub fn ticked(&mut self, ms: u64) -> Result<(), Memory>
        requires open { self.old.ended ≡ false }
        requires line { event_of self.old.history ≡ Some (events.Settle ms) }
        requires once { has_ticked self.old.history ≡ false }
        ensures made { OnOk result (self.new ≡ with_items (Ticked ms ∷ []) self.old) }
        ensures err { OnErr result (self.new ≡ ended_as self.old) }
    {
        self.ended = true;
        self.state.ticked(ms)?;
        self.ended = false;
        Ok(())
    }

    /// A transaction begins at its gateway, which runs.
    pub fn begin_txn(&mut self, txn: TxnId, gateway: NodeId) -> Result<Begun, Memory>
        requires open { self.old.ended ≡ false }
        requires there { IsThere self.old.stage gateway }
        requires due { IsBeginDue (setup self.old) self.old.history txn gateway }
        ensures made { IfOk result (λ b. self.new ≡ with_items (Made (made.Begin txn b.attempt gateway b.start b.limit) ∷ []) self.old) }
        ensures err { OnErr result (self.new ≡ ended_as self.old) }
    {
        self.ended = true;
        let begun = self.state.begin_txn(txn, gateway)?;
        self.ended = false;
        Ok(begun)
    }

    /// A transaction is tried again, by a new attempt.
    pub fn retry(&mut self, txn: TxnId, cause: RetryCause) -> Result<AttemptId, Memory>
        requires open { self.old.ended ≡ false }
        requires stepping { IsInStep self.old.history }
        requires own { own_txn self.old.history ≡ Some txn }
        ensures number { IfOk result (λ a. a.0 ≡ attempts (setup self.old) self.old.history + 1) }
        ensures made { IfOk result (λ a. self.new ≡ with_items (Made (made.Retry txn a cause) ∷ []) self.old) }
        ensures err { OnErr result (self.new ≡ ended_as self.old) }
    {
        self.ended = true;
        let attempt = self.state.retry(txn, cause)?;
        self.ended = false;
        Ok(attempt)
    }
}
