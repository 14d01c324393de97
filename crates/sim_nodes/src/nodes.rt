//! The nodes of a cluster, as the layers above see them.

ghost use Rattle.std.specs.Prelude.{◌≡◌, ◌∷◌, [], OnErr, OnOk, false};
ghost use Rattle.journal.specs.declared.entries.JournalEntry.TheVariants as made;
ghost use Rattle.run_laws.specs.OrderEvents.{IsInStep};
ghost use Rattle.run_laws.specs.Places.{IsInOwnStep};
ghost use Rattle.run_words.specs.History.{Made};
ghost use Rattle.sim_nodes.specs.NodesValue.{ended_as, setup, with_items};
ghost use Rattle.node_states.specs.Placed.{KeepsLaws};

use cluster_state::State;
use mr_base::{AttemptId, Fate, Memory};
use std::alloc::Global;
use std::marker::Model;

/// The nodes of a cluster, with the ranges whose replicas they hold, the messages in flight, and the journal. After a
/// call has failed for want of memory the entries made so far stand, and no call follows.
#[derive(Drop)]
pub struct Nodes {
    pub alloc: Global,
    pub state: State,
    pub ended: bool,
}

impl Model for Nodes {
    ghost use Rattle.sim_nodes.specs.NodesValue.{IsKept, NodesValue};

    ghost Value = { NodesValue };

    ghost view = { λ n. record { stage = n.state.stage; history = n.state.ledger.history; ended = n.ended } };

    ghost invariant = { λ n. IsKept n.state n.ended };
}

impl Nodes {
    /// What has happened keeps these parts of the laws.
    pub fn keeps_laws(&self)
        ensures { KeepsLaws (setup self.now) self.now.history }
    {
        let _ended = self.ended;
    }

    /// An attempt learns the fate of another, in its transaction's own step.
    pub fn learn(&mut self, attempt: AttemptId, other: AttemptId, fate: Fate) -> Result<(), Memory>
        requires open { self.old.ended ≡ false }
        requires stepping { IsInStep self.old.history }
        requires own { IsInOwnStep self.old.history attempt }
        ensures made { OnOk result (self.new ≡ with_items (Made (made.Fated attempt other fate) ∷ []) self.old) }
        ensures err { OnErr result (self.new ≡ ended_as self.old) }
    {
        self.ended = true;
        self.state.learn(attempt, other, fate)?;
        self.ended = false;
        Ok(())
    }
}
