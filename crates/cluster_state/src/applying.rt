//! Replicas apply entries of their logs.

ghost use Rattle.std.specs.Prelude.{◌≡◌, ◌≢◌, ◌<◌, ◌+◌, ◌∷◌, [], OnErr, OnOk, length, min, true};
ghost use Rattle.journal.specs.declared.entries.JournalEntry.TheVariants as made;
ghost use Rattle.journal.specs.declared.events.Event.TheVariants as events;
ghost use Rattle.range_replicas.specs.RangeValue.{server_at};
ghost use Rattle.run_laws.specs.OrderEvents.{IsApplied, IsFirstAt};
ghost use Rattle.run_words.specs.History.{History, Made};
ghost use Rattle.run_words.specs.Logs.{applied, log_of};
ghost use Rattle.run_words.specs.Nodes.{is_running};
ghost use Rattle.run_words.specs.Ranges.{HoldsReplica};
ghost use Rattle.cluster_state.specs.Applying.{Applies};
ghost use Rattle.cluster_state.specs.RangeAt.{range_at};
ghost use Rattle.cluster_state.specs.Tied.{HasMade, IsTied, IsUnrecorded, past, the_setup};

use crate::hints::learn_leases;
use crate::state::State;
use journal::JournalEntry;
use mr_base::{Memory, NodeId, RangeId};

impl State {
    /// A replica applies up to so many more entries at its line.
    pub fn apply(&mut self, node: NodeId, number: RangeId, more: u64) -> Result<(), Memory>
        requires tied { IsTied self.old }
        requires line { IsFirstAt (past self.old) (events.Apply node number more) }
        requires running { is_running (the_setup self.old) (past self.old) node ≡ true }
        requires replica { HoldsReplica (the_setup self.old) (past self.old) node number }
        requires made { log_of (the_setup self.old) (past self.old) number ≢ [] }
        ensures made { OnOk result ((items : History) × Applies node number
            (min (applied (the_setup self.old) (past self.old) node number + more)
            (length (log_of (the_setup self.old) (past self.old) number)))
            (the_setup self.old) (past self.old) items × HasMade items self.old self.new) }
        ensures err { OnErr result (IsUnrecorded self.old self.new) }
    {
        let range = &self.ranges[(number.0 - 1) as usize];
        let Some(place) = range.place_of(node) else {
            unreachable!();
        };
        let applied = range.applied(place);
        let upto = applied.saturating_add(more).min(range.log().len());
        if upto == applied {
            return Ok(());
        }
        self.apply_upto(node, number, place, upto)
    }

    /// The replica at a place applies the entries up to so many.
    fn apply_upto(
        &mut self,
        node: NodeId,
        number: RangeId,
        place: usize,
        upto: u64,
    ) -> Result<(), Memory>
        requires tied { IsTied self.old }
        requires made { log_of (the_setup self.old) (past self.old) number ≢ [] }
        requires place { place < length (range_at number self.old).servers }
        requires node { (server_at place (range_at number self.old)).node ≡ node }
        requires due { IsApplied (the_setup self.old) (past self.old) node number upto }
        ensures made { OnOk result (HasMade (Made (made.Apply node number upto) ∷ []) self.old self.new) }
        ensures err { OnErr result (IsUnrecorded self.old self.new) }
    {
        self.ledger.reserve(1)?;
        let range = &mut self.ranges[(number.0 - 1) as usize];
        let applied = range.applied(place);
        range.apply(place, upto)?;
        learn_leases(self.hints.as_mut_slice(), node, range, applied, upto);
        self.ledger.write(JournalEntry::Apply {
            node,
            range: number,
            count: upto,
        });
        Ok(())
    }
}
