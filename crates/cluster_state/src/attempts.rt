//! Transactions begin, learn fates, and are tried again.

ghost use Rattle.std.specs.Prelude.{◌≡◌, ◌∷◌, [], OnErr, OnOk};
ghost use Rattle.journal.specs.declared.entries.JournalEntry.TheVariants as made;
ghost use Rattle.run_laws.specs.OrderEvents.{IsInStep};
ghost use Rattle.run_laws.specs.Places.{IsInOwnStep};
ghost use Rattle.run_words.specs.History.{Made};
ghost use Rattle.cluster_state.specs.Tied.{HasMade, IsTied, IsUnrecorded, past};

use crate::state::State;
use journal::JournalEntry;
use mr_base::{AttemptId, Fate, Memory};

impl State {
    /// An attempt learns the fate of another.
    pub fn learn(&mut self, attempt: AttemptId, other: AttemptId, fate: Fate) -> Result<(), Memory>
        requires tied { IsTied self.old }
        requires stepping { IsInStep (past self.old) }
        requires own { IsInOwnStep (past self.old) attempt }
        ensures made { OnOk result (HasMade (Made (made.Fated attempt other fate) ∷ []) self.old self.new) }
        ensures err { OnErr result (IsUnrecorded self.old self.new) }
    {
        self.ledger.reserve(1)?;
        self.ledger.write(JournalEntry::Fated {
            attempt,
            other,
            fate,
        });
        Ok(())
    }
}
