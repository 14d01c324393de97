//! The ranges are made at the `begin` line.

ghost use Rattle.std.specs.Prelude.{◌≡◌, ◌<◌, ◌∷◌, [], OnErr, OnOk, length};
ghost use Rattle.node_states.specs.Placed.{KeepsLaws};
ghost use Rattle.replica_states.specs.Making.{IsMaking};
ghost use Rattle.cluster_state.specs.Making.{HasMadeRange, IsOnTheWay};
ghost use Rattle.cluster_state.specs.Tied.{IsTied, IsUnrecorded, past, the_setup};

use crate::hints::add_first;
use crate::state::State;
use journal::JournalEntry;
use mr_base::Memory;
use range_log::Entry;
use replica_states::first_range;
use std::alloc::Global;

impl State {
    /// Makes all ranges behind the `begin` line, in the order of their numbers, each of which begins with its first lease.
    pub fn begin(&mut self, alloc: Global) -> Result<(), Memory>
        requires tied { IsTied self.old }
        requires none { length self.old.ranges.items ≡ 0 }
        requires making { IsMaking (the_setup self.old) (past self.old) 0 }
        ensures begun { OnOk result (IsOnTheWay self.old self.new (length self.old.stage.ranges)) }
        ensures stage { self.new.stage ≡ self.old.stage }
        ensures laws { KeepsLaws (the_setup self.new) (past self.new) }
    {
        for place in 0..self.stage.ranges.len() {
            self.make_range(alloc, place)?;
        }
        Ok(())
    }

    /// Makes the next range, which begins with its first lease.
    pub fn make_range(&mut self, alloc: Global, place: usize) -> Result<(), Memory>
        requires tied { IsTied self.old }
        requires next { place ≡ length self.old.ranges.items }
        requires making { IsMaking (the_setup self.old) (past self.old) (length self.old.ranges.items) }
        requires within { length self.old.ranges.items < length self.old.stage.ranges }
        ensures made { OnOk result (HasMadeRange self.old self.new) }
        ensures err { OnErr result (IsUnrecorded self.old self.new) }
    {
        let plan = &self.stage.ranges.as_slice()[place];
        let range = first_range(alloc, plan, self.nodes.as_slice(), &self.stage.settings)?;
        let lease = range.log().lease();
        let number = range.number();
        self.ledger.reserve(1)?;
        add_first(self.hints.as_mut_slice(), lease.holder)?;
        self.ranges.push(range)?;
        self.ledger.write(JournalEntry::Append {
            range: number,
            index: 1,
            entry: Entry::Lease(lease),
        });
        Ok(())
    }
}
