//! Lines that show a node, a range, or the messages in flight.

ghost use Rattle.std.specs.Prelude.{◌≡◌, ◌≢◌, ◌∷◌, [], OnErr, OnOk, Some, length};
ghost use Rattle.journal.specs.declared.entries.JournalEntry.TheVariants as made;
ghost use Rattle.journal.specs.declared.events.Event.TheVariants as events;
ghost use Rattle.hlc.specs.Readings.{reading_of};
ghost use Rattle.run_laws.specs.OrderEvents.{IsFirstAt};
ghost use Rattle.range_log.specs.Facts.{closed_of, lease_of};
ghost use Rattle.range_log.specs.declared.entries.Lease.{Lease};
ghost use Rattle.run_words.specs.Clocks.{reading};
ghost use Rattle.run_words.specs.History.{Made};
ghost use Rattle.run_words.specs.Logs.{log_of};
ghost use Rattle.run_words.specs.Messages.{flight};
ghost use Rattle.run_words.specs.Nodes.{boot, is_running};
ghost use Rattle.cluster_state.specs.Tied.{HasMade, IsThere, IsTied, IsUnrecorded, past, the_setup};

use crate::state::State;
use journal::JournalEntry;
use mr_base::{Memory, NodeId, RangeId};
use node_states::NodeState;
use range_replicas::ReplicatedRange;
use std::alloc::Global;

impl State {
    /// Shows a node: its reading, whether it runs, and at which boot it is.
    pub fn show_node(&mut self, node: NodeId) -> Result<(), Memory>
        requires tied { IsTied self.old }
        requires due { IsFirstAt (past self.old) (events.ShowNode node) }
        requires there { IsThere self.old.stage node }
        ensures made { OnOk result (HasMade (Made (made.ShowNode node
            (reading (the_setup self.old) (past self.old) node)
            (is_running (the_setup self.old) (past self.old) node)
            (boot (the_setup self.old) (past self.old) node)) ∷ []) self.old self.new) }
        ensures err { OnErr result (IsUnrecorded self.old self.new) }
    {
        self.ledger.reserve(1)?;
        let shown = shown_node(&self.nodes[(node.0 - 1) as usize], node);
        self.ledger.write(shown);
        Ok(())
    }

    /// Shows the messages in flight.
    pub fn show_flight(&mut self, alloc: Global) -> Result<(), Memory>
        requires tied { IsTied self.old }
        requires due { IsFirstAt (past self.old) events.ShowFlight }
        ensures made { OnOk result (HasMade (Made (made.ShowFlight (flight (past self.old))) ∷ []) self.old self.new) }
        ensures err { OnErr result (IsUnrecorded self.old self.new) }
    {
        let messages = self.flight.numbers(alloc)?;
        self.ledger.reserve(1)?;
        self.ledger.write(JournalEntry::ShowFlight { messages });
        Ok(())
    }

    /// Shows a range, by its whole log: its last lease, what it has closed, and how many entries it has.
    pub fn show_range(&mut self, number: RangeId) -> Result<(), Memory>
        requires tied { IsTied self.old }
        requires due { IsFirstAt (past self.old) (events.ShowRange number) }
        requires made { log_of (the_setup self.old) (past self.old) number ≢ [] }
        ensures made { OnOk result ((lease : Lease) × (lease_of (log_of (the_setup self.old) (past self.old) number) ≡ Some lease)
            × HasMade (Made (made.ShowRange number lease.seq lease.holder lease.expiration
            (closed_of (log_of (the_setup self.old) (past self.old) number))
            (length (log_of (the_setup self.old) (past self.old) number))) ∷ []) self.old self.new) }
        ensures err { OnErr result (IsUnrecorded self.old self.new) }
    {
        self.ledger.reserve(1)?;
        let shown = shown_range(&self.ranges[(number.0 - 1) as usize], number);
        self.ledger.write(shown);
        Ok(())
    }
}

/// A range as it is shown, under a number.
fn shown_range(range: &ReplicatedRange, number: RangeId) -> JournalEntry
    ensures { (lease : Lease) × (lease_of range.now.log.entries ≡ Some lease) × (result ≡ made.ShowRange number
        lease.seq lease.holder lease.expiration (closed_of range.now.log.entries) (length range.now.log.entries)) }
{
    let log = range.log();
    let lease = log.lease();
    JournalEntry::ShowRange {
        range: number,
        seq: lease.seq,
        holder: lease.holder,
        expiration: lease.expiration,
        closed: log.closed(),
        log: log.len(),
    }
}

/// A node as it is shown, under a number.
fn shown_node(state: &NodeState, node: NodeId) -> JournalEntry
    ensures { result ≡ made.ShowNode node (reading_of state.now.clock.physical state.now.clock.kept) state.now.runs state.now.boot }
{
    JournalEntry::ShowNode {
        node,
        clock: state.clock.reading(),
        running: state.runs,
        boot: state.boot,
    }
}
