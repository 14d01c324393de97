//! Lines that show nodes, ranges and messages, as the layers above ask for them.

ghost use Rattle.std.specs.Prelude.{◌≡◌, ◌≢◌, ◌∷◌, [], OnErr, OnOk, Some, false, length};
ghost use Rattle.journal.specs.declared.entries.JournalEntry.TheVariants as made;
ghost use Rattle.journal.specs.declared.events.Event.TheVariants as events;
ghost use Rattle.range_log.specs.Facts.{closed_of, lease_of};
ghost use Rattle.range_log.specs.declared.entries.Lease.{Lease};
ghost use Rattle.run_laws.specs.OrderEvents.{IsFirstAt};
ghost use Rattle.run_words.specs.Clocks.{reading};
ghost use Rattle.run_words.specs.History.{Made};
ghost use Rattle.run_words.specs.Logs.{log_of};
ghost use Rattle.run_words.specs.Messages.{flight};
ghost use Rattle.run_words.specs.Nodes.{boot, is_running};
ghost use Rattle.sim_nodes.specs.NodesValue.{ended_as, setup, with_items};
ghost use Rattle.cluster_state.specs.Tied.{IsThere};

use crate::nodes::Nodes;
use mr_base::{Memory, NodeId, RangeId};

impl Nodes {
    /// Shows a node: its reading, whether it runs, and at which boot it is.
    pub fn show_node(&mut self, node: NodeId) -> Result<(), Memory>
        requires open { self.old.ended ≡ false }
        requires due { IsFirstAt self.old.history (events.ShowNode node) }
        requires there { IsThere self.old.stage node }
        ensures made { OnOk result (self.new ≡ with_items (Made (made.ShowNode node
            (reading (setup self.old) self.old.history node)
            (is_running (setup self.old) self.old.history node)
            (boot (setup self.old) self.old.history node)) ∷ []) self.old) }
        ensures err { OnErr result (self.new ≡ ended_as self.old) }
    {
        self.ended = true;
        self.state.show_node(node)?;
        self.ended = false;
        Ok(())
    }

    /// Shows the messages in flight.
    pub fn show_flight(&mut self) -> Result<(), Memory>
        requires open { self.old.ended ≡ false }
        requires due { IsFirstAt self.old.history events.ShowFlight }
        ensures made { OnOk result (self.new ≡ with_items (Made (made.ShowFlight (flight self.old.history)) ∷ []) self.old) }
        ensures err { OnErr result (self.new ≡ ended_as self.old) }
    {
        self.ended = true;
        self.state.show_flight(self.alloc)?;
        self.ended = false;
        Ok(())
    }

    /// Shows a range, by its whole log: its last lease, what it has closed, and how many entries it has.
    pub fn show_range(&mut self, range: RangeId) -> Result<(), Memory>
        requires open { self.old.ended ≡ false }
        requires due { IsFirstAt self.old.history (events.ShowRange range) }
        requires made { log_of (setup self.old) self.old.history range ≢ [] }
        ensures made { OnOk result ((lease : Lease) × (lease_of (log_of (setup self.old) self.old.history range) ≡ Some lease)
            × (self.new ≡ with_items (Made (made.ShowRange range lease.seq lease.holder lease.expiration
            (closed_of (log_of (setup self.old) self.old.history range))
            (length (log_of (setup self.old) self.old.history range))) ∷ []) self.old)) }
        ensures err { OnErr result (self.new ≡ ended_as self.old) }
    {
        self.ended = true;
        self.state.show_range(range)?;
        self.ended = false;
        Ok(())
    }
}
