//! What can be read of the nodes.

ghost use Rattle.std.specs.Prelude.{◌≡◌, false, option_copied, reverse, slice_get};
ghost use Rattle.run_words.specs.Clocks.{reading};
ghost use Rattle.run_words.specs.History.{journal_of};
ghost use Rattle.run_words.specs.Messages.{flight};
ghost use Rattle.run_words.specs.Nodes.{boot, is_running};
ghost use Rattle.run_words.specs.Steps.{event_of, has_entry};
ghost use Rattle.run_words.specs.Transactions.{attempts};
ghost use Rattle.sim_nodes.specs.NodesValue.{setup};
ghost use Rattle.cluster_state.specs.Tied.{IsThere};

use crate::nodes::Nodes;
use cluster_state::hints::{hinted, learn_told};
use journal::{Event, JournalEntry};
use mr_base::{MsgId, NodeId, RangeId, Reading};
use request_routes::Hint;

impl Nodes {
    /// What a node's clock shows.
    pub fn reading(&self, node: NodeId) -> Reading
        requires open { self.now.ended ≡ false }
        requires there { IsThere self.now.stage node }
        ensures { result ≡ reading (setup self.now) self.now.history node }
    {
        self.state.nodes[(node.0 - 1) as usize].clock.reading()
    }

    /// Whether a node runs.
    pub fn is_running(&self, node: NodeId) -> bool
        requires open { self.now.ended ≡ false }
        requires there { IsThere self.now.stage node }
        ensures { result ≡ is_running (setup self.now) self.now.history node }
    {
        self.state.nodes[(node.0 - 1) as usize].runs
    }

    /// At which boot a node is.
    pub fn boot(&self, node: NodeId) -> u32
        requires open { self.now.ended ≡ false }
        requires there { IsThere self.now.stage node }
        ensures { result ≡ boot (setup self.now) self.now.history node }
    {
        self.state.nodes[(node.0 - 1) as usize].boot
    }

    /// How many attempts were begun.
    pub fn attempts(&self) -> u32
        requires open { self.now.ended ≡ false }
        ensures { result ≡ attempts (setup self.now) self.now.history }
    {
        self.state.attempts
    }

    /// The journal, with the oldest entry first.
    pub fn entries(&self) -> &[JournalEntry]
        ensures { journal_of self.now.history ≡ reverse result.now }
    {
        self.state.ledger.entries()
    }

    /// The line that was run last.
    pub fn event(&self) -> Option<&Event>
        ensures { option_copied result ≡ event_of self.now.history }
    {
        self.state.ledger.event()
    }

    /// Whether an entry stands behind the last line.
    pub fn has_entry(&self) -> bool
        ensures { result ≡ has_entry self.now.history }
    {
        self.state.ledger.has_entry()
    }

    /// The first message in flight.
    pub fn head(&self) -> Option<MsgId>
        requires open { self.now.ended ≡ false }
        ensures { result ≡ slice_get (flight self.now.history) 0 }
    {
        self.state.flight.head()
    }

    /// The node that a node believes to be leaseholder of a range; none where one of both isn't there.
    pub fn hint(&self, node: NodeId, range: RangeId) -> Option<NodeId> {
        hinted(self.state.hints.as_slice(), node, range)
    }

    /// A reply to a transaction that is open has told its gateway of a lease.
    pub fn learn_told(&mut self, node: NodeId, range: RangeId, told: Hint)
        ensures { self.new ≡ self.old }
    {
        learn_told(self.state.hints.as_mut_slice(), node, range, told);
    }
}
