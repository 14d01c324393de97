//! The lines of a scenario as their words say, before anything is judged.

ghost use Rattle.std.specs.Prelude.{◌≡◌};

use journal::Event;
use mr_base::{Bytes, Kind, NodeId, NodeInfo, Settings};

/// The first word of a line.
#[derive(Clone, Copy)]
pub(crate) enum LineName {
    Cluster,
    Node,
    Sql,
    Begin,
    Txn,
    Tick,
    Deliver,
    Drop,
    Apply,
    Drain,
    Settle,
    Lease,
    Close,
    Stop,
    Start,
    Show,
    Timeout,
}

/// The names of all lines.
pub(crate) const LINE_NAMES: [LineName; 17] = [
    LineName::Cluster,
    LineName::Node,
    LineName::Sql,
    LineName::Begin,
    LineName::Txn,
    LineName::Tick,
    LineName::Deliver,
    LineName::Drop,
    LineName::Apply,
    LineName::Drain,
    LineName::Settle,
    LineName::Lease,
    LineName::Close,
    LineName::Stop,
    LineName::Start,
    LineName::Show,
    LineName::Timeout,
];

impl LineName {
    ghost use Rattle.scenario.specs.LineNames.{word_of};

    /// The word that lines of this name begin with.
    pub(crate) fn word(self) -> &'static [u8]
        ensures { result.now ≡ word_of self }
    {
        match self {
            LineName::Cluster => b"cluster",
            LineName::Node => b"node",
            LineName::Sql => b"sql",
            LineName::Begin => b"begin",
            LineName::Txn => b"txn",
            LineName::Tick => b"tick",
            LineName::Deliver => b"deliver",
            LineName::Drop => b"drop",
            LineName::Apply => b"apply",
            LineName::Drain => b"drain",
            LineName::Settle => b"settle",
            LineName::Lease => b"lease",
            LineName::Close => b"close",
            LineName::Stop => b"stop",
            LineName::Start => b"start",
            LineName::Show => b"show",
            LineName::Timeout => b"timeout",
        }
    }
}

/// A line whose words fit its form. A node or range that no id can name has the greatest u32 as its
/// number.
#[derive(Drop)]
pub(crate) enum Form {
    Cluster(Settings),
    /// A node with its physical clock in milliseconds.
    Node(NodeInfo, u64),
    /// A statement, before `begin` or after it.
    Sql(Bytes),
    Txn {
        name: Bytes,
        gateway: NodeId,
        kind: Kind,
        list: Bytes,
    },
    Timeout {
        name: Bytes,
    },
    /// Any other line of the parts `begin` and after it, whose words say the whole event.
    Event(Event),
}
