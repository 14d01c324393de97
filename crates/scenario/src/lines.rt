//! What a line says, and why a line is refused.

use journal::Event;
use mr_base::{Bytes, Memory, NodeInfo, Settings};

/// A line of a scenario.
#[derive(Drop)]
pub enum Line {
    /// An empty line or a comment.
    Skipped,
    Cluster(Settings),
    /// A node with its physical clock in milliseconds.
    Node(NodeInfo, u64),
    /// A region statement before `begin`.
    Sql(Bytes),
    Event(Event),
}

/// Why a line is refused: the fault S1 to S12, by its number, or want of memory.
#[derive(Clone, Copy, Debug)]
pub enum LineFault {
    S(u8),
    Memory,
}

impl From<Memory> for LineFault {
    ghost use Rattle.std.specs.Prelude.{◌≡◌};
    ghost use Rattle.scenario.specs.declared.lines.LineFault.TheVariants.{Memory};

    ghost from_gives = { λ _ e. e ≡ Memory };

    fn from(_e: Memory) -> LineFault {
        LineFault::Memory
    }
}
