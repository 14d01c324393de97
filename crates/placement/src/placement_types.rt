//! A placement, and why there is none.

use mr_base::{Bytes, ListOf, Memory, NodeId};

/// The nodes that hold a range's replicas. The first voter is the first holder of the lease.
#[derive(Drop)]
pub struct Placement {
    pub voters: ListOf<NodeId>,
    pub others: ListOf<NodeId>,
}

/// Why a range isn't placed.
#[derive(Drop)]
pub enum PlaceRefusal {
    /// No placement fits: the home region lacks zones or nodes. `wanted` and `found` are numbers of
    /// zones of that region for zone survival, of its nodes where it has fewer than two, and of voters
    /// else.
    Unplaceable {
        region: Bytes,
        wanted: u32,
        found: u32,
    },
    /// Memory ran out.
    Memory,
}

impl From<Memory> for PlaceRefusal {
    ghost use Rattle.placement.specs.declared.placement_types.PlaceRefusal.TheVariants as refusals;
    ghost use Rattle.std.specs.Prelude.{◌≡◌};

    ghost from_gives = { λ _ e. e ≡ refusals.Memory };

    fn from(_e: Memory) -> PlaceRefusal {
        PlaceRefusal::Memory
    }
}
