//! Why a pair isn't decoded.

ghost use Rattle.std.specs.Prelude.{◌≡◌};
ghost use Rattle.row_locality.specs.declared.decode_fault.DecodeFault.TheVariants as faults;

use mr_base::Memory;
use std::alloc::{AllocError, AllocFailed};

/// Why a pair isn't decoded.
#[derive(Clone, Copy)]
pub enum DecodeFault {
    /// The pair is of no row of the table.
    Malformed,
    /// Memory ran out.
    Memory,
}

impl From<Memory> for DecodeFault {
    ghost from_gives = { λ _ f. f ≡ faults.Memory };

    fn from(_memory: Memory) -> DecodeFault {
        DecodeFault::Memory
    }
}

impl From<AllocError> for DecodeFault {
    ghost from_gives = { λ _ f. f ≡ faults.Memory };

    fn from(_e: AllocError) -> DecodeFault {
        DecodeFault::Memory
    }
}

impl<T: Drop> From<AllocFailed<T>> for DecodeFault {
    ghost from_gives = { λ _ f. f ≡ faults.Memory };

    fn from(_e: AllocFailed<T>) -> DecodeFault {
        DecodeFault::Memory
    }
}
