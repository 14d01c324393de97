//! Where reading ends.

ghost use Rattle.std.specs.Prelude.{◌≡◌};
ghost use Rattle.region_sql.specs.declared.stuck.Stuck.TheVariants.{Memory as OutOfMemory};

use mr_base::Memory;
use std::alloc::{AllocError, AllocFailed};

/// Why no form was read.
#[derive(Clone, Copy)]
pub(crate) enum Stuck {
    /// Memory ran out.
    Memory,
    /// No form goes on with the tokens of which so many are left.
    At(usize),
}

impl From<Memory> for Stuck {
    ghost from_gives = { λ _ e. e ≡ OutOfMemory };

    fn from(_e: Memory) -> Stuck {
        Stuck::Memory
    }
}

impl From<AllocError> for Stuck {
    ghost from_gives = { λ _ e. e ≡ OutOfMemory };

    fn from(_e: AllocError) -> Stuck {
        Stuck::Memory
    }
}

impl<T: Drop> From<AllocFailed<T>> for Stuck {
    ghost from_gives = { λ _ e. e ≡ OutOfMemory };

    fn from(_e: AllocFailed<T>) -> Stuck {
        Stuck::Memory
    }
}
