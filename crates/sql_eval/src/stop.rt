//! Why a step of an evaluation ends early.

ghost use Rattle.std.specs.Prelude.{◌≡◌};
ghost use Rattle.sql_eval.specs.Answered.{fault_of};
ghost use Rattle.sql_eval.specs.declared.stop.Stop.TheVariants as stops;

use mr_base::{EvalFault, Memory, SqlState};
use std::alloc::{AllocError, AllocFailed};

/// Why a step of an evaluation ends early.
#[derive(Clone, Copy)]
pub(crate) enum Stop {
    /// A fault of SQL.
    State(SqlState),
    /// Memory ran out.
    Memory,
}

impl From<Memory> for Stop {
    ghost from_gives = { λ _ s. s ≡ stops.Memory };

    fn from(_memory: Memory) -> Stop {
        Stop::Memory
    }
}

impl From<AllocError> for Stop {
    ghost from_gives = { λ _ s. s ≡ stops.Memory };

    fn from(_e: AllocError) -> Stop {
        Stop::Memory
    }
}

impl<T: Drop> From<AllocFailed<T>> for Stop {
    ghost from_gives = { λ _ s. s ≡ stops.Memory };

    fn from(_e: AllocFailed<T>) -> Stop {
        Stop::Memory
    }
}

/// The same for a caller of this crate.
pub(crate) fn fault_of(stop: Stop) -> EvalFault
    ensures { result ≡ fault_of stop }
{
    match stop {
        Stop::State(state) => EvalFault::State(state),
        Stop::Memory => EvalFault::Memory,
    }
}
