//! How a run ends.

ghost use Rattle.std.specs.Prelude.{◌≡◌};

use mr_base::Memory;
use mr_io::Failed;
use scenario::Journal;

/// The status for want of memory.
pub const MEMORY: u8 = 5;

/// The status of the process, and the entries that were made.
#[derive(Drop)]
pub struct Outcome {
    pub status: u8,
    pub journal: Journal,
}

/// Why a run ends.
#[derive(Clone, Copy)]
pub enum End {
    /// The source was read to its end and every line was run.
    Whole,
    /// The line of this number has the fault S of this number.
    Fault { fault: u8, line: u32 },
    /// The words are no command.
    Usage,
    /// A read failed.
    Read,
    /// A write failed.
    Write,
    /// Memory ran out.
    Memory,
    /// One byte more than the largest scenario was taken.
    Size,
}

impl End {
    ghost use Rattle.mr_shell.specs.Ends.{status_of};

    /// The status of the process.
    pub fn status(self) -> u8
        ensures { result ≡ status_of self }
    {
        match self {
            End::Whole => 0,
            End::Fault { .. } => 1,
            End::Usage => 2,
            End::Read => 3,
            End::Write => 4,
            End::Memory => MEMORY,
            End::Size => 7,
        }
    }
}

impl From<Memory> for End {
    ghost use Rattle.std.specs.Prelude.{◌≡◌};
    ghost use Rattle.mr_shell.specs.declared.outcome.End.TheVariants.{Memory};

    ghost from_gives = { λ _ e. e ≡ Memory };

    fn from(_e: Memory) -> End {
        End::Memory
    }
}

impl From<Failed> for End {
    ghost use Rattle.std.specs.Prelude.{◌≡◌};
    ghost use Rattle.mr_shell.specs.declared.outcome.End.TheVariants.{Write};

    ghost from_gives = { λ _ e. e ≡ Write };

    /// A write that failed.
    fn from(_e: Failed) -> End {
        End::Write
    }
}
