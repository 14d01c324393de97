//! Reads and writes that failed, and how they are counted.

ghost use Rattle.std.specs.Prelude.{◌≡◌, ◌≤◌};
ghost use Rattle.mr_io.specs.Faults.{next_count};

/// A read or a write failed. Nothing was read or written, and the fault was counted.
#[derive(Clone, Copy, PartialEq, Eq)]
pub struct Failed;

/// Counts one more fault, unless the counter stands at its last value.
pub fn count_fault(faults: &mut u64) -> Failed
    ensures counted { faults.new ≡ next_count faults.old }
    ensures never_falls { faults.old ≤ faults.new }
{
    *faults = faults.saturating_add(1);
    Failed
}
