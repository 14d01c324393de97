//! The calls that a source or sink in memory is told to fail.

ghost use Rattle.std.specs.Prelude.{◌≡◌, ◌↔◌, ◌≤◌, IfOk, IsTrue, Contains};
ghost use Rattle.mr_io.specs.Faults.{next_count};

use crate::faults::{Failed, count_fault};
use mr_base::{ListOf, Memory};
use std::alloc::Global;

/// How many calls were made and failed, and the numbers of those that fail, counted from 1.
#[derive(Drop)]
pub struct Calls {
    pub failing: ListOf<u32>,
    pub made: u64,
    pub faults: u64,
}

impl Calls {
    /// No call was made yet.
    pub fn new(alloc: Global, failing: &[u32]) -> Result<Calls, Memory>
        ensures { IfOk result (λ calls. calls ≡ record { failing = failing.now; made = 0; faults = 0 }) }
    {
        Ok(Calls {
            failing: ListOf::copy_of(alloc, failing)?,
            made: 0,
            faults: 0,
        })
    }

    /// Counts a call, and answers whether it is one of those that fail.
    pub fn next_fails(&mut self) -> bool
        ensures counted { self.new ≡ record self.old { made = next_count self.old.made } }
        ensures listed { IsTrue result ↔ Contains self.old.failing (next_count self.old.made) }
    {
        self.made = self.made.saturating_add(1);
        is_listed(self.failing.as_slice(), self.made)
    }

    /// Counts a fault.
    pub fn fail(&mut self) -> Failed
        ensures counted { self.new ≡ record self.old { faults = next_count self.old.faults } }
        ensures never_falls { self.old.faults ≤ self.new.faults }
    {
        count_fault(&mut self.faults)
    }
}

/// Whether the number of a call is one of these.
fn is_listed(numbers: &[u32], call: u64) -> bool
    ensures { IsTrue result ↔ Contains numbers.now call }
{
    numbers.iter().any(|number| u64::from(*number) == call)
}
