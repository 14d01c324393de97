//! The one range, as its server keeps it.

ghost use Rattle.std.specs.Prelude.{◌≡◌, ◌+◌, ◌<◌, ◌^◌, [], None, OnOk, OnErr};

use crate::courses::Course;
use mr_base::{Memory, Ts};
use range_log::Lease;
use std::alloc::Global;
use std::collections::BTreeSet;

/// What is kept of the range's log: its last lease, how many entries it has, the ids of the rows in it, and
/// the greatest timestamp at which anything was read or written.
#[derive(Drop)]
pub struct Range {
    pub lease: Option<Lease>,
    pub length: u64,
    pub ids: BTreeSet<i64>,
    pub floor: Ts,
}

impl Range {
    ghost use Rattle.one_node.specs.Courses.{IsTakenIn};
    ghost use Rattle.one_node.specs.Kept.{nothing_kept};

    /// A range that isn't made yet.
    pub fn new(alloc: Global) -> Range
        ensures { (result.lease ≡ None) × (result.length ≡ 0) × (result.ids.keys ≡ []) × (result.floor ≡ nothing_kept) }
    {
        Range {
            lease: None,
            length: 0,
            ids: BTreeSet::new(alloc),
            floor: Ts::ZERO,
        }
    }

    /// Keeps what a transaction of this course adds. Unchanged after want of memory.
    pub fn take_in(&mut self, course: Course) -> Result<(), Memory>
        requires room { self.old.length + 3 < 2 ^ 64 }
        ensures ok { OnOk result (IsTakenIn self.old course self.new) }
        ensures err { OnErr result (self.new ≡ self.old) }
    {
        if let Course::Inserts(n) = course {
            self.ids.insert(n)?;
            self.length += 3;
        }
        Ok(())
    }
}
