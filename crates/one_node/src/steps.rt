//! The entries that a line makes.

ghost use Rattle.std.specs.Prelude.{◌≡◌, ◌+◌, ◌<◌, ◌≤◌, ◌^◌, ◌∷◌, [], IfOk, false};
ghost use Rattle.mr_base.specs.Timestamps.{ts_lt};
ghost use Rattle.range_log.specs.declared.entries.Entry.TheVariants as log;
ghost use Rattle.journal.specs.declared.entries.JournalEntry.{JournalEntry};
ghost use Rattle.one_node.specs.Steps.{append_step, first_lease, course_steps, line_steps, insert_steps, serve_step, ack_insert, ack_select, duplicate};
ghost use Rattle.row_locality.specs.OneColumnRows.{point_of, the_primary_keys};

use crate::courses::Course;
use crate::laying::{has_passed, laid_at};
use crate::range::Range;
use crate::transaction::{
    BOOT, Begun, NODE, append_entry, begin_entry, duplicate_entry, insert_ack, insert_entries,
    no_lease_entry, select_ack, serve_entry,
};
use journal::JournalEntry;
use mr_base::{Memory, Reading, Ts};
use range_log::{Entry, Lease};
use row_locality::{one_column_point, one_column_span};
use std::alloc::Global;

/// The first lease of the range, up to this wall.
pub fn lease_until(expiration: u64) -> Lease
    ensures { result ≡ first_lease expiration }
{
    Lease {
        seq: 1,
        holder: NODE,
        boot: BOOT,
        expiration,
        low: Ts::ZERO,
    }
}

/// The entries of `begin`: the range's first lease.
pub fn begin_steps(alloc: Global, line: u32, lease: Lease) -> Result<Vec<JournalEntry>, Memory>
    ensures { IfOk result (λ v. v.items ≡ JournalEntry.Event line ∷ append_step 1 (log.Lease lease) ∷ []) }
{
    let mut steps = Vec::new(alloc);
    steps.push(JournalEntry::Event { line })?;
    steps.push(append_entry(1, Entry::Lease(lease)))?;
    Ok(steps)
}

/// The entries of a transaction's line, where the clock shows this once the transaction began.
pub fn transaction_steps(
    alloc: Global,
    range: &Range,
    line: u32,
    begun: Begun,
    course: Course,
    clock: Reading,
) -> Result<Vec<JournalEntry>, Memory>
    requires room { range.now.length + 3 < 2 ^ 64 }
    requires logical { range.now.floor.logical + 1 < 2 ^ 64 }
    requires above { ts_lt begun.start range.now.floor ≡ false }
    requires passed { begun.start.wall ≤ clock.wall }
    ensures { IfOk result (λ v. v.items ≡ line_steps line begun course range.now.length range.now.ids.keys) }
{
    let mut steps = Vec::new(alloc);
    steps.push(JournalEntry::Event { line })?;
    steps.push(begin_entry(begun))?;
    let mut rest = steps_of_course(alloc, range, begun, course, clock)?;
    steps.append(&mut rest)?;
    Ok(steps)
}

/// The entries of a transaction behind its beginning.
fn steps_of_course(
    alloc: Global,
    range: &Range,
    begun: Begun,
    course: Course,
    clock: Reading,
) -> Result<Vec<JournalEntry>, Memory>
    requires room { range.now.length + 3 < 2 ^ 64 }
    requires logical { range.now.floor.logical + 1 < 2 ^ 64 }
    requires above { ts_lt begun.start range.now.floor ≡ false }
    requires passed { begun.start.wall ≤ clock.wall }
    ensures { IfOk result (λ v. v.items ≡ course_steps begun course range.now.length range.now.ids.keys) }
{
    match course {
        Course::Unserved => unserved(alloc, begun),
        Course::Duplicate(n) => duplicated(alloc, begun, n, range.length),
        Course::Inserts(n) => {
            let at = laid_at(begun.start, range.floor, begun.attempt);
            inserted(alloc, begun, n, range.length, at, clock)
        }
        Course::Selects => selected(alloc, range, begun, clock),
    }
}

/// The refusal of a transaction that isn't served.
fn unserved(alloc: Global, begun: Begun) -> Result<Vec<JournalEntry>, Memory>
    ensures { IfOk result (λ v. v.items ≡ course_steps begun Course.Unserved 0 []) }
{
    let mut steps = Vec::new(alloc);
    steps.push(no_lease_entry(begun))?;
    Ok(steps)
}

/// An INSERT of an id that is there: the row's point is served, and there is a duplicate.
fn duplicated(alloc: Global, begun: Begun, n: i64, log: u64) -> Result<Vec<JournalEntry>, Memory>
    ensures { IfOk result (λ v. v.items ≡ serve_step begun (point_of n) log ∷ duplicate begun ∷ []) }
{
    let mut steps = Vec::new(alloc);
    steps.push(serve_entry(alloc, begun, one_column_point(alloc, n)?, log))?;
    steps.push(duplicate_entry(begun))?;
    Ok(steps)
}

/// An INSERT: the row's point is served, then the row is laid, committed and resolved, and acknowledged.
/// No answer waits, since no timestamp is ahead of the clock.
fn inserted(
    alloc: Global,
    begun: Begun,
    n: i64,
    log: u64,
    at: Ts,
    clock: Reading,
) -> Result<Vec<JournalEntry>, Memory>
    requires room { log + 3 < 2 ^ 64 }
    requires at { at ≡ begun.start }
    requires passed { begun.start.wall ≤ clock.wall }
    ensures { IfOk result (λ v. v.items ≡ course_steps begun (Course.Inserts n) log []) }
{
    if !has_passed(clock, at) {
        unreachable!();
    }
    let mut steps = Vec::new(alloc);
    steps.push(serve_entry(alloc, begun, one_column_point(alloc, n)?, log))?;
    let mut laid = insert_entries(alloc, begun, n, log, at)?;
    steps.append(&mut laid)?;
    steps.push(insert_ack(alloc, begun, at)?)?;
    Ok(steps)
}

/// A SELECT: all rows are served, and acknowledged.
fn selected(
    alloc: Global,
    range: &Range,
    begun: Begun,
    clock: Reading,
) -> Result<Vec<JournalEntry>, Memory>
    requires passed { begun.start.wall ≤ clock.wall }
    ensures { IfOk result (λ v. v.items ≡ serve_step begun the_primary_keys range.now.length ∷ ack_select begun range.now.ids.keys ∷ []) }
{
    if !has_passed(clock, begun.start) {
        unreachable!();
    }
    let mut steps = Vec::new(alloc);
    steps.push(serve_entry(alloc, begun, one_column_span(alloc)?, range.length))?;
    steps.push(select_ack(alloc, begun, &range.ids)?)?;
    Ok(steps)
}
