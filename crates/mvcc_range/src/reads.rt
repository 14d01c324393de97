//! Reads of the keys of a span.

ghost use Rattle.std.specs.Prelude.{◌≡◌, ◌++◌, List, IfOk, OnOk, false};
ghost use Rattle.std.specs.Cmp.Lexicographic.{slice_cmp};
ghost use Rattle.std.specs.Ordering.{is_gt, nat_cmp};
ghost use Rattle.mvcc_range.specs.KeyView.{as_read};
ghost use Rattle.mvcc_range.specs.Walks.{AllStand, answer_of, pairs_of};
ghost use Rattle.mvcc_range.specs.ReadAnswers.{IsReadAnswer};
ghost use Rattle.range_log.specs.declared.entries.Entry.{Entry};

use crate::answers::ReadAnswer;
use crate::key_state::KeyState;
use crate::key_view::{Obstacle, obstacle_at, row_at};
use crate::read_view::ReadView;
use mr_base::{Bytes, CloneIn, ListOf, Memory, Pair};
use std::alloc::Global;
use std::collections::BTreeMap;
use std::ops::Bound::{Excluded, Included};

/// What a read gives.
pub fn read_keys(
    keys: &BTreeMap<Bytes, KeyState>,
    alloc: Global,
    read: &ReadView,
) -> Result<ReadAnswer, Memory>
    ensures { IfOk result (λ answer. (entries : List Entry) → AllStand entries keys.now.entries
        → IsReadAnswer entries (as_read read.now) answer) }
{
    if read.span.lo < read.span.hi {
        read_between(keys, alloc, read)
    } else {
        Ok(ReadAnswer::Rows(ListOf::new(alloc)))
    }
}

/// The same of a span that isn't empty: its keys in order, up to the first with an obstacle.
fn read_between(
    keys: &BTreeMap<Bytes, KeyState>,
    alloc: Global,
    read: &ReadView,
) -> Result<ReadAnswer, Memory>
    requires { is_gt (slice_cmp nat_cmp read.now.span.now.lo read.now.span.now.hi) ≡ false }
    ensures { IfOk result (λ answer. (entries : List Entry) → AllStand entries keys.now.entries
        → IsReadAnswer entries (as_read read.now) answer) }
{
    let mut rows = ListOf::new(alloc);
    for (key, state) in keys.range((Included(&read.span.lo), Excluded(&read.span.hi))) {
        if let Some(obstacle) = obstacle_at(read, state) {
            return stopped(alloc, key, &obstacle);
        }
        push_row(&mut rows, alloc, key, row_at(read, state))?;
    }
    Ok(ReadAnswer::Rows(rows))
}

/// The answer of a read that met an obstacle at a key.
fn stopped(alloc: Global, key: &Bytes, obstacle: &Obstacle) -> Result<ReadAnswer, Memory>
    ensures { IfOk result (λ answer. answer ≡ answer_of key.now obstacle.now) }
{
    let key = key.clone_in(alloc)?;
    match obstacle {
        Obstacle::Unknown(intent) => Ok(ReadAnswer::Unknown {
            key,
            attempt: intent.attempt,
            start: intent.start,
            anchor: intent.anchor,
        }),
        Obstacle::Uncertain(ts) => Ok(ReadAnswer::Uncertain { key, ts: *ts }),
    }
}

/// Adds the row of a key, where it has one.
fn push_row(
    rows: &mut ListOf<Pair>,
    alloc: Global,
    key: &Bytes,
    value: Option<&Bytes>,
) -> Result<(), Memory>
    ensures { OnOk result (rows.new ≡ rows.old ++ pairs_of key.now value.entry) }
{
    let Some(value) = value else {
        return Ok(());
    };
    let key = key.clone_in(alloc)?;
    let value = value.clone_in(alloc)?;
    rows.push(Pair { key, value })
}
