//! The least intent of a span.

ghost use Rattle.std.specs.Prelude.{◌≡◌, List, ℕ, false};
ghost use Rattle.std.specs.Cmp.Lexicographic.{slice_cmp};
ghost use Rattle.std.specs.Ordering.{is_gt, nat_cmp};
ghost use Rattle.mvcc_range.specs.KeyView.{IsLeast, Stands};
ghost use Rattle.mvcc_range.specs.Lookups.{IsLowestIntent};
ghost use Rattle.mvcc_range.specs.Walks.{AllStand, IsOthersAt};
ghost use Rattle.range_log.specs.declared.entries.Entry.{Entry};

use crate::key_state::KeyState;
use crate::key_view::lesser;
use mr_base::{AttemptId, Bytes, Span, Ts};
use std::collections::BTreeMap;
use std::ops::Bound::{Excluded, Included};

/// The least timestamp of an intent in a span that isn't the reader's; none where there is none.
pub fn lowest_of(keys: &BTreeMap<Bytes, KeyState>, span: &Span, reader: AttemptId) -> Option<Ts>
    ensures { (entries : List Entry) → AllStand entries keys.now.entries
        → IsLowestIntent entries span.now reader result }
{
    if span.lo < span.hi {
        lowest_between(keys, span, reader)
    } else {
        None
    }
}

/// The same of a span that isn't empty.
fn lowest_between(keys: &BTreeMap<Bytes, KeyState>, span: &Span, reader: AttemptId) -> Option<Ts>
    requires { is_gt (slice_cmp nat_cmp span.now.lo span.now.hi) ≡ false }
    ensures { (entries : List Entry) → AllStand entries keys.now.entries
        → IsLowestIntent entries span.now reader result }
{
    let mut least = None;
    for (_, state) in keys.range((Included(&span.lo), Excluded(&span.hi))) {
        least = lesser(least, others_ts(state, reader));
    }
    least
}

/// The timestamp of the intent at a key, where it isn't the reader's.
fn others_ts(state: &KeyState, reader: AttemptId) -> Option<Ts>
    ensures { (entries : List Entry) (key : List ℕ) → Stands entries key state.now
        → IsLeast (IsOthersAt entries reader key) result }
{
    let Some(kept) = state.kept() else {
        return None;
    };
    if kept.intent.attempt == reader {
        None
    } else {
        Some(kept.intent.ts)
    }
}
