//! Refreshes of the keys of a span.

ghost use Rattle.std.specs.Prelude.{◌≡◌, List, IfOk, None, false};
ghost use Rattle.std.specs.Cmp.Lexicographic.{slice_cmp};
ghost use Rattle.std.specs.Ordering.{is_gt, nat_cmp};
ghost use Rattle.mvcc_range.specs.KeyView.{as_read};
ghost use Rattle.mvcc_range.specs.ReadAnswers.{IsRefreshAnswer};
ghost use Rattle.mvcc_range.specs.Walks.{AllStand, newer_of, refresh_of, unknown_of};
ghost use Rattle.range_log.specs.declared.entries.Entry.{Entry};

use crate::answers::RefreshAnswer;
use crate::key_state::{Intent, KeyState};
use crate::key_view::{lesser, newer_at};
use crate::read_view::ReadView;
use mr_base::{Bytes, CloneIn, Memory, Ts};
use std::alloc::Global;
use std::collections::BTreeMap;
use std::ops::Bound::{Excluded, Included};

/// What a refresh of a span gives from a timestamp to that of a later read, which has no limit.
pub fn refresh_keys(
    keys: &BTreeMap<Bytes, KeyState>,
    alloc: Global,
    from: Ts,
    later: &ReadView,
) -> Result<RefreshAnswer, Memory>
    requires { later.now.limit ≡ None }
    ensures { IfOk result (λ answer. (entries : List Entry) → AllStand entries keys.now.entries
        → IsRefreshAnswer entries (refresh_of (as_read later.now) from) answer) }
{
    if later.span.lo < later.span.hi {
        refresh_between(keys, alloc, from, later)
    } else {
        Ok(RefreshAnswer::Done)
    }
}

/// The same of a span that isn't empty: its keys in order, up to the first with an obstacle.
fn refresh_between(
    keys: &BTreeMap<Bytes, KeyState>,
    alloc: Global,
    from: Ts,
    later: &ReadView,
) -> Result<RefreshAnswer, Memory>
    requires limit { later.now.limit ≡ None }
    requires some { is_gt (slice_cmp nat_cmp later.now.span.now.lo later.now.span.now.hi) ≡ false }
    ensures { IfOk result (λ answer. (entries : List Entry) → AllStand entries keys.now.entries
        → IsRefreshAnswer entries (refresh_of (as_read later.now) from) answer) }
{
    let mut least = None;
    for (key, state) in keys.range((Included(&later.span.lo), Excluded(&later.span.hi))) {
        if let Some(intent) = later.unknown(state.kept()) {
            return unknown_at(alloc, key, intent);
        }
        least = lesser(least, newer_at(later, state, from));
    }
    Ok(answer_at_end(least))
}

/// The answer of a refresh that met no obstacle, by the least timestamp of a newer write.
fn answer_at_end(least: Option<Ts>) -> RefreshAnswer
    ensures { result ≡ newer_of least }
{
    match least {
        Some(ts) => RefreshAnswer::NewerWrite { ts },
        None => RefreshAnswer::Done,
    }
}

/// The answer of a refresh that met an intent at a key.
fn unknown_at(alloc: Global, key: &Bytes, intent: Intent) -> Result<RefreshAnswer, Memory>
    ensures { IfOk result (λ answer. answer ≡ unknown_of key.now intent) }
{
    let key = key.clone_in(alloc)?;
    Ok(RefreshAnswer::Unknown {
        key,
        attempt: intent.attempt,
        start: intent.start,
        anchor: intent.anchor,
    })
}
