//! What a read sees at one key.

ghost use Rattle.std.specs.Prelude.{◌≡◌, List, ℕ, MatchOption};
ghost use Rattle.mvcc_range.specs.Answer.{IsClear};
ghost use Rattle.mvcc_range.specs.KeyView.{IsLeast, IsNewerAt, IsNewestAt, IsObstacleAt, IsSeenAbove, IsTheRow, IsToldAbove, IsToldBelow, Stands, as_read, later_of, lesser_of};
ghost use Rattle.range_log.specs.declared.entries.Entry.{Entry};

use crate::key_state::{Intent, KeyState};
use crate::read_view::ReadView;
use mr_base::{Bytes, Ts};

/// What stands in the way of a read at a key.
#[derive(Drop)]
pub enum Obstacle {
    /// Another attempt's intent that no known fate settles.
    Unknown(Intent),
    /// The least timestamp of what it sees as versions above it and within its limit.
    Uncertain(Ts),
}

/// What stands in the way of the read at the key; none where it is clear.
pub fn obstacle_at(read: &ReadView, state: &KeyState) -> Option<Obstacle>
    ensures { (entries : List Entry) (key : List ℕ) → Stands entries key state.now
        → MatchOption result (IsClear entries (as_read read.now) key) (IsObstacleAt entries (as_read read.now) key) }
{
    if let Some(intent) = read.unknown(state.kept()) {
        return Some(Obstacle::Unknown(intent));
    }
    let Some(limit) = read.limit else {
        return None;
    };
    let Some(least) = least_above(read, state, read.at) else {
        return None;
    };
    if least.wall <= limit {
        Some(Obstacle::Uncertain(least))
    } else {
        None
    }
}

/// The value that the read gives of the key; none where that is a deletion or nothing.
pub fn row_at<'s>(read: &ReadView, state: &'s KeyState) -> Option<&'s Bytes>
    ensures { (entries : List Entry) (key : List ℕ) → Stands entries key state.now
        → IsTheRow entries (as_read read.now) key result }
{
    let Some((_, value)) = newest(read, state) else {
        return None;
    };
    value.as_ref()
}

/// The newest of what the read sees as versions of the key below it, with its value.
fn newest<'s>(read: &ReadView, state: &'s KeyState) -> Option<(Ts, &'s Option<Bytes>)>
    ensures { (entries : List Entry) (key : List ℕ) → Stands entries key state.now
        → IsNewestAt entries (as_read read.now) key result }
{
    later(state.last_below(read.at), told_below(read, state))
}

/// The intent that the read knows as committed below it, with its value.
fn told_below<'s>(read: &ReadView, state: &'s KeyState) -> Option<(Ts, &'s Option<Bytes>)>
    ensures { (entries : List Entry) (key : List ℕ) → Stands entries key state.now
        → IsToldBelow entries (as_read read.now) key result }
{
    let Some((ts, value)) = read.told(state.kept()) else {
        return None;
    };
    if ts.is_below(read.at) {
        Some((ts, value))
    } else {
        None
    }
}

/// The later of a version and an intent that is known as committed; the version, where they are of one
/// timestamp.
fn later<'s>(
    version: Option<(Ts, &'s Option<Bytes>)>,
    told: Option<(Ts, &'s Option<Bytes>)>,
) -> Option<(Ts, &'s Option<Bytes>)>
    ensures { result ≡ later_of version.entry told.entry }
{
    match (version, told) {
        (Some(v), Some(t)) => Some(if v.0 < t.0 { t } else { v }),
        (Some(v), None) => Some(v),
        (None, told) => told,
    }
}

/// The least timestamp, above the first and below that of the read, of what the read sees as versions of the key.
pub fn newer_at(read: &ReadView, state: &KeyState, from: Ts) -> Option<Ts>
    ensures { (entries : List Entry) (key : List ℕ) → Stands entries key state.now
        → IsLeast (IsNewerAt entries (as_read read.now) from key) result }
{
    let Some(least) = least_above(read, state, from) else {
        return None;
    };
    if least.is_below(read.at) {
        Some(least)
    } else {
        None
    }
}

/// The least timestamp above another of what the read sees as versions of the key.
fn least_above(read: &ReadView, state: &KeyState, above: Ts) -> Option<Ts>
    ensures { (entries : List Entry) (key : List ℕ) → Stands entries key state.now
        → IsLeast (IsSeenAbove entries (as_read read.now) above key) result }
{
    lesser(state.first_above(above), told_above(read, state, above))
}

/// The timestamp above another of the intent that the read knows as committed.
fn told_above(read: &ReadView, state: &KeyState, above: Ts) -> Option<Ts>
    ensures { (entries : List Entry) (key : List ℕ) → Stands entries key state.now
        → IsLeast (IsToldAbove entries (as_read read.now) above key) result }
{
    let Some((ts, _)) = read.told(state.kept()) else {
        return None;
    };
    if above.is_below(ts) { Some(ts) } else { None }
}

/// The lesser of two timestamps that may be there.
pub fn lesser(a: Option<Ts>, b: Option<Ts>) -> Option<Ts>
    ensures { result ≡ lesser_of a b }
{
    match (a, b) {
        (Some(x), Some(y)) => Some(if y < x { y } else { x }),
        (Some(x), None) => Some(x),
        (None, b) => b,
    }
}
