//! The requests of a transaction.

ghost use Rattle.std.specs.Prelude.{◌≡◌, Some, IfOk, map};
ghost use Rattle.txn_coord.specs.Asking.{abort_of, commit_of, keys_in, push_of, put_of, range_of, read_of, refresh_of, resolve_of};

use crate::progress::{Back, Obstacle, Progress};
use mr_base::{Ask, Bytes, CloneIn, Fate, ListOf, Memory, RangeId, Request, Ts, Write};
use std::alloc::Global;

/// The range to which a request goes.
pub fn range_of(request: &Request) -> RangeId
    ensures { result ≡ range_of request.now }
{
    match request {
        Request::Read { range, .. } => *range,
        Request::Refresh { range, .. } => *range,
        Request::Put { range, .. } => *range,
        Request::PushReader { range, .. } => *range,
        Request::PushWriter { range, .. } => *range,
        Request::Commit { range, .. } => *range,
        Request::Abort { range, .. } => *range,
        Request::Resolve { range, .. } => *range,
    }
}

/// The read of a span at the read timestamp.
pub fn read(alloc: Global, t: &Progress, ask: Ask) -> Result<Request, Memory>
    ensures { IfOk result (λ q. q ≡ read_of t.now ask) }
{
    let Ask { range, span } = ask;
    Ok(Request::Read {
        attempt: t.attempt,
        range,
        span,
        at: t.read,
        limit: t.limit,
        fates: t.fates.clone_in(alloc)?,
    })
}

/// The put of a write at the write timestamp.
pub fn put(alloc: Global, t: &Progress, anchor: RangeId, write: &Write) -> Result<Request, Memory>
    ensures { IfOk result (λ q. put_of t.now (Some anchor) (Some write.now) ≡ Some q) }
{
    Ok(Request::Put {
        attempt: t.attempt,
        range: write.range,
        start: t.start,
        anchor,
        at: t.at,
        key: write.key.clone_in(alloc)?,
        value: write.value.clone_in(alloc)?,
        fates: t.fates.clone_in(alloc)?,
    })
}

/// The refresh of a span that was served, from the read timestamp to the write timestamp.
pub fn refresh(alloc: Global, t: &Progress, ask: &Ask) -> Result<Request, Memory>
    ensures { IfOk result (λ q. q ≡ refresh_of t.now ask.now) }
{
    Ok(Request::Refresh {
        attempt: t.attempt,
        range: ask.range,
        span: ask.span.clone_in(alloc)?,
        from: t.read,
        at: t.at,
        fates: t.fates.clone_in(alloc)?,
    })
}

/// The push of the attempt that stands in the way: a reader names its timestamp, a writer both starts.
pub fn push(t: &Progress, other: &Obstacle, back: Back) -> Request
    ensures { result ≡ push_of t.now other.now back }
{
    match back {
        Back::Read => push_by_reader(t, other, t.read),
        Back::Refresh => push_by_reader(t, other, t.at),
        Back::Put => Request::PushWriter {
            attempt: t.attempt,
            range: other.anchor,
            other: other.attempt,
            start: t.start,
            other_start: other.start,
        },
    }
}

fn push_by_reader(t: &Progress, other: &Obstacle, at: Ts) -> Request
    ensures { result ≡ Request.PushReader t.now.attempt other.now.anchor other.now.attempt at }
{
    Request::PushReader {
        attempt: t.attempt,
        range: other.anchor,
        other: other.attempt,
        at,
    }
}

/// The commit of the attempt at its write timestamp.
pub fn commit(t: &Progress, anchor: RangeId) -> Request
    ensures { result ≡ commit_of t.now anchor }
{
    Request::Commit {
        attempt: t.attempt,
        range: anchor,
        at: t.at,
    }
}

/// The abort of the attempt.
pub fn abort(t: &Progress, anchor: RangeId) -> Request
    ensures { result ≡ abort_of t.now anchor }
{
    Request::Abort {
        attempt: t.attempt,
        range: anchor,
    }
}

/// The keys of the writes at the front that are in a range.
fn keys_in(alloc: Global, range: RangeId, writes: &[Write]) -> Result<ListOf<Bytes>, Memory>
    ensures { IfOk result (λ keys. keys ≡ keys_in range writes.now) }
{
    let mut keys = ListOf::new(alloc);
    for write in writes {
        if write.range.0 != range.0 {
            return Ok(keys);
        }
        keys.push(write.key.clone_in(alloc)?)?;
    }
    Ok(keys)
}

/// The resolve of the writes at the front that are in one range, as this fate.
pub fn resolve(
    alloc: Global,
    t: &Progress,
    fate: Fate,
    writes: &[Write],
) -> Result<Option<Request>, Memory>
    ensures { IfOk result (λ q. q ≡ resolve_of t.now fate writes.now) }
{
    let Some(first) = writes.first() else {
        return Ok(None);
    };
    Ok(Some(Request::Resolve {
        attempt: t.attempt,
        range: first.range,
        keys: keys_in(alloc, first.range, writes)?,
        fate,
    }))
}
