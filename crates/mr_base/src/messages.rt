//! Fates of attempts, and the messages between nodes.

ghost use Rattle.std.specs.Prelude.{◌≡◌, IfOk};

use crate::byte_string::Bytes;
use crate::ids::{AttemptId, MsgId, NodeId, RangeId, TxnId};
use crate::list::ListOf;
use crate::memory::{CloneIn, Memory};
use crate::nodes::NodeSet;
use crate::spans::{Pair, Span};
use crate::timestamps::{Reading, Ts};
use std::alloc::Global;

/// What is known of an attempt's writes.
#[derive(Clone, Copy, PartialEq, Eq)]
pub enum Fate {
    /// They count at this timestamp.
    Committed(Ts),
    /// They never count.
    Aborted,
    /// If they ever count, then above this timestamp.
    Pushed(Ts),
}

/// The fate of an attempt, as a request carries it.
#[derive(Clone, Copy)]
pub struct Known {
    pub attempt: AttemptId,
    pub fate: Fate,
}

/// A message in flight. `clock` is the sender's reading; a `down` has none. `boot` is the boot of the
/// requester, to which a reply goes back.
#[derive(Drop)]
pub struct Message {
    pub id: MsgId,
    pub from: NodeId,
    pub to: NodeId,
    pub clock: Option<Reading>,
    pub txn: TxnId,
    pub boot: u32,
    pub body: Body,
}

#[derive(Drop)]
pub enum Body {
    Request(Request),
    Reply(Reply),
}

/// What a gateway asks of the node of a replica.
#[derive(Drop)]
pub enum Request {
    /// Read a span at a timestamp; `limit` is the wall up to which a version above it counts as uncertain.
    Read {
        attempt: AttemptId,
        range: RangeId,
        span: Span,
        at: Ts,
        limit: Option<u64>,
        fates: ListOf<Known>,
    },
    /// Make sure that a span that was read at `from` reads the same at `at`.
    Refresh {
        attempt: AttemptId,
        range: RangeId,
        span: Span,
        from: Ts,
        at: Ts,
        fates: ListOf<Known>,
    },
    /// Lay an intent.
    Put {
        attempt: AttemptId,
        range: RangeId,
        start: Ts,
        anchor: RangeId,
        at: Ts,
        key: Bytes,
        value: Option<Bytes>,
        fates: ListOf<Known>,
    },
    /// A reader at `at` asks what becomes of another attempt.
    PushReader {
        attempt: AttemptId,
        range: RangeId,
        other: AttemptId,
        at: Ts,
    },
    /// A writer asks what becomes of another attempt; the starts tell which of the two is older.
    PushWriter {
        attempt: AttemptId,
        range: RangeId,
        other: AttemptId,
        start: Ts,
        other_start: Ts,
    },
    /// Commit the attempt at a timestamp.
    Commit {
        attempt: AttemptId,
        range: RangeId,
        at: Ts,
    },
    /// Abort the attempt.
    Abort {
        attempt: AttemptId,
        range: RangeId,
    },
    /// Settle the intents of the attempt at these keys; the fate is committed or aborted.
    Resolve {
        attempt: AttemptId,
        range: RangeId,
        keys: ListOf<Bytes>,
        fate: Fate,
    },
}

/// What the node of a replica answers.
#[derive(Drop)]
pub enum Reply {
    Rows {
        pairs: ListOf<Pair>,
    },
    /// A version within the uncertainty limit.
    Uncertain {
        key: Bytes,
        ts: Ts,
    },
    /// An intent of which nothing is known yet.
    Unknown {
        key: Bytes,
        attempt: AttemptId,
        start: Ts,
        anchor: RangeId,
    },
    /// The timestamp at which the put was laid.
    Laid {
        ts: Ts,
    },
    /// Another attempt's intent stands in the way of a put.
    Intent {
        key: Bytes,
        attempt: AttemptId,
        start: Ts,
        anchor: RangeId,
    },
    Refreshed,
    /// A version above the timestamp that was read at.
    Newer {
        ts: Ts,
    },
    Fate {
        attempt: AttemptId,
        fate: Fate,
    },
    /// The attempt is undecided and stays so.
    Live {
        attempt: AttemptId,
    },
    /// The record is decided.
    Ended,
    /// Another attempt aborted the one that wants to commit.
    Aborted {
        by: AttemptId,
    },
    /// A reader pushed the attempt above this timestamp.
    Pushed {
        ts: Ts,
    },
    /// The replica may not serve; this is the last lease that it has applied.
    NotHolder {
        seq: u32,
        holder: NodeId,
        expiration: u64,
    },
    /// No majority of the voters runs.
    NoQuorum {
        down: NodeSet,
    },
    /// The node is stopped.
    Down,
}

impl CloneIn for Known {
    fn clone_in(&self, _alloc: Global) -> Result<Known, Memory> {
        Ok(*self)
    }
}

impl CloneIn for Request {
    fn clone_in(&self, alloc: Global) -> Result<Request, Memory> {
        match self {
            Request::Read {
                attempt,
                range,
                span,
                at,
                limit,
                fates,
            } => copy_of_read(alloc, *attempt, *range, span, *at, *limit, fates),
            Request::Refresh {
                attempt,
                range,
                span,
                from,
                at,
                fates,
            } => copy_of_refresh(alloc, *attempt, *range, span, *from, *at, fates),
            Request::Put {
                attempt,
                range,
                start,
                anchor,
                at,
                key,
                value,
                fates,
            } => copy_of_put(
                alloc, *attempt, *range, *start, *anchor, *at, key, value, fates,
            ),
            Request::PushReader {
                attempt,
                range,
                other,
                at,
            } => Ok(Request::PushReader {
                attempt: *attempt,
                range: *range,
                other: *other,
                at: *at,
            }),
            Request::PushWriter {
                attempt,
                range,
                other,
                start,
                other_start,
            } => Ok(Request::PushWriter {
                attempt: *attempt,
                range: *range,
                other: *other,
                start: *start,
                other_start: *other_start,
            }),
            Request::Commit { attempt, range, at } => Ok(Request::Commit {
                attempt: *attempt,
                range: *range,
                at: *at,
            }),
            Request::Abort { attempt, range } => Ok(Request::Abort {
                attempt: *attempt,
                range: *range,
            }),
            Request::Resolve {
                attempt,
                range,
                keys,
                fate,
            } => copy_of_resolve(alloc, *attempt, *range, keys, *fate),
        }
    }
}

fn copy_of_read(
    alloc: Global,
    attempt: AttemptId,
    range: RangeId,
    span: &Span,
    at: Ts,
    limit: Option<u64>,
    fates: &ListOf<Known>,
) -> Result<Request, Memory>
    ensures { IfOk result (λ copy. copy ≡ Request.Read attempt range span.now at limit fates.now) }
{
    let span = span.clone_in(alloc)?;
    let fates = fates.clone_in(alloc)?;
    Ok(Request::Read {
        attempt,
        range,
        span,
        at,
        limit,
        fates,
    })
}

fn copy_of_refresh(
    alloc: Global,
    attempt: AttemptId,
    range: RangeId,
    span: &Span,
    from: Ts,
    at: Ts,
    fates: &ListOf<Known>,
) -> Result<Request, Memory>
    ensures { IfOk result (λ copy. copy ≡ Request.Refresh attempt range span.now from at fates.now) }
{
    let span = span.clone_in(alloc)?;
    let fates = fates.clone_in(alloc)?;
    Ok(Request::Refresh {
        attempt,
        range,
        span,
        from,
        at,
        fates,
    })
}

fn copy_of_put(
    alloc: Global,
    attempt: AttemptId,
    range: RangeId,
    start: Ts,
    anchor: RangeId,
    at: Ts,
    key: &Bytes,
    value: &Option<Bytes>,
    fates: &ListOf<Known>,
) -> Result<Request, Memory>
    ensures { IfOk result (λ copy. copy ≡ Request.Put attempt range start anchor at key.now value.now fates.now) }
{
    let key = key.clone_in(alloc)?;
    let value = value.clone_in(alloc)?;
    let fates = fates.clone_in(alloc)?;
    Ok(Request::Put {
        attempt,
        range,
        start,
        anchor,
        at,
        key,
        value,
        fates,
    })
}

fn copy_of_resolve(
    alloc: Global,
    attempt: AttemptId,
    range: RangeId,
    keys: &ListOf<Bytes>,
    fate: Fate,
) -> Result<Request, Memory>
    ensures { IfOk result (λ copy. copy ≡ Request.Resolve attempt range keys.now fate) }
{
    let keys = keys.clone_in(alloc)?;
    Ok(Request::Resolve {
        attempt,
        range,
        keys,
        fate,
    })
}

impl CloneIn for Reply {
    fn clone_in(&self, alloc: Global) -> Result<Reply, Memory> {
        match self {
            Reply::Rows { pairs } => copy_of_rows(alloc, pairs),
            Reply::Uncertain { key, ts } => copy_of_uncertain(alloc, key, *ts),
            Reply::Unknown {
                key,
                attempt,
                start,
                anchor,
            } => copy_of_unknown(alloc, key, *attempt, *start, *anchor),
            Reply::Laid { ts } => Ok(Reply::Laid { ts: *ts }),
            Reply::Intent {
                key,
                attempt,
                start,
                anchor,
            } => copy_of_intent(alloc, key, *attempt, *start, *anchor),
            Reply::Refreshed => Ok(Reply::Refreshed),
            Reply::Newer { ts } => Ok(Reply::Newer { ts: *ts }),
            Reply::Fate { attempt, fate } => Ok(Reply::Fate {
                attempt: *attempt,
                fate: *fate,
            }),
            Reply::Live { attempt } => Ok(Reply::Live { attempt: *attempt }),
            Reply::Ended => Ok(Reply::Ended),
            Reply::Aborted { by } => Ok(Reply::Aborted { by: *by }),
            Reply::Pushed { ts } => Ok(Reply::Pushed { ts: *ts }),
            Reply::NotHolder {
                seq,
                holder,
                expiration,
            } => Ok(Reply::NotHolder {
                seq: *seq,
                holder: *holder,
                expiration: *expiration,
            }),
            Reply::NoQuorum { down } => Ok(Reply::NoQuorum { down: *down }),
            Reply::Down => Ok(Reply::Down),
        }
    }
}

fn copy_of_rows(alloc: Global, pairs: &ListOf<Pair>) -> Result<Reply, Memory>
    ensures { IfOk result (λ copy. copy ≡ Reply.Rows pairs.now) }
{
    let pairs = pairs.clone_in(alloc)?;
    Ok(Reply::Rows { pairs })
}

fn copy_of_uncertain(alloc: Global, key: &Bytes, ts: Ts) -> Result<Reply, Memory>
    ensures { IfOk result (λ copy. copy ≡ Reply.Uncertain key.now ts) }
{
    let key = key.clone_in(alloc)?;
    Ok(Reply::Uncertain { key, ts })
}

fn copy_of_unknown(
    alloc: Global,
    key: &Bytes,
    attempt: AttemptId,
    start: Ts,
    anchor: RangeId,
) -> Result<Reply, Memory>
    ensures { IfOk result (λ copy. copy ≡ Reply.Unknown key.now attempt start anchor) }
{
    let key = key.clone_in(alloc)?;
    Ok(Reply::Unknown {
        key,
        attempt,
        start,
        anchor,
    })
}

fn copy_of_intent(
    alloc: Global,
    key: &Bytes,
    attempt: AttemptId,
    start: Ts,
    anchor: RangeId,
) -> Result<Reply, Memory>
    ensures { IfOk result (λ copy. copy ≡ Reply.Intent key.now attempt start anchor) }
{
    let key = key.clone_in(alloc)?;
    Ok(Reply::Intent {
        key,
        attempt,
        start,
        anchor,
    })
}

impl CloneIn for Body {
    fn clone_in(&self, alloc: Global) -> Result<Body, Memory> {
        match self {
            Body::Request(request) => Ok(Body::Request(request.clone_in(alloc)?)),
            Body::Reply(reply) => Ok(Body::Reply(reply.clone_in(alloc)?)),
        }
    }
}

impl CloneIn for Message {
    fn clone_in(&self, alloc: Global) -> Result<Message, Memory> {
        Ok(Message {
            id: self.id,
            from: self.from,
            to: self.to,
            clock: self.clock,
            txn: self.txn,
            boot: self.boot,
            body: self.body.clone_in(alloc)?,
        })
    }
}
