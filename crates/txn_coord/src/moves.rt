//! What a transaction does next, and why it is refused.

use mr_base::{AttemptId, Bytes, MsgId, NodeSet, RangeId, Request, SqlState, Ts};
use range_log::RetryCause;

/// Why a transaction is refused.
#[derive(Drop)]
pub enum Refusal {
    /// An older attempt that is alive has an intent at this key.
    Conflict { key: Bytes, other: AttemptId },
    /// Another attempt aborted it.
    Aborted { by: AttemptId },
    /// It was tried again as often as it may be.
    Retries,
    /// No replica of the range serves.
    NoLease { range: RangeId },
    /// These voters of the range are stopped, and the others are no majority.
    NoQuorum { range: RangeId, down: NodeSet },
    /// No reply to its commit came in time: it may have committed.
    Ambiguous { request: MsgId },
    /// No reply to its request came in time.
    Timeout { request: MsgId },
    /// It reads below this timestamp, at which its tables were changed.
    Schema { ts: Ts },
    /// The gateway's replica of this range is staler than the transaction allows.
    Stale { range: RangeId },
}

/// What a transaction does next.
#[derive(Drop)]
pub enum Move {
    /// It asks this of a replica of the range, and awaits the reply.
    Ask {
        range: RangeId,
        request: Request,
    },
    /// It asks this and awaits nothing.
    Send {
        range: RangeId,
        request: Request,
    },
    /// It is tried again, as this attempt.
    Retried {
        attempt: AttemptId,
        cause: RetryCause,
    },
    /// It waits until its gateway's clock shows this wall (milliseconds).
    Wait {
        until: u64,
    },
    Ack {
        ts: Ts,
    },
    Fault {
        ts: Ts,
        state: SqlState,
    },
    Refuse(Refusal),
}
