//! How far a transaction has come.

use crate::moves::Refusal;
use mr_base::{Ask, AttemptId, Bytes, Kind, Known, ListOf, RangeId, SqlState, Ts, TxnId};
use range_log::RetryCause;

/// An intent of another attempt that stands in the way.
#[derive(Drop)]
pub struct Obstacle {
    pub key: Bytes,
    pub attempt: AttemptId,
    pub start: Ts,
    /// The range of that attempt's record.
    pub anchor: RangeId,
}

/// The request that met an obstacle, and is made again once the push is answered.
#[derive(Clone, Copy)]
pub enum Back {
    Read,
    Put,
    Refresh,
}

/// What a transaction is at.
#[derive(Drop)]
pub enum Course {
    /// It reads the spans that its script needs, one after the other.
    Reading,
    /// It lays its writes, one after the other.
    Laying,
    /// It refreshes what it was served, span by span, since a put was laid above its read timestamp.
    Refreshing,
    /// It pushes the attempt whose intent stands in the way.
    Pushing {
        other: Obstacle,
        back: Back,
    },
    Committing,
    /// Its attempt laid a put and is to be tried again, so the attempt's abort goes first.
    Aborting {
        cause: RetryCause,
    },
    /// It is to be tried again.
    Retrying {
        cause: RetryCause,
    },
    /// Its answer stands at its write timestamp.
    Answering,
    /// Its fault stands at its read timestamp.
    Faulting {
        state: SqlState,
    },
    /// It ends refused; `abort` is the range to which an abort still goes that nobody awaits.
    Refused {
        why: Refusal,
        abort: Option<RangeId>,
    },
    /// It was acknowledged.
    Acknowledged,
    /// Its fault was given, or its refusal.
    Over,
}

/// How far a transaction has come.
#[derive(Drop)]
pub struct Progress {
    pub id: TxnId,
    /// The present attempt.
    pub attempt: AttemptId,
    pub kind: Kind,
    /// When it began, owned by its first attempt.
    pub start: Ts,
    /// The wall (milliseconds) up to which a version above the read timestamp counts as uncertain; a read
    /// of the past has none.
    pub limit: Option<u64>,
    /// The timestamp at which the attempt reads.
    pub read: Ts,
    /// The timestamp at which the attempt writes: its greatest put, or its read timestamp.
    pub at: Ts,
    /// How many times it was tried again.
    pub retries: u32,
    /// What it has learned of attempts, one fate an attempt, in order of attempt.
    pub fates: ListOf<Known>,
    /// The spans that the attempt was served, in their order.
    pub served: ListOf<Ask>,
    /// How many of them were refreshed at `at`.
    pub again: usize,
    /// The range of the attempt's record, once its writes are known: that of the first of them.
    pub anchor: Option<RangeId>,
    /// Where the script's writes were laid, from the first on.
    pub laid: ListOf<Ts>,
    /// How many of them were sent to be resolved.
    pub resolved: usize,
    /// Whether a put of the attempt was laid, or was sent as a message.
    pub put_out: bool,
    /// The range of the request that is outstanding, if one is.
    pub asked: Option<RangeId>,
    pub course: Course,
}
