//! What reads and refreshes answer.

use mr_base::{AttemptId, Bytes, ListOf, Pair, RangeId, Ts};

/// The answer of a read. (Uncertainty and intents: Taft et al., SIGMOD 2020.)
#[derive(Drop)]
pub enum ReadAnswer {
    /// The rows of the span in key order.
    Rows(ListOf<Pair>),
    /// The first obstacle is a version above the read and within its uncertainty limit, the least of its key.
    Uncertain {
        key: Bytes,
        ts: Ts,
    },
    /// The first obstacle is an intent of another attempt that no known fate settles: that attempt, when it
    /// began, and the range of its record.
    Unknown {
        key: Bytes,
        attempt: AttemptId,
        start: Ts,
        anchor: RangeId,
    },
}

/// The answer of a refresh. (Read refreshes: Taft et al., SIGMOD 2020.)
#[derive(Drop)]
pub enum RefreshAnswer {
    /// The span reads the same at the later timestamp.
    Done,
    /// The least timestamp of a write between the two.
    NewerWrite {
        ts: Ts,
    },
    /// The first intent of another attempt that no known fate settles.
    Unknown {
        key: Bytes,
        attempt: AttemptId,
        start: Ts,
        anchor: RangeId,
    },
}
