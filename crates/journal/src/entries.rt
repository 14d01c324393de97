//! The entries of a journal.

use mr_base::{
    AttemptId, Bytes, Fate, Known, ListOf, MsgId, NodeId, NodeSet, RangeId, Reading, Reply,
    Request, Span, SqlState, StatementResult, Ts, TxnId,
};
use range_log::{Entry, RetryCause};

/// What the journal keeps of a message's body. A `Reply` is never `Rows`.
#[derive(Drop)]
pub enum Shown {
    Request(Request),
    Rows { count: u64 },
    Reply(Reply),
}

/// By what right a replica serves.
#[derive(Clone, Copy)]
pub enum How {
    Lease,
    Closure,
}

/// Why a transaction is refused.
#[derive(Clone, Copy)]
pub enum Why {
    /// An older live attempt's intent.
    Conflict { other: AttemptId },
    /// Another's push aborted this attempt.
    Aborted { by: AttemptId },
    /// 64 retries were made.
    Retries,
    /// No replica serves as holder.
    NoLease { range: RangeId },
    /// These voters are stopped.
    NoQuorum { range: RangeId, down: NodeSet },
    /// It reads below the last schema change.
    Schema { ts: Ts },
    /// Its commit was sent and not answered in time.
    Ambiguous { request: MsgId },
    /// Another request was not answered in time.
    Timeout { request: MsgId },
    /// No time that is fresh enough can be served at once.
    Stale { range: RangeId },
}

/// Why a lease doesn't move, or a timestamp isn't closed.
#[derive(Clone, Copy)]
pub enum LeaseWhy {
    NotVoter,
    /// The present lease isn't expired.
    Live { expiration: u64 },
    NotHolder,
    NoQuorum { down: NodeSet },
}

/// Why a region statement is refused.
#[derive(Drop)]
pub enum SqlWhy {
    State(SqlState),
    /// The refusal D1 to D11, by its number.
    D(u8),
    Unplaceable {
        region: Bytes,
        wanted: u32,
        found: u32,
    },
    /// Transactions are open, or messages in flight.
    Busy {
        unfinished: u32,
        flight: u64,
    },
    /// A commit lies above every clock.
    Future {
        wall: u64,
    },
}

/// An entry of the journal: what its line of the trace shows, and no more.
#[derive(Drop)]
pub enum JournalEntry {
    /// A line of the scenario from `begin` on.
    Event {
        line: u32,
    },
    Begin {
        txn: TxnId,
        attempt: AttemptId,
        gateway: NodeId,
        start: Ts,
        limit: Option<u64>,
    },
    Sent {
        id: MsgId,
        from: NodeId,
        to: NodeId,
        clock: Option<Reading>,
        body: Shown,
    },
    Taken {
        id: MsgId,
    },
    /// Delivered to a stopped node.
    Bounced {
        id: MsgId,
    },
    Dropped {
        id: MsgId,
    },
    Append {
        range: RangeId,
        index: u64,
        entry: Entry,
    },
    /// How many entries another replica has applied now.
    Apply {
        node: NodeId,
        range: RangeId,
        count: u64,
    },
    Serve {
        attempt: AttemptId,
        node: NodeId,
        range: RangeId,
        span: Span,
        at: Ts,
        limit: Option<u64>,
        log: u64,
        by: How,
        fates: ListOf<Known>,
    },
    Fated {
        attempt: AttemptId,
        other: AttemptId,
        fate: Fate,
    },
    Retry {
        txn: TxnId,
        attempt: AttemptId,
        cause: RetryCause,
    },
    Ack {
        txn: TxnId,
        ts: Ts,
        results: ListOf<StatementResult>,
    },
    Fault {
        txn: TxnId,
        ts: Ts,
        state: SqlState,
    },
    Refuse {
        txn: TxnId,
        why: Why,
    },
    Lost {
        txn: TxnId,
    },
    Lease {
        range: RangeId,
        seq: u32,
        holder: NodeId,
        expiration: u64,
    },
    LeaseRefused {
        range: RangeId,
        why: LeaseWhy,
    },
    CloseRefused {
        range: RangeId,
        why: LeaseWhy,
    },
    SqlRefused {
        why: SqlWhy,
    },
    /// A region statement while the cluster runs was accepted.
    Schema {
        ts: Ts,
    },
    ShowRange {
        range: RangeId,
        seq: u32,
        holder: NodeId,
        expiration: u64,
        closed: Ts,
        log: u64,
    },
    ShowNode {
        node: NodeId,
        clock: Reading,
        running: bool,
        boot: u32,
    },
    ShowFlight {
        messages: ListOf<MsgId>,
    },
    ShowFresh {
        node: NodeId,
        ranges: ListOf<(RangeId, Option<u64>)>,
    },
}
