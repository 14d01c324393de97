//! The steps of a transaction on the one node, as the entries that they make.

ghost use Rattle.std.specs.Prelude.{◌≡◌, ◌+◌, ◌<◌, ◌^◌, ◌∷◌, [], IfOk, Some, vec_len, map};
ghost use Rattle.one_node.specs.Steps.{begin_step, serve_step, insert_steps, ack_insert, ack_select, duplicate, no_lease};
ghost use Rattle.row_locality.specs.OneColumnDatabases.{row_with};

use journal::{How, JournalEntry, StatementResult, Verb, Why};
use mr_base::{
    AttemptId, CloneIn, Datum, Fate, ListOf, Memory, NodeId, Pair, RangeId, Span, SqlState, Ts,
    TxnId,
};
use range_log::{Entry, TxnState};
use row_locality::one_column_row;
use std::alloc::Global;
use std::collections::BTreeSet;

/// The one node and the one range.
pub const NODE: NodeId = NodeId(1);

pub const RANGE: RangeId = RangeId(1);

/// The boot of a node that never stopped.
pub const BOOT: u32 = 1;

/// A transaction that began: its first attempt, its start, and the wall up to which a version above the
/// start counts as uncertain.
#[derive(Clone, Copy)]
pub struct Begun {
    pub txn: TxnId,
    pub attempt: AttemptId,
    pub start: Ts,
    pub limit: u64,
}

pub fn begin_entry(begun: Begun) -> JournalEntry
    ensures { result ≡ begin_step begun }
{
    JournalEntry::Begin {
        txn: begun.txn,
        attempt: begun.attempt,
        gateway: NODE,
        start: begun.start,
        limit: Some(begun.limit),
    }
}

pub fn serve_entry(alloc: Global, begun: Begun, span: Span, log: u64) -> JournalEntry
    ensures { result ≡ serve_step begun span log }
{
    JournalEntry::Serve {
        attempt: begun.attempt,
        node: NODE,
        range: RANGE,
        span,
        at: begun.start,
        limit: Some(begun.limit),
        log,
        by: How::Lease,
        fates: ListOf::new(alloc),
    }
}

pub fn append_entry(index: u64, entry: Entry) -> JournalEntry
    ensures { result ≡ JournalEntry.Append RANGE index entry }
{
    JournalEntry::Append {
        range: RANGE,
        index,
        entry,
    }
}

/// The refusal where the node may not serve.
pub fn no_lease_entry(begun: Begun) -> JournalEntry
    ensures { result ≡ no_lease begun }
{
    JournalEntry::Refuse {
        txn: begun.txn,
        why: Why::NoLease { range: RANGE },
    }
}

/// The fault of an id that is there.
pub fn duplicate_entry(begun: Begun) -> JournalEntry
    ensures { result ≡ duplicate begun }
{
    JournalEntry::Fault {
        txn: begun.txn,
        ts: begun.start,
        state: SqlState::S23505,
    }
}

/// The entries by which a row is put, committed and resolved at a timestamp, in the order in which they
/// come about, where the log has so many entries.
pub fn insert_entries(
    alloc: Global,
    begun: Begun,
    n: i64,
    log: u64,
    at: Ts,
) -> Result<Vec<JournalEntry>, Memory>
    requires { log + 3 < 2 ^ 64 }
    ensures { IfOk result (λ v. v.items ≡ insert_steps begun n log at) }
{
    let Pair { key, value } = one_column_row(alloc, n)?;
    let attempt = begun.attempt;
    let resolve = Entry::Resolve {
        attempt,
        key: key.clone_in(alloc)?,
        fate: Fate::Committed(at),
    };
    let state = Entry::State {
        attempt,
        state: TxnState::Committed(at),
    };
    let put = Entry::Put {
        attempt,
        start: begun.start,
        anchor: RANGE,
        ts: at,
        key,
        value: Some(value),
    };
    let mut entries = Vec::new(alloc);
    entries.push(append_entry(log + 1, put))?;
    entries.push(append_entry(log + 2, state))?;
    entries.push(append_entry(log + 3, resolve))?;
    Ok(entries)
}

fn ack_entry(
    alloc: Global,
    txn: TxnId,
    ts: Ts,
    answer: StatementResult,
) -> Result<JournalEntry, Memory>
    ensures { IfOk result (λ e. e ≡ JournalEntry.Ack txn ts (answer ∷ [])) }
{
    let mut results = ListOf::new(alloc);
    results.push(answer)?;
    Ok(JournalEntry::Ack { txn, ts, results })
}

/// The acknowledgement of an INSERT of one row.
pub fn insert_ack(alloc: Global, begun: Begun, at: Ts) -> Result<JournalEntry, Memory>
    ensures { IfOk result (λ e. e ≡ ack_insert begun at) }
{
    let answer = StatementResult {
        verb: Verb::Insert,
        count: 1,
        rows: ListOf::new(alloc),
    };
    ack_entry(alloc, begun.txn, at, answer)
}

/// A row for each id.
fn rows_of(alloc: Global, ids: &BTreeSet<i64>) -> Result<ListOf<ListOf<Datum>>, Memory>
    ensures { IfOk result (λ rows. rows ≡ map row_with ids.now.keys) }
{
    let mut rows = Vec::new(alloc);
    for id in ids.iter() {
        let mut row = ListOf::new(alloc);
        row.push(Datum::Int(*id))?;
        rows.push(row)?;
    }
    Ok(ListOf::from_vec(rows))
}

/// The acknowledgement of a SELECT of the rows with these ids.
pub fn select_ack(alloc: Global, begun: Begun, ids: &BTreeSet<i64>) -> Result<JournalEntry, Memory>
    ensures { IfOk result (λ e. e ≡ ack_select begun ids.now.keys) }
{
    let answer = StatementResult {
        verb: Verb::Select,
        count: ids.len() as u64,
        rows: rows_of(alloc, ids)?,
    };
    ack_entry(alloc, begun.txn, begun.start, answer)
}
