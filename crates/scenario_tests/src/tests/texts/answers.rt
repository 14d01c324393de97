//! The answers of transactions.

use super::{Family, START, bytes, shown, stopped};
use journal::{JournalEntry, StatementResult, Verb, Why};
use journal_text::Mode;
use mr_base::{AttemptId, Datum, ListOf, Memory, MsgId, RangeId, Row, RowList, SqlState, TxnId};
use std::alloc::Global;
use std::test::Fail;

/// A row of each kind of value.
fn row(alloc: Global) -> Result<Row, Memory> {
    let mut row = ListOf::new(alloc);
    row.push(Datum::Int(-1))?;
    row.push(Datum::Text(bytes(alloc, b"a'b")?))?;
    row.push(Datum::Bool(true))?;
    row.push(Datum::Bool(false))?;
    Ok(row)
}

fn rows(alloc: Global) -> Result<RowList, Memory> {
    let mut rows = ListOf::new(alloc);
    rows.push(row(alloc)?)?;
    Ok(rows)
}

/// A statement that gives no rows.
fn changed(alloc: Global, verb: Verb, count: u64) -> StatementResult {
    StatementResult {
        verb,
        count,
        rows: ListOf::new(alloc),
    }
}

fn results(alloc: Global) -> Result<ListOf<StatementResult>, Memory> {
    let mut results = ListOf::new(alloc);
    results.push(StatementResult {
        verb: Verb::Select,
        count: 1,
        rows: rows(alloc)?,
    })?;
    results.push(changed(alloc, Verb::Update, 0))?;
    results.push(changed(alloc, Verb::Delete, 12))?;
    Ok(results)
}

const ANSWERS: [&[u8]; 3] = [
    b"ack t2 1000.0.1
= select 1
  -1, 'a''b', true, false
= update 0
= delete 12
",
    b"fault t2 1000.0.1 0A000\n",
    b"lost t2\n",
];

pub(super) fn answer(alloc: Global, place: usize) -> Result<JournalEntry, Memory> {
    let txn = TxnId(1);
    let ts = START;
    match place {
        0 => Ok(JournalEntry::Ack {
            txn,
            ts,
            results: results(alloc)?,
        }),
        1 => Ok(JournalEntry::Fault {
            txn,
            ts,
            state: SqlState::S0A000,
        }),
        _ => Ok(JournalEntry::Lost { txn }),
    }
}

#[test]
fn answers_are_written(rt: HostRuntime) -> Result<(), Fail> {
    assert_eq!(rt;
        shown(rt.alloc(), Mode::Answers, Family::Answers, &ANSWERS)?,
        ANSWERS.len()
    );
    Ok(())
}

const REFUSALS: [&[u8]; 9] = [
    b"refuse t2 40001 conflict a3\n",
    b"refuse t2 40001 aborted a4\n",
    b"refuse t2 40001 retries\n",
    b"refuse t2 nolease r1\n",
    b"refuse t2 noquorum r1 n2,n64\n",
    b"refuse t2 schema 1000.0.1\n",
    b"refuse t2 40003 m5\n",
    b"refuse t2 timeout m5\n",
    b"refuse t2 stale r1\n",
];

fn why(place: usize) -> Why {
    let request = MsgId(5);
    let range = RangeId(1);
    match place {
        0 => Why::Conflict {
            other: AttemptId(3),
        },
        1 => Why::Aborted { by: AttemptId(4) },
        2 => Why::Retries,
        3 => Why::NoLease { range },
        4 => Why::NoQuorum {
            range,
            down: stopped(),
        },
        5 => Why::Schema { ts: START },
        6 => Why::Ambiguous { request },
        7 => Why::Timeout { request },
        _ => Why::Stale { range },
    }
}

pub(super) fn refusal(place: usize) -> JournalEntry {
    JournalEntry::Refuse {
        txn: TxnId(1),
        why: why(place),
    }
}

#[test]
fn refusals_are_written(rt: HostRuntime) -> Result<(), Fail> {
    assert_eq!(rt;
        shown(rt.alloc(), Mode::Answers, Family::Refusals, &REFUSALS)?,
        REFUSALS.len()
    );
    Ok(())
}
