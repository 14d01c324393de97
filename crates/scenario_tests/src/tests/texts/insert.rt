//! The trace of one insert, from `begin` on.

use super::{Family, START, bytes, first_key, shown, span};
use journal::{How, JournalEntry, StatementResult, Verb};
use journal_text::Mode;
use mr_base::{AttemptId, Fate, ListOf, Memory, NodeId, RangeId, Ts, TxnId};
use range_log::{Entry, Lease, TxnState};
use std::alloc::Global;
use std::test::Fail;

/// What is added to the log, by its index.
fn log_entry(alloc: Global, index: u64) -> Result<Entry, Memory> {
    let attempt = AttemptId(1);
    match index {
        1 => Ok(Entry::Lease(Lease {
            seq: 1,
            holder: NodeId(1),
            boot: 1,
            expiration: 7000,
            low: Ts::ZERO,
        })),
        2 => Ok(Entry::Put {
            attempt,
            start: START,
            anchor: RangeId(1),
            ts: START,
            key: first_key(alloc)?,
            value: Some(bytes(
                alloc,
                b"\x01\x00\x00\x00\x00\x00\x00\x00\x01\x02\x00\x00\x00\x01a",
            )?),
        }),
        3 => Ok(Entry::State {
            attempt,
            state: TxnState::Committed(START),
        }),
        _ => Ok(Entry::Resolve {
            attempt,
            key: first_key(alloc)?,
            fate: Fate::Committed(START),
        }),
    }
}

fn append(alloc: Global, index: u64) -> Result<JournalEntry, Memory> {
    Ok(JournalEntry::Append {
        range: RangeId(1),
        index,
        entry: log_entry(alloc, index)?,
    })
}

/// What an insert into a table of an integer key and a text answers.
fn inserted(alloc: Global) -> Result<ListOf<StatementResult>, Memory> {
    let mut results = ListOf::new(alloc);
    results.push(StatementResult {
        verb: Verb::Insert,
        count: 1,
        rows: ListOf::new(alloc),
    })?;
    Ok(results)
}

const TRACE: [&[u8]; 9] = [
    b"event 5\n",
    b"append r1 1 lease 1 n1 boot 1 expires 7000 low 0.0.0\n",
    b"event 6\n",
    b"begin t1 a1 n1 start 1000.0.1 limit 1500\n",
    b"serve a1 n1 r1 [008000000000000001,00800000000000000100) at 1000.0.1 limit 1500 log 1 by lease fates -\n",
    b"append r1 2 put a1 start 1000.0.1 anchor r1 at 1000.0.1 key 008000000000000001 value 010000000000000001020000000161\n",
    b"append r1 3 record a1 committed 1000.0.1\n",
    b"append r1 4 resolve a1 key 008000000000000001 committed 1000.0.1\n",
    b"ack t1 1000.0.1\n= insert 1\n",
];

pub(super) fn step(alloc: Global, place: usize) -> Result<JournalEntry, Memory> {
    let attempt = AttemptId(1);
    match place {
        0 => Ok(JournalEntry::Event { line: 5 }),
        1 => append(alloc, 1),
        2 => Ok(JournalEntry::Event { line: 6 }),
        3 => Ok(JournalEntry::Begin {
            txn: TxnId(0),
            attempt,
            gateway: NodeId(1),
            start: START,
            limit: Some(1500),
        }),
        4 => Ok(JournalEntry::Serve {
            attempt,
            node: NodeId(1),
            range: RangeId(1),
            span: span(alloc)?,
            at: START,
            limit: Some(1500),
            log: 1,
            by: How::Lease,
            fates: ListOf::new(alloc),
        }),
        5 => append(alloc, 2),
        6 => append(alloc, 3),
        7 => append(alloc, 4),
        _ => Ok(JournalEntry::Ack {
            txn: TxnId(0),
            ts: START,
            results: inserted(alloc)?,
        }),
    }
}

/// What the answers alone show of it.
const ANSWERED: [&[u8]; 9] = [
    b"",
    b"",
    b"",
    b"",
    b"",
    b"",
    b"",
    b"",
    b"ack t1 1000.0.1\n= insert 1\n",
];

/// What a summary shows of it.
const SUMMED: [&[u8]; 9] = [b""; 9];

/// What each mode shows of it.
const MODES: [(Mode, &[&[u8]]); 3] = [
    (Mode::Trace, &TRACE),
    (Mode::Answers, &ANSWERED),
    (Mode::Summary, &SUMMED),
];

#[test]
fn an_insert_is_traced(rt: HostRuntime) -> Result<(), Fail> {
    for (mode, texts) in MODES {
        assert_eq!(rt; shown(rt.alloc(), mode, Family::Insert, texts)?, 9);
    }
    Ok(())
}
