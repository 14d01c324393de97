//! The steps between answers.

use super::{Family, START, bytes, shown};
use journal::JournalEntry;
use journal_text::Mode;
use mr_base::{AttemptId, Fate, Memory, MsgId, NodeId, RangeId, TxnId};
use range_log::RetryCause;
use std::alloc::Global;
use std::test::Fail;

const STEPS: [&[u8]; 6] = [
    b"taken m7\n",
    b"bounced m7\n",
    b"dropped m7\n",
    b"apply n2 r1 4\n",
    b"fated a2 a1 pushed 1000.0.1\n",
    b"begin t2 a2 n4 start 1000.0.1 limit -\n",
];

/// What becomes of messages, what attempts learn, and what replicas apply.
pub(super) fn step(place: usize) -> JournalEntry {
    let id = MsgId(7);
    let attempt = AttemptId(2);
    match place {
        0 => JournalEntry::Taken { id },
        1 => JournalEntry::Bounced { id },
        2 => JournalEntry::Dropped { id },
        3 => JournalEntry::Apply {
            node: NodeId(2),
            range: RangeId(1),
            count: 4,
        },
        4 => JournalEntry::Fated {
            attempt,
            other: AttemptId(1),
            fate: Fate::Pushed(START),
        },
        _ => JournalEntry::Begin {
            txn: TxnId(1),
            attempt,
            gateway: NodeId(4),
            start: START,
            limit: None,
        },
    }
}

#[test]
fn steps_are_written(rt: HostRuntime) -> Result<(), Fail> {
    assert_eq!(rt;
        shown(rt.alloc(), Mode::Trace, Family::Steps, &STEPS)?,
        STEPS.len()
    );
    Ok(())
}

const RETRIES: [&[u8]; 3] = [
    b"retry t2 a3 uncertain c0de 1000.0.1\n",
    b"retry t2 a3 newer 1000.0.1\n",
    b"retry t2 a3 pushed 1000.0.1\n",
];

fn cause(alloc: Global, place: usize) -> Result<RetryCause, Memory> {
    match place {
        0 => Ok(RetryCause::Uncertain {
            key: bytes(alloc, b"\xc0\xde")?,
            ts: START,
        }),
        1 => Ok(RetryCause::NewerWrite { ts: START }),
        _ => Ok(RetryCause::Pushed { ts: START }),
    }
}

pub(super) fn retry(alloc: Global, place: usize) -> Result<JournalEntry, Memory> {
    Ok(JournalEntry::Retry {
        txn: TxnId(1),
        attempt: AttemptId(3),
        cause: cause(alloc, place)?,
    })
}

#[test]
fn retries_are_written(rt: HostRuntime) -> Result<(), Fail> {
    assert_eq!(rt;
        shown(rt.alloc(), Mode::Trace, Family::Retries, &RETRIES)?,
        RETRIES.len()
    );
    Ok(())
}
