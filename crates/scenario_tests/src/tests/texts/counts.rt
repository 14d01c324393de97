//! The line of counts.

use super::START;
use journal::{JournalEntry, Why};
use journal_text::{counts_of, texts_stay};
use mr_base::{AttemptId, ListOf, Memory, TxnId};
use range_log::RetryCause;
use std::alloc::Global;
use std::test::Fail;

/// One transaction that is acknowledged, one that is refused, two that are lost, and a retry.
fn end(alloc: Global, place: usize) -> JournalEntry {
    let txn = TxnId(0);
    match place {
        0 => JournalEntry::Ack {
            txn,
            ts: START,
            results: ListOf::new(alloc),
        },
        1 => JournalEntry::Refuse {
            txn,
            why: Why::Retries,
        },
        2 => JournalEntry::Retry {
            txn,
            attempt: AttemptId(2),
            cause: RetryCause::Pushed { ts: START },
        },
        _ => JournalEntry::Lost { txn },
    }
}

fn ends(alloc: Global) -> Result<Vec<JournalEntry>, Memory> {
    let mut entries = Vec::new(alloc);
    for place in 0..5 {
        entries.push(end(alloc, place))?;
    }
    Ok(entries)
}

#[test]
fn ends_are_counted(rt: HostRuntime) -> Result<(), Fail> {
    let entries = ends(rt.alloc())?;
    let counts = counts_of(rt.alloc(), entries.as_slice())?;
    let wanted = b"acked 1 faulted 0 refused 1 lost 2 retries 1\n";
    assert!(rt; counts.as_slice() == wanted.as_slice());
    texts_stay();
    Ok(())
}
