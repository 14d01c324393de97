//! The log entries that an insert doesn't make.

use super::{Family, START, bytes, shown};
use journal::JournalEntry;
use journal_text::Mode;
use mr_base::{AttemptId, Memory, RangeId, Ts};
use range_log::{Entry, TxnState};
use std::alloc::Global;
use std::test::Fail;

const ENTRIES: [&[u8]; 4] = [
    b"append r1 5 record a2 pending 1000.0.1\n",
    b"append r1 5 record a2 aborted a3\n",
    b"append r1 5 close 0.0.0\n",
    b"append r1 5 load 1000.0.1 key 0080 value 01\n",
];

fn log_entry(alloc: Global, place: usize) -> Result<Entry, Memory> {
    let attempt = AttemptId(2);
    match place {
        0 => Ok(Entry::State {
            attempt,
            state: TxnState::Pending(START),
        }),
        1 => Ok(Entry::State {
            attempt,
            state: TxnState::Aborted(AttemptId(3)),
        }),
        2 => Ok(Entry::Close(Ts::ZERO)),
        _ => Ok(Entry::Load {
            ts: START,
            key: bytes(alloc, b"\x00\x80")?,
            value: bytes(alloc, b"\x01")?,
        }),
    }
}

pub(super) fn append(alloc: Global, place: usize) -> Result<JournalEntry, Memory> {
    Ok(JournalEntry::Append {
        range: RangeId(1),
        index: 5,
        entry: log_entry(alloc, place)?,
    })
}

#[test]
fn log_entries_are_written(rt: HostRuntime) -> Result<(), Fail> {
    assert_eq!(rt;
        shown(rt.alloc(), Mode::Trace, Family::Entries, &ENTRIES)?,
        ENTRIES.len()
    );
    Ok(())
}
