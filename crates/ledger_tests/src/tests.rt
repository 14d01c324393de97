mod copies;

use journal::{Event, JournalEntry};
use mr_base::{MsgId, TxnId};
use run_ledger::Ledger;
use std::test::Fail;

/// The line whose entry this is, or 0.
fn line_of(entry: &JournalEntry) -> u32 {
    match entry {
        JournalEntry::Event { line } => *line,
        _ => 0,
    }
}

#[test]
fn a_line_an_entry_a_tick_and_an_entry(rt: HostRuntime) -> Result<(), Fail> {
    let mut ledger = Ledger::new(rt.alloc());
    ledger.line(7, Event::Drain)?;
    ledger.line(8, Event::Settle { ms: 5 })?;
    assert!(rt; !ledger.has_entry());
    ledger.reserve(2)?;
    ledger.write(JournalEntry::Taken { id: MsgId(1) });
    assert!(rt; ledger.has_entry() && !ledger.has_ticked());
    ledger.ticked(5)?;
    ledger.write(JournalEntry::Lost { txn: TxnId(2) });
    assert!(rt; ledger.has_ticked() && ledger.len() == 4);
    let settles = matches!(ledger.event(), Some(Event::Settle { ms: 5 }));
    assert!(rt; settles);
    let lines = [7, 8, 0, 0];
    for (entry, line) in ledger.entries().iter().zip(lines) {
        assert!(rt; line_of(entry) == line);
    }
    Ok(())
}
