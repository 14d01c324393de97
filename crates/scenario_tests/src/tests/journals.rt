//! A journal that grows.

use journal::{Journal, JournalEntry};
use mr_base::MsgId;
use std::test::Fail;

#[test]
fn journals_grow(rt: HostRuntime) -> Result<(), Fail> {
    let alloc = rt.alloc();
    let mut journal = Journal::new(alloc);
    journal.push(JournalEntry::Event { line: 5 })?;
    journal.push(JournalEntry::Taken { id: MsgId(1) })?;
    let _ = Journal::of_parts(Vec::new(alloc), Vec::new(alloc));
    Ok(())
}
