//! The line of counts of a journal.

ghost use Rattle.std.specs.Prelude.{◌≡◌, IfOk};
ghost use Rattle.journal_text.specs.CountsText.{count_of, counts_text, is_counted};

use crate::buffer::TextBuffer;
use journal::JournalEntry;
use mr_base::{Bytes, Memory};
use std::alloc::Global;

/// What a summary counts: transactions by how they ended, and retries.
#[derive(Clone, Copy)]
enum Counted {
    Acked,
    Faulted,
    Refused,
    Lost,
    Retries,
}

#[tactic(auto, unfolding(crate::specs::CountsText::is_counted))]
fn is_counted(counted: Counted, entry: &JournalEntry) -> bool
    ensures { result ≡ is_counted counted entry.now }
{
    match counted {
        Counted::Acked => matches!(entry, JournalEntry::Ack { .. }),
        Counted::Faulted => matches!(entry, JournalEntry::Fault { .. }),
        Counted::Refused => matches!(entry, JournalEntry::Refuse { .. }),
        Counted::Lost => matches!(entry, JournalEntry::Lost { .. }),
        Counted::Retries => matches!(entry, JournalEntry::Retry { .. }),
    }
}

/// How many entries count as this.
fn count_of(counted: Counted, entries: &[JournalEntry]) -> usize
    ensures { result ≡ count_of counted entries.now }
{
    let mut count = 0;
    for entry in entries {
        if is_counted(counted, entry) {
            count += 1;
        }
    }
    count
}

/// The line of counts of a journal's entries: the transactions that were acknowledged, that ended with a
/// fault, that were refused and that were lost, and the retries.
#[tactic(auto, unfolding(crate::specs::CountsText::counts_text))]
pub fn counts_of(alloc: Global, entries: &[JournalEntry]) -> Result<Bytes, Memory>
    ensures counts { IfOk result (λ text. text ≡ counts_text entries.now) }
{
    let mut text = TextBuffer::new(alloc);
    text.add_field("acked ", &count_of(Counted::Acked, entries))?;
    text.add_field(" faulted ", &count_of(Counted::Faulted, entries))?;
    text.add_field(" refused ", &count_of(Counted::Refused, entries))?;
    text.add_field(" lost ", &count_of(Counted::Lost, entries))?;
    text.add_field(" retries ", &count_of(Counted::Retries, entries))?;
    text.end_line()?;
    Ok(text.into_bytes())
}
