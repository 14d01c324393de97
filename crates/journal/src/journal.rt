//! The journal of a run.

ghost use Rattle.std.specs.Prelude.{◌≡◌, List, [], ◌∷◌, ◌++◌, reverse, OnOk, OnErr};

use crate::entries::JournalEntry;
use mr_base::Memory;
use std::alloc::Global;
use std::marker::Model;

/// The entries of a run. Contracts see them as a list, the newest first, so that what stands after an
/// entry of the list is what was there before it.
#[derive(Drop)]
pub struct Journal {
    earlier: Vec<JournalEntry>,
    entries: Vec<JournalEntry>,
}

impl Model for Journal {
    ghost use Rattle.std.specs.Prelude.{List, ◌++◌, reverse};
    ghost use Rattle.journal.specs.declared.entries.JournalEntry.{JournalEntry};

    ghost Value = { List JournalEntry };

    ghost view = { λ j. reverse j.entries.items ++ reverse j.earlier.items };
}

impl Journal {
    /// A journal without entries, which takes no memory.
    pub fn new(alloc: Global) -> Journal
        ensures { result ≡ [] }
    {
        Journal {
            earlier: Vec::new(alloc),
            entries: Vec::new(alloc),
        }
    }

    /// The entries of `earlier`, oldest first, and then those of `entries`, without taking memory.
    pub fn of_parts(earlier: Vec<JournalEntry>, entries: Vec<JournalEntry>) -> Journal
        ensures { result ≡ reverse entries.items ++ reverse earlier.items }
    {
        Journal { earlier, entries }
    }

    /// Adds an entry as the newest. The journal is unchanged after want of memory.
    pub fn push(&mut self, e: JournalEntry) -> Result<(), Memory>
        ensures ok { OnOk result (self.new ≡ e ∷ self.old) }
        ensures err { OnErr result (self.new ≡ self.old) }
    {
        self.entries.push(e)?;
        Ok(())
    }
}
