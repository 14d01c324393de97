//! The journal of a run with the lines that it comes from.

ghost use Rattle.std.specs.Prelude.{◌≡◌, ◌+◌, ◌-◌, ◌<◌, ◌≤◌, [], ◌∷◌, ◌++◌, OnOk, OnErr, length, option_copied, reverse};
ghost use Rattle.run_ledger.specs.LedgerValue.{made_all};
ghost use Rattle.run_words.specs.History.{Ran, Ticked, Made, journal_of};
ghost use Rattle.run_words.specs.Steps as steps;

use crate::marks::Mark;
use journal::{Event, JournalEntry};
use mr_base::Memory;
use std::alloc::Global;
use std::marker::Model;

/// All that happened in a run, newest first, and how many entries can be written without memory. It keeps the
/// journal as it is printed, and beside it the events of the lines that were run and where lines and ticks stand.
#[derive(Drop)]
pub struct Ledger {
    entries: Vec<JournalEntry>,
    events: Vec<Event>,
    marks: Vec<Mark>,
    /// How many entries stand behind the last mark.
    behind: usize,
    has_entry: bool,
    has_ticked: bool,
}

impl Model for Ledger {
    ghost use Rattle.std.specs.Prelude.{◌-◌, reverse, vec_capacity, vec_len};
    ghost use Rattle.run_ledger.specs.LedgerValue.{LedgerValue};
    ghost use Rattle.run_ledger.specs.Kept.{IsKept, history_of};

    ghost Value = { LedgerValue };

    ghost view = { λ l. record {
      history = history_of l.behind (reverse l.entries.items) (reverse l.marks.items) (reverse l.events.items);
      room = vec_capacity l.entries - vec_len l.entries;
    } };

    ghost invariant = { λ l.
        IsKept (history_of l.behind (reverse l.entries.items) (reverse l.marks.items) (reverse l.events.items))
        l.behind l.entries.items l.events.items l.has_entry l.has_ticked };
}

impl Ledger {
    /// A ledger in which nothing happened yet. It takes no memory.
    pub fn new(alloc: Global) -> Ledger
        ensures { result.history ≡ [] }
    {
        Ledger {
            entries: Vec::new(alloc),
            events: Vec::new(alloc),
            marks: Vec::new(alloc),
            behind: 0,
            has_entry: false,
            has_ticked: false,
        }
    }

    /// Makes room for `n` more entries at least. After want of memory nothing has changed.
    pub fn reserve(&mut self, n: usize) -> Result<(), Memory>
        ensures room { OnOk result (n ≤ self.new.room) }
        ensures kept { self.old.room ≤ self.new.room }
        ensures history { self.new ≡ record self.old { room = self.new.room } }
        ensures err { OnErr result (self.new ≡ self.old) }
    {
        self.entries.reserve(n)?;
        Ok(())
    }

    /// A line of the scenario is run, which is an entry of the journal. Nothing has happened after want of memory.
    pub fn line(&mut self, number: u32, event: Event) -> Result<(), Memory>
        ensures ran { OnOk result (self.new.history ≡ Ran number event ∷ self.old.history) }
        ensures room { self.old.room ≤ self.new.room + 1 }
        ensures err { OnErr result (self.new.history ≡ self.old.history) }
    {
        self.entries.reserve(1)?;
        self.marks.reserve(1)?;
        self.events.push(event)?;
        self.marks.push_reserved(Mark::Line {
            number,
            before: self.behind,
        });
        self.entries
            .push_reserved(JournalEntry::Event { line: number });
        self.behind = 0;
        self.has_entry = false;
        self.has_ticked = false;
        Ok(())
    }

    /// The clocks tick inside a `settle` line, by so many milliseconds, which isn't an entry. Nothing has happened
    /// after want of memory.
    pub fn ticked(&mut self, ms: u64) -> Result<(), Memory>
        ensures ticked { OnOk result (self.new ≡ record self.old { history = Ticked ms ∷ self.old.history }) }
        ensures err { OnErr result (self.new ≡ self.old) }
    {
        self.marks.push(Mark::Tick {
            ms,
            before: self.behind,
        })?;
        self.behind = 0;
        self.has_ticked = true;
        Ok(())
    }

    /// An entry is made.
    pub fn write(&mut self, made: JournalEntry)
        requires room { 0 < self.old.room }
        ensures { self.new ≡ record self.old { history = Made made ∷ self.old.history; room = self.old.room - 1 } }
    {
        self.entries.push_reserved(made);
        self.behind += 1;
        self.has_entry = true;
    }

    /// Entries are made, which are given oldest first. Nothing has happened after want of memory.
    pub fn write_all(&mut self, made: Vec<JournalEntry>) -> Result<(), Memory>
        ensures made { OnOk result (self.new.history ≡ made_all made.items ++ self.old.history) }
        ensures err { OnErr result (self.new.history ≡ self.old.history) }
    {
        if made.is_empty() {
            return Ok(());
        }
        let mut made = made;
        let count = made.len();
        self.entries.append(&mut made)?;
        self.behind += count;
        self.has_entry = true;
        Ok(())
    }

    /// The entries of the journal, oldest first.
    pub fn entries(&self) -> &[JournalEntry]
        ensures { journal_of self.now.history ≡ reverse result.now }
    {
        self.entries.as_slice()
    }

    /// How many entries the journal has.
    pub fn len(&self) -> usize
        ensures { result ≡ length (journal_of self.now.history) }
    {
        self.entries.len()
    }

    /// The event of the line that was run last.
    pub fn event(&self) -> Option<&Event>
        ensures { option_copied result ≡ steps.event_of self.now.history }
    {
        self.events.last()
    }

    /// Whether an entry stands behind the last line.
    pub fn has_entry(&self) -> bool
        ensures { result ≡ steps.has_entry self.now.history }
    {
        self.has_entry
    }

    /// Whether the tick inside the last line has been.
    pub fn has_ticked(&self) -> bool
        ensures { result ≡ steps.has_ticked self.now.history }
    {
        self.has_ticked
    }
}
