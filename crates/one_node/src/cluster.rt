//! The cluster and its journal.

ghost use Rattle.std.specs.Prelude.{◌≡◌, ◌<◌, ◌^◌, ◌++◌, [], reverse, OnOk, OnErr};
ghost use Rattle.one_node_laws.specs.LinesRun.{LinesRun, IsNextLine, no_lines, with_line};
ghost use Rattle.region_sql.specs.OneColumnForms.{IsTaken};
ghost use Rattle.journal.specs.declared.events.Event.{Event};
ghost use Rattle.one_node.specs.Bounds.{AreSettings};
ghost use Rattle.one_node.specs.Cluster.{IsStep, GoesOn, Continues, IsRunOf};
ghost use Rattle.one_node_laws.specs.Words.{the_node};
ghost use Rattle.mr_base.specs.declared.settings.Kind.TheVariants as kinds;

use crate::clock::Clock;
use crate::courses::course_of;
use crate::range::Range;
use crate::steps::{begin_steps, lease_until, transaction_steps};
use crate::transaction::Begun;
use journal::{Event, Journal, JournalEntry};
use mr_base::{AttemptId, Memory, Settings, TxnId};
use region_sql::{OneColumnStatement, one_column_statement};
use std::alloc::Global;
use std::marker::Model;

/// A cluster of one node with one range.
#[derive(Drop)]
pub struct Cluster {
    alloc: Global,
    settings: Settings,
    clock: Clock,
    attempts: u32,
    range: Range,
    journal: Vec<JournalEntry>,
}

impl Model for Cluster {
    ghost use Rattle.std.specs.Prelude.{reverse};
    ghost use Rattle.one_node.specs.Bounds.{IsSound};
    ghost use Rattle.one_node.specs.Kept.{IsKnown, IsLasting};
    ghost use Rattle.one_node.specs.View.{View};

    ghost Value = { View };

    ghost view = { λ c. record { settings = c.settings; physical = c.clock.physical; journal = reverse c.journal.items } };

    ghost invariant = { λ c. IsSound c.settings c.clock.physical c.clock.kept c.attempts × IsKnown c.clock.kept c.attempts c.range (reverse c.journal.items) × IsLasting c.settings c.clock.physical c.range };
}

impl Cluster {
    /// A cluster whose node has this physical clock, in milliseconds, before its range is made.
    pub fn new(alloc: Global, settings: Settings, clock: u64) -> Cluster
        requires settings { AreSettings settings }
        requires clock { clock < 2 ^ 53 }
        ensures made { result ≡ record { settings = settings; physical = clock; journal = [] } }
        ensures run { IsRunOf (no_lines settings clock) result }
    {
        Cluster {
            alloc,
            settings,
            clock: Clock::new(clock),
            attempts: 0,
            range: Range::new(alloc),
            journal: Vec::new(alloc),
        }
    }

    /// The entries made so far, the oldest first.
    pub fn journal(&self) -> &[JournalEntry]
        ensures { reverse result.now ≡ self.now.journal }
    {
        self.journal.as_slice()
    }

    /// The entries of `before`, the oldest first, and then the cluster's, without taking memory.
    pub fn into_journal(self, before: Vec<JournalEntry>) -> Journal
        ensures { result ≡ self.journal ++ reverse before.items }
    {
        let Cluster {
            alloc: _,
            settings: _,
            clock: _,
            attempts: _,
            range: _,
            journal,
        } = self;
        Journal::of_parts(before, journal)
    }

    /// Makes the entries of a line, after those made so far. Want of memory leaves the cluster as it was.
    pub fn step(&mut self, line: u32, e: &Event) -> Result<(), Memory>
        requires { IsStep self.old e.now }
        // Where the cluster has run some lines and this may be the next, it has run it too.
        ensures run { OnOk result ((s : LinesRun) → IsRunOf s self.old → IsNextLine s line e.now → IsRunOf (with_line s line e.now) self.new) }
        ensures ok { OnOk result (GoesOn self.old e.now self.new) }
        ensures err { OnErr result (self.new ≡ self.old) }
    {
        match e {
            Event::Begin => self.begin(line),
            Event::Txn { txn, list, .. } => self.transaction(line, *txn, list.as_slice()),
            _ => unreachable!(),
        }
    }

    fn begin(&mut self, line: u32) -> Result<(), Memory>
        requires { IsStep self.old Event.Begin }
        ensures run { OnOk result ((s : LinesRun) → IsRunOf s self.old → IsNextLine s line Event.Begin → IsRunOf (with_line s line Event.Begin) self.new) }
        ensures ok { OnOk result (GoesOn self.old Event.Begin self.new) }
        ensures err { OnErr result (self.new ≡ self.old) }
    {
        let lease = lease_until(self.clock.reading().wall + self.settings.lease);
        let mut steps = begin_steps(self.alloc, line, lease)?;
        self.journal.append(&mut steps)?;
        self.range.lease = Some(lease);
        self.range.length = 1;
        Ok(())
    }

    fn transaction(&mut self, line: u32, txn: TxnId, list: &[u8]) -> Result<(), Memory>
        requires { IsStep self.old (Event.Txn txn the_node kinds.Now list.now) }
        ensures run { OnOk result ((s : LinesRun) → IsRunOf s self.old → IsNextLine s line (Event.Txn txn the_node kinds.Now list.now) → IsRunOf (with_line s line (Event.Txn txn the_node kinds.Now list.now)) self.new) }
        ensures ok { OnOk result (Continues self.old (λ t. t ≡ txn) self.new) }
        ensures err { OnErr result (self.new ≡ self.old) }
    {
        let Some(statement) = one_column_statement(list) else {
            unreachable!();
        };
        let Some(attempt) = self.attempts.checked_add(1) else {
            return Err(Memory);
        };
        let start = self.clock.next();
        let begun = Begun {
            txn,
            attempt: AttemptId(attempt),
            start: start.owned_by(attempt),
            limit: start.wall + self.settings.max_offset,
        };
        let course = course_of(&self.range, begun, statement);
        let shows = Clock {
            kept: start,
            ..self.clock
        };
        let mut steps = transaction_steps(
            self.alloc,
            &self.range,
            line,
            begun,
            course,
            shows.reading(),
        )?;
        self.journal.reserve(steps.len())?;
        self.range.take_in(course)?;
        if self.journal.append(&mut steps).is_err() {
            unreachable!();
        }
        self.range.floor = begun.start;
        self.clock.kept = start;
        self.attempts = attempt;
        Ok(())
    }
}
