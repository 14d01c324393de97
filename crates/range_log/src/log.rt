//! The log of a range, to which its leaseholder appends while a majority of the voters runs.

ghost use Rattle.std.specs.Prelude.{◌≡◌, ◌↔◌, ◌≤◌, ◌<◌, ◌-◌, ◌∷◌, [], List, IfOk, IsTrue, OnOk, OnErr, Some, length, slice_get};
ghost use Rattle.range_log.specs.Appends.{IsMajority, StoppedAreTheOtherVoters, append_answer};
ghost use Rattle.range_log.specs.Facts.{closed_of, lease_of};
ghost use Rattle.range_log.specs.declared.entries.Entry.{Entry};
ghost use Rattle.range_log.specs.declared.entries.Entry.TheVariants as log;

use crate::entries::{Entry, Lease};
use mr_base::{Memory, NodeSet, Ts};
use std::alloc::Global;
use std::marker::Model;

/// The entries of a range, the first of which is a lease, and the replicas that vote on them. What the last
/// lease is and what was closed is kept beside them.
#[derive(Drop)]
pub struct RangeLog {
    voters: NodeSet,
    entries: Vec<Entry>,
    lease: Lease,
    closed: Ts,
}

/// Why an entry wasn't appended.
#[derive(Clone, Copy, PartialEq, Eq)]
pub enum AppendRefusal {
    /// The appender doesn't believe in the last lease, which has this sequence.
    Stale { seq: u32 },
    /// The voters that run are no majority; these are stopped.
    NoQuorum { down: NodeSet },
}

impl Model for RangeLog {
    ghost use Rattle.std.specs.Prelude.{◌-◌, reverse, vec_capacity, vec_len};
    ghost use Rattle.range_log.specs.LogValue.{LogValue};

    ghost Value = { LogValue };

    ghost use Rattle.range_log.specs.Kept.{IsKept};

    ghost view = { λ l. record {
      voters = l.voters;
      entries = reverse l.entries.items;
      room = vec_capacity l.entries - vec_len l.entries;
    } };

    ghost invariant = { λ l. IsKept (reverse l.entries.items) l.lease l.closed };
}

impl RangeLog {
    /// A log whose one entry is the first lease.
    pub fn new(alloc: Global, voters: NodeSet, first: Lease) -> Result<RangeLog, Memory>
        ensures voters { IfOk result (λ l. l.voters ≡ voters) }
        ensures entries { IfOk result (λ l. l.entries ≡ log.Lease first ∷ []) }
    {
        let mut entries = Vec::with_capacity(alloc, 1)?;
        entries.push_reserved(Entry::Lease(first));
        Ok(RangeLog {
            voters,
            entries,
            lease: first,
            closed: Ts::ZERO,
        })
    }

    /// Makes room for `n` more entries at least. After want of memory nothing has changed.
    pub fn reserve(&mut self, n: usize) -> Result<(), Memory>
        ensures room { OnOk result (n ≤ self.new.room) }
        ensures kept { self.old.room ≤ self.new.room }
        ensures entries { self.new ≡ record self.old { room = self.new.room } }
        ensures err { OnErr result (self.new ≡ self.old) }
    {
        self.entries.reserve(n)?;
        Ok(())
    }

    /// Adds an entry for an appender that believes in the lease of this sequence, while these nodes run, and
    /// gives the entry's index, from 1. Nothing changes where it is refused.
    pub fn append(&mut self, e: Entry, seq: u32, running: NodeSet) -> Result<u64, AppendRefusal>
        requires room { 0 < self.old.room }
        ensures answer { result ≡ append_answer self.old seq running }
        ensures appended { OnOk result
            (self.new ≡ record self.old { entries = e ∷ self.old.entries; room = self.old.room - 1 }) }
        ensures refused { OnErr result (self.new ≡ self.old) }
    {
        if seq != self.lease.seq {
            return Err(AppendRefusal::Stale {
                seq: self.lease.seq,
            });
        }
        let up = NodeSet(self.voters.0 & running.0);
        if !is_majority(up, self.voters) {
            let down = NodeSet(self.voters.0 ^ up.0);
            return Err(AppendRefusal::NoQuorum { down });
        }
        self.lease = lease_after(&e, self.lease);
        self.closed = closed_after(&e, self.closed);
        self.entries.push_reserved(e);
        Ok(self.entries.len() as u64)
    }

    /// The replicas that vote.
    pub fn voters(&self) -> NodeSet
        ensures { result ≡ self.now.voters }
    {
        self.voters
    }

    /// How many entries there are.
    pub fn len(&self) -> u64
        ensures { result ≡ length self.now.entries }
    {
        self.entries.len() as u64
    }

    /// The entry of an index, from 1 for the oldest.
    pub fn entry(&self, i: u64) -> &Entry
        requires some { 0 < i }
        requires in_range { i ≤ length self.now.entries }
        ensures { slice_get self.now.entries (length self.now.entries - i) ≡ Some result.now }
    {
        &self.entries[(i - 1) as usize]
    }

    /// The last lease.
    pub fn lease(&self) -> Lease
        ensures { lease_of self.now.entries ≡ Some result }
    {
        self.lease
    }

    /// The greatest timestamp that was closed, the least of all where none was.
    pub fn closed(&self) -> Ts
        ensures { result ≡ closed_of self.now.entries }
    {
        self.closed
    }
}

/// Whether some nodes are more than half of all.
fn is_majority(some: NodeSet, all: NodeSet) -> bool
    ensures { IsTrue result ↔ IsMajority some all }
{
    some.count() > all.count() / 2
}

/// The last lease after an entry was added.
fn lease_after(e: &Entry, last: Lease) -> Lease
    ensures { (older : List Entry) → lease_of older ≡ Some last → lease_of (e.now ∷ older) ≡ Some result }
{
    match e {
        Entry::Lease(lease) => *lease,
        _ => last,
    }
}

/// What was closed after an entry was added.
fn closed_after(e: &Entry, closed: Ts) -> Ts
    ensures { (older : List Entry) → closed_of older ≡ closed → closed_of (e.now ∷ older) ≡ result }
{
    match e {
        Entry::Close(ts) => closed.later(*ts),
        _ => closed,
    }
}

/// The nodes that a refusal for want of a quorum names are the voters that don't run.
pub fn voters_that_are_down()
    ensures { StoppedAreTheOtherVoters }
{}
