//! Where a node believes the leaseholder of each range to be.

ghost use Rattle.std.specs.Prelude.{◌≡◌, ◌<◌, ◌++◌, [], ◌∷◌, OnErr, OnOk, Some, length, slice_get, slice_set};
ghost use Rattle.request_routes.specs.Hints.{first_hint, hint_at_start, hint_of, newer_hint};

use mr_base::{Memory, NodeId};
use range_log::Lease;
use std::alloc::Global;
use std::marker::Model;

/// A lease as a node knows it: its sequence, and the node that holds it.
#[derive(Clone, Copy)]
pub struct Hint {
    pub seq: u32,
    pub holder: NodeId,
}

/// The hints of one node, by the places of the ranges. Contracts see them as their list.
#[derive(Drop)]
pub struct Hints {
    by_place: Vec<Hint>,
}

impl Model for Hints {
    ghost use Rattle.std.specs.Prelude.{List};
    ghost use Rattle.request_routes.specs.declared.hints.Hint.{Hint};

    ghost Value = { List Hint };

    ghost view = { λ h. h.by_place.items };
}

impl Hint {
    /// What a lease tells.
    pub fn of(lease: Lease) -> Hint
        ensures { result ≡ hint_of lease }
    {
        Hint {
            seq: lease.seq,
            holder: lease.holder,
        }
    }

    /// This hint where it is of a later lease than the old one, else the old one.
    fn unless_older(self, old: Hint) -> Hint
        ensures { result ≡ newer_hint self old }
    {
        if old.seq < self.seq { self } else { old }
    }

    /// The hint with which a range begins: its first lease, of its first voter.
    fn first(holder: NodeId) -> Hint
        ensures { result ≡ first_hint holder }
    {
        Hint { seq: 1, holder }
    }
}

impl Hints {
    /// No hints, which take no memory.
    pub fn new(alloc: Global) -> Hints
        ensures { result ≡ [] }
    {
        Hints {
            by_place: Vec::new(alloc),
        }
    }

    /// Adds the first hint of the next range, whose first voter is `holder`. Unchanged after want of memory.
    pub fn add_range(&mut self, holder: NodeId) -> Result<(), Memory>
        ensures ok { OnOk result (self.new ≡ self.old ++ first_hint holder ∷ []) }
        ensures err { OnErr result (self.new ≡ self.old) }
    {
        self.by_place.push(Hint::first(holder))?;
        Ok(())
    }

    /// How many ranges there are.
    pub fn len(&self) -> usize
        ensures { result ≡ length self.now }
    {
        self.by_place.len()
    }

    /// The hint of the range at a place.
    pub fn at(&self, place: usize) -> Hint
        requires { place < length self.now }
        ensures { slice_get self.now place ≡ Some result }
    {
        self.by_place[place]
    }

    /// The node's own replica has applied a lease: it counts, also where its sequence is lower.
    pub fn learn_applied(&mut self, place: usize, lease: Lease)
        requires { place < length self.old }
        ensures { self.new ≡ slice_set self.old place (hint_of lease) }
    {
        self.by_place[place] = Hint::of(lease);
    }

    /// A reply has told a lease: it counts where its sequence is higher.
    pub fn learn_told(&mut self, place: usize, told: Hint)
        requires { place < length self.old }
        ensures count { length self.new ≡ length self.old }
        ensures hint { (old : Hint) → slice_get self.old place ≡ Some old →
            self.new ≡ slice_set self.old place (newer_hint told old) }
    {
        self.by_place[place] = told.unless_older(self.by_place[place]);
    }

    /// The node was started again: what is left is the last lease that its own replica has applied, and the first
    /// hint, of the first voter `first`, where it has none.
    pub fn restart(&mut self, place: usize, applied: Option<Lease>, first: NodeId)
        requires { place < length self.old }
        ensures { self.new ≡ slice_set self.old place (hint_at_start applied first) }
    {
        self.by_place[place] = match applied {
            Some(lease) => Hint::of(lease),
            None => Hint::first(first),
        };
    }
}
