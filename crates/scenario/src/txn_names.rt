//! The names of transactions.

ghost use Rattle.std.specs.Prelude.{◌≡◌, [], ◌∷◌, ◌++◌, None, OnOk, OnErr, length};
ghost use Rattle.scenario.specs.NamePlaces.{place_of};

use mr_base::{Bytes, Memory};
use name_places::NamePlaces;
use std::alloc::Global;
use std::marker::Model;

/// The names of transactions in the order in which they came. A name is found without a walk over them.
#[derive(Drop)]
pub(crate) struct TxnNames {
    alloc: Global,
    names: Vec<Bytes>,
    places: NamePlaces,
}

impl Model for TxnNames {
    ghost use Rattle.std.specs.Prelude.{ℕ, List, ◌≡◌, ◌≤◌, ◌^◌, length};
    ghost use Rattle.scenario.specs.NamePlaces.{numbered};

    ghost Value = { List (List ℕ) };

    ghost view = { λ n. n.names.items };

    ghost invariant = { λ n. (n.places ≡ numbered 0 n.names.items) × (length n.names.items ≤ 2 ^ 32) };
}

impl TxnNames {
    /// No names.
    pub(crate) fn new(alloc: Global) -> TxnNames
        ensures { result ≡ [] }
    {
        TxnNames {
            alloc,
            names: Vec::new(alloc),
            places: NamePlaces::new(alloc),
        }
    }

    /// The names in order.
    pub(crate) fn as_slice(&self) -> &[Bytes]
        ensures { result.now ≡ self.now }
    {
        self.names.as_slice()
    }

    /// How many names there are.
    pub(crate) fn len(&self) -> usize
        ensures { result ≡ length self.now }
    {
        self.names.len()
    }

    /// The place of a name, from 0 on.
    pub(crate) fn place(&self, name: &[u8]) -> Option<u32>
        ensures { result ≡ place_of self.now name.now }
    {
        let place = self.places.place(name)?;
        u32::try_from(place).ok()
    }

    /// Adds a name that isn't there, with its place. The names are unchanged after want of memory.
    pub(crate) fn push(&mut self, name: Bytes, place: u32) -> Result<(), Memory>
        requires absent { place_of self.old name ≡ None }
        requires next { place ≡ length self.old }
        ensures ok { OnOk result (self.new ≡ self.old ++ name ∷ []) }
        ensures err { OnErr result (self.new ≡ self.old) }
    {
        self.names.reserve(1)?;
        self.places
            .insert(self.alloc, name.as_slice(), place as usize)?;
        match self.names.push(name) {
            Ok(()) => Ok(()),
            Err(_) => unreachable!(),
        }
    }
}
