//! The places of names.

ghost use Rattle.std.specs.Prelude.{◌≡◌, [], ◌∷◌, ◌++◌, None, OnOk, OnErr};
ghost use Rattle.std.specs.Map.{lookup};
ghost use Rattle.std.specs.Str.{bytes_eq};

use indexmap::IndexMap;
use mr_base::{CloneIn, Memory};
use std::alloc::Global;
use std::marker::Model;

/// The places of named things, found by name without a walk over them. The names stand in the order in
/// which they were inserted.
#[derive(Drop)]
pub struct NamePlaces {
    places: IndexMap<Vec<u8>, usize>,
}

impl Model for NamePlaces {
    ghost use Rattle.std.specs.Prelude.{ℕ, List, map};

    ghost Value = { List (List ℕ × ℕ) };

    ghost view = { λ n. map (λ e. (e.0.items, e.1)) n.places.entries };
}

impl NamePlaces {
    /// No names.
    pub fn new(alloc: Global) -> NamePlaces
        ensures { result ≡ [] }
    {
        NamePlaces {
            places: IndexMap::new(alloc),
        }
    }

    /// The place that a name was inserted with; none where it wasn't.
    pub fn place(&self, name: &[u8]) -> Option<usize>
        ensures { result ≡ lookup (bytes_eq name.now) self.now }
    {
        self.places.get(name).copied()
    }

    /// Adds a name that isn't there. They are unchanged after want of memory.
    pub fn insert(&mut self, alloc: Global, name: &[u8], place: usize) -> Result<(), Memory>
        requires absent { lookup (bytes_eq name.now) self.old ≡ None }
        ensures ok { OnOk result (self.new ≡ self.old ++ (name.now, place) ∷ []) }
        ensures err { OnErr result (self.new ≡ self.old) }
    {
        let key = Vec::from_slice(alloc, name)?;
        self.places.insert(key, place)?;
        Ok(())
    }
}

impl CloneIn for NamePlaces {
    fn clone_in(&self, _alloc: Global) -> Result<NamePlaces, Memory> {
        let places = self.places.clone()?;
        Ok(NamePlaces { places })
    }
}
