//! What a catalog holds, with the places of databases and tables by name.

ghost use Rattle.std.specs.Prelude.{◌≡◌, ◌<◌, IfSome, position, map, option_and_then, slice_get};
ghost use Rattle.std.specs.Option.{option_copied};
ghost use Rattle.descriptors.specs.Contents.{is_database, is_table, database_named, current_database, current_table};

use crate::database::Database;
use crate::table::Table;
use mr_base::{Bytes, CloneIn, ListOf, Memory};
use name_places::NamePlaces;
use std::alloc::Global;
use std::marker::Model;

/// A database with the places of its tables.
#[derive(Drop)]
pub(crate) struct Entry {
    pub(crate) database: Database,
    pub(crate) tables: NamePlaces,
}

/// What a catalog holds.
#[derive(Drop)]
pub(crate) struct Store {
    pub(crate) alloc: Global,
    pub(crate) regions: ListOf<Bytes>,
    pub(crate) entries: Vec<Entry>,
    pub(crate) tables: Vec<Table>,
    pub(crate) current: Option<usize>,
    pub(crate) places: NamePlaces,
}

impl Model for Store {
    ghost use Rattle.std.specs.Prelude.{map};
    ghost use Rattle.descriptors.specs.Contents.{Contents};

    ghost Value = { Contents };

    ghost use Rattle.descriptors.specs.Index.{IsIndexed};

    ghost view = { λ s. record { regions = s.regions; databases = map (λ e. e.database) s.entries.items; tables = s.tables.items; current = s.current } };

    ghost invariant = { λ s. IsIndexed s.places s.entries.items s.tables.items };
}

impl Store {
    ghost use Rattle.std.specs.Prelude.{[], None, length};

    /// A store over the regions of a cluster, without databases.
    pub(crate) fn new(alloc: Global, regions: ListOf<Bytes>) -> Store
        ensures { result ≡ record { regions = regions; databases = []; tables = []; current = None } }
    {
        Store {
            alloc,
            regions,
            entries: Vec::new(alloc),
            tables: Vec::new(alloc),
            current: None,
            places: NamePlaces::new(alloc),
        }
    }

    /// The place of a database.
    pub(crate) fn place_of_database(&self, name: &[u8]) -> Option<usize>
        ensures place { result ≡ position (is_database name.now) self.now.databases }
        ensures within { IfSome result (λ k. k < length self.now.databases) }
    {
        self.places.place(name)
    }

    /// The database at a place.
    fn database_at(&self, place: usize) -> Option<&Database>
        ensures { option_copied result ≡ slice_get self.now.databases place }
    {
        Some(&self.entries.get(place)?.database)
    }

    /// The database of a name.
    pub(crate) fn database(&self, name: &[u8]) -> Option<&Database>
        ensures { option_copied result ≡ database_named name.now self.now.databases }
    {
        self.database_at(self.place_of_database(name)?)
    }

    /// The current database.
    pub(crate) fn current_database(&self) -> Option<&Database>
        ensures { option_copied result ≡ current_database self.now }
    {
        self.database_at(self.current?)
    }

    /// The table at a place.
    fn table_at(&self, place: usize) -> Option<&Table>
        ensures { option_copied result ≡ slice_get self.now.tables place }
    {
        self.tables.get(place)
    }

    /// The tables of all databases.
    pub(crate) fn tables(&self) -> &[Table]
        ensures { result.now ≡ self.now.tables }
    {
        self.tables.as_slice()
    }

    /// The place of a table in the current database.
    pub(crate) fn place_of_table(&self, name: &[u8]) -> Option<usize>
        ensures { result ≡ option_and_then (λ d. position (is_table d.name name.now) self.now.tables) (current_database self.now) }
    {
        let entry = entry_at(&self.entries, self.current?)?;
        entry.tables.place(name)
    }

    /// The table of a name in the current database.
    pub(crate) fn table(&self, name: &[u8]) -> Option<&Table>
        ensures { option_copied result ≡ current_table self.now name.now }
    {
        self.table_at(self.place_of_table(name)?)
    }
}

/// The entry at a place.
fn entry_at(entries: &[Entry], place: usize) -> Option<&Entry>
    ensures { option_copied result ≡ slice_get entries.now place }
{
    entries.get(place)
}

impl CloneIn for Entry {
    fn clone_in(&self, alloc: Global) -> Result<Entry, Memory> {
        Ok(Entry {
            database: self.database.clone_in(alloc)?,
            tables: self.tables.clone_in(alloc)?,
        })
    }
}

impl CloneIn for Store {
    fn clone_in(&self, alloc: Global) -> Result<Store, Memory> {
        let regions = self.regions.clone_in(alloc)?;
        let entries = ListOf::copy_of(alloc, &self.entries)?;
        let tables = ListOf::copy_of(alloc, &self.tables)?;
        let places = self.places.clone_in(alloc)?;
        Ok(Store {
            alloc,
            regions,
            entries: entries.into_vec(),
            tables: tables.into_vec(),
            current: self.current,
            places,
        })
    }
}
