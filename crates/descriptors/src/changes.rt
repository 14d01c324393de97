//! What accepted statements make of a store.

ghost use Rattle.std.specs.Prelude.{◌≡◌, ◌≢◌, ◌<◌, [], ◌∷◌, ◌++◌, All, AllPairs, IsSomeAnd, IfOk, OnOk, OnErr, None, Some, false, length, map, position, vec_len, vec_capacity};
ghost use Rattle.std.specs.Option.{option_map_or};
ghost use Rattle.std.specs.Str.{bytes_eq};
ghost use Rattle.descriptors.specs.Contents.{is_database, is_table, database_named, table_named, current_database, current_table};
ghost use Rattle.descriptors.specs.Lists.{changed};
ghost use Rattle.descriptors.specs.Refusals.{of_database, has_regions, refusal_of};
ghost use Rattle.descriptors.specs.Changes.{after, altered, with_table, with_locality, with_database, homed_in_primary};

use crate::database::Database;
use crate::made::{database_made, table_made};
use crate::store::{Entry, Store};
use crate::table::Table;
use mr_base::{CloneIn, Memory};
use name_places::NamePlaces;
use region_sql::{Item, Locality, RegionStatement};
use std::alloc::Global;

impl Store {
    ghost use Rattle.descriptors.specs.Sound.{IsSoundCatalog};

    /// Carries out a statement that isn't refused. The store is unchanged after want of memory.
    pub(crate) fn change(&mut self, s: &RegionStatement) -> Result<(), Memory>
        requires sound { IsSoundCatalog self.old }
        requires accepted { refusal_of self.old s.now ≡ None }
        ensures ok { OnOk result (self.new ≡ after self.old s.now) }
        ensures err { OnErr result (self.new ≡ self.old) }
    {
        match s {
            RegionStatement::CreateDatabase {
                name,
                primary,
                regions,
                goal,
            } => {
                let name = name.as_slice();
                let made = database_made(self.alloc, name, primary, regions.as_slice(), *goal)?;
                self.add_database(made)
            }
            RegionStatement::Use { name } => {
                self.set_current(name.as_slice());
                Ok(())
            }
            RegionStatement::SetPrimary { database, region } => {
                self.change_primary(s, database.as_slice(), region.as_slice())
            }
            RegionStatement::AddRegion { database, .. }
            | RegionStatement::DropRegion { database, .. }
            | RegionStatement::Survive { database, .. }
            | RegionStatement::Placement { database, .. } => {
                self.alter_database(s, database.as_slice())
            }
            RegionStatement::CreateTable {
                name,
                items,
                locality,
            } => self.create_table(name.as_slice(), items.as_slice(), locality),
            RegionStatement::SetLocality { table, locality } => {
                self.set_locality(table.as_slice(), locality.clone_in(self.alloc)?);
                Ok(())
            }
        }
    }

    /// CREATE TABLE. The store is unchanged after want of memory.
    fn create_table(
        &mut self,
        name: &[u8],
        items: &[Item],
        locality: &Option<Locality>,
    ) -> Result<(), Memory>
        requires absent { current_table self.old name.now ≡ None }
        requires names { AllPairs (λ d e. d.name ≢ e.name) self.old.databases }
        ensures ok { OnOk result (self.new ≡ after self.old (RegionStatement.CreateTable name.now items.now locality.now)) }
        ensures err { OnErr result (self.new ≡ self.old) }
    {
        match self.current_database() {
            Some(database) => {
                let made = table_made(self.alloc, database, name, items, locality)?;
                self.add_table(made)
            }
            None => Ok(()),
        }
    }

    /// A new database, which is the current one from then on. The store is unchanged after want of memory.
    fn add_database(&mut self, database: Database) -> Result<(), Memory>
        requires absent { database_named database.name self.old.databases ≡ None }
        requires alone { All (λ t. bytes_eq database.name t.database ≡ false) self.old.tables }
        ensures ok { OnOk result (self.new ≡ record self.old { databases = self.old.databases ++ database ∷ []; current = Some (length self.old.databases) }) }
        ensures err { OnErr result (self.new ≡ self.old) }
    {
        let place = self.entries.len();
        self.entries.reserve(1)?;
        self.places
            .insert(self.alloc, database.name.as_slice(), place)?;
        let tables = NamePlaces::new(self.alloc);
        push_within(&mut self.entries, Entry { database, tables });
        self.current = Some(place);
        Ok(())
    }

    /// USE
    fn set_current(&mut self, name: &[u8])
        ensures { self.new ≡ record self.old { current = position (is_database name.now) self.old.databases } }
    {
        self.current = self.place_of_database(name);
    }

    /// A new table of the current database. The store is unchanged after want of memory.
    fn add_table(&mut self, table: Table) -> Result<(), Memory>
        requires current { IsSomeAnd (current_database self.old) (λ d. d.name ≡ table.database) }
        requires absent { table_named table.database table.name self.old.tables ≡ None }
        requires names { AllPairs (λ d e. d.name ≢ e.name) self.old.databases }
        ensures ok { OnOk result (self.new ≡ with_table self.old table) }
        ensures err { OnErr result (self.new ≡ self.old) }
    {
        if let Some(place) = self.current {
            let last = self.tables.len();
            self.tables.reserve(1)?;
            self.entries[place]
                .tables
                .insert(self.alloc, table.name.as_slice(), last)?;
            push_within(&mut self.tables, table);
        }
        Ok(())
    }

    /// Where a table of the current database lives.
    fn set_locality(&mut self, name: &[u8], locality: Locality)
        ensures { self.new ≡ option_map_or (λ d. record self.old { tables = changed (is_table d.name name.now) (with_locality locality) self.old.tables }) (current_database self.old) self.old }
    {
        if let Some(place) = self.place_of_table(name) {
            self.tables[place].set_locality(locality);
        }
    }

    /// Whether the database of a name has regions.
    fn has_regions_in(&self, name: &[u8]) -> bool
        ensures { result ≡ of_database self.now name.now has_regions }
    {
        match self.database(name) {
            Some(database) => database.has_regions(),
            None => false,
        }
    }

    /// SET PRIMARY REGION. The store is unchanged after want of memory.
    fn change_primary(
        &mut self,
        s: &RegionStatement,
        name: &[u8],
        region: &[u8],
    ) -> Result<(), Memory>
        requires { s.now ≡ RegionStatement.SetPrimary name.now region.now }
        ensures ok { OnOk result (self.new ≡ after self.old (RegionStatement.SetPrimary name.now region.now)) }
        ensures err { OnErr result (self.new ≡ self.old) }
    {
        if self.has_regions_in(name) {
            return self.alter_database(s, name);
        }
        self.alter_database(s, name)?;
        self.home_tables(name);
        Ok(())
    }

    /// ALTER DATABASE. The store is unchanged after want of memory.
    fn alter_database(&mut self, s: &RegionStatement, name: &[u8]) -> Result<(), Memory>
        ensures ok { OnOk result (self.new ≡ with_database self.old name.now (altered s.now)) }
        ensures err { OnErr result (self.new ≡ self.old) }
    {
        if let Some(place) = self.place_of_database(name) {
            self.entries[place].database.alter(self.alloc, s)?;
        }
        Ok(())
    }

    /// The tables of a database in its primary region.
    fn home_tables(&mut self, name: &[u8])
        ensures { self.new ≡ record self.old { tables = map (homed_in_primary name.now) self.old.tables } }
    {
        home_in_primary(&mut self.tables, name);
    }
}

/// The tables of a database in its primary region.
fn home_in_primary(tables: &mut [Table], name: &[u8])
    ensures { tables.new ≡ map (homed_in_primary name.now) tables.old }
{
    for table in tables.iter_mut() {
        home(table, name);
    }
}

/// A table in its database's primary region, if it is of this database.
fn home(table: &mut Table, name: &[u8])
    ensures { table.new ≡ homed_in_primary name.now table.old }
{
    if name == table.database.as_slice() {
        table.set_locality(Locality::InPrimary);
    }
}

/// Adds an item where there is room.
fn push_within<T: Drop>(items: &mut Vec<T>, item: T)
    requires { vec_len items.old < vec_capacity items.old }
    ensures { items.new.items ≡ items.old.items ++ item ∷ [] }
{
    match items.push(item) {
        Ok(()) => {}
        Err(_) => unreachable!(),
    }
}
