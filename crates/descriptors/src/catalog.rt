//! The catalog of databases and tables.

ghost use Rattle.std.specs.Prelude.{◌≡◌, ◌⊎◌, [], IfErr, IfOk, None, OnErr, OnOk, Some};
ghost use Rattle.std.specs.Option.{option_copied};
ghost use Rattle.descriptors.specs.Changes.{after, NewNamesAreUtf8};
ghost use Rattle.descriptors.specs.Contents.{database_named, current_table};
ghost use Rattle.descriptors.specs.Refusals.{refusal_of};

use crate::database::Database;
use crate::refusals::CatalogRefusal;
use crate::store::Store;
use crate::table::Table;
use mr_base::{Bytes, CloneIn, ListOf, Memory};
use region_sql::RegionStatement;
use std::alloc::Global;
use std::marker::Model;

/// The databases and tables of a cluster, and the current database. Every database and table in it is
/// sound. Source of the statements: CockroachDB's documentation of multi-region SQL.
#[derive(Drop)]
pub struct Catalog {
    store: Store,
}

impl Model for Catalog {
    ghost use Rattle.descriptors.specs.Contents.{Contents};
    ghost use Rattle.descriptors.specs.Sound.{IsSoundCatalog};

    ghost Value = { Contents };

    ghost view = { λ c. c.store };

    ghost invariant = { λ c. IsSoundCatalog c.store };
}

impl Catalog {
    ghost use Rattle.descriptors.specs.Sound.{IsCluster, IsSoundCatalog};

    /// A catalog without databases, over the regions of a cluster.
    pub fn new(alloc: Global, regions: &[Bytes]) -> Result<Catalog, Memory>
        requires { IsCluster regions.now }
        ensures { IfOk result (λ c. c ≡ record { regions = regions.now; databases = []; tables = []; current = None }) }
    {
        let regions = ListOf::copy_of(alloc, regions)?;
        let store = Store::new(alloc, regions);
        Ok(Catalog { store })
    }

    /// Carries out a statement, or refuses it and leaves the catalog as it was.
    pub fn apply(&mut self, s: &RegionStatement) -> Result<(), CatalogRefusal>
        requires names { NewNamesAreUtf8 s.now }
        ensures accepted { OnOk result (refusal_of self.old s.now ≡ None) }
        ensures changed { OnOk result (self.new ≡ after self.old s.now) }
        ensures refused { IfErr result (λ e. (refusal_of self.old s.now ≡ Some e) ⊎ (e ≡ CatalogRefusal.Memory)) }
        ensures unchanged { OnErr result (self.new ≡ self.old) }
    {
        match self.store.refusal(s)? {
            Some(refusal) => Err(refusal),
            None => {
                self.store.change(s)?;
                Ok(())
            }
        }
    }

    /// Why `apply` would refuse a statement, if it would. Nothing is copied or changed.
    pub fn refusal(&self, s: &RegionStatement) -> Result<Option<CatalogRefusal>, Memory>
        ensures { IfOk result (λ refusal. refusal ≡ refusal_of self.now s.now) }
    {
        self.store.refusal(s)
    }

    /// The table of a name in the current database.
    pub fn table(&self, name: &[u8]) -> Option<&Table>
        ensures found { option_copied result ≡ current_table self.now name.now }
        ensures sound { IsSoundCatalog self.now }
    {
        self.store.table(name)
    }

    /// The tables of all databases, in the order in which they were made.
    pub fn tables(&self) -> &[Table]
        ensures tables { result.now ≡ self.now.tables }
        ensures sound { IsSoundCatalog self.now }
    {
        self.store.tables()
    }

    /// The database of a name.
    pub fn database(&self, name: &[u8]) -> Option<&Database>
        ensures found { option_copied result ≡ database_named name.now self.now.databases }
        ensures sound { IsSoundCatalog self.now }
    {
        self.store.database(name)
    }
}

impl CloneIn for Catalog {
    fn clone_in(&self, alloc: Global) -> Result<Catalog, Memory> {
        let store = self.store.clone_in(alloc)?;
        Ok(Catalog { store })
    }
}
