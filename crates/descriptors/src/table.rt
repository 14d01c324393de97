//! A table and its columns.

ghost use Rattle.std.specs.Prelude.{◌≡◌};

use mr_base::{Bytes, CloneIn, ListOf, Memory};
use region_sql::{ColumnType, Locality};
use std::alloc::Global;

/// A table. `key` and `unique` are places of columns: those of the primary key in the order in which
/// the key names them, and those that are UNIQUE in declared order. In a database without regions a
/// table has no locality.
#[derive(Drop)]
pub struct Table {
    pub name: Bytes,
    pub database: Bytes,
    pub columns: ListOf<(Bytes, ColumnType)>,
    pub key: ListOf<usize>,
    pub unique: ListOf<usize>,
    pub locality: Option<Locality>,
}

impl Table {
    ghost use Rattle.descriptors.specs.Changes.{with_locality};

    /// Where the table lives.
    pub(crate) fn set_locality(&mut self, locality: Locality)
        ensures { self.new ≡ with_locality locality self.old }
    {
        self.locality = Some(locality);
    }
}

impl CloneIn for Table {
    fn clone_in(&self, alloc: Global) -> Result<Table, Memory> {
        Ok(Table {
            name: self.name.clone_in(alloc)?,
            database: self.database.clone_in(alloc)?,
            columns: self.columns.clone_in(alloc)?,
            key: self.key.clone_in(alloc)?,
            unique: self.unique.clone_in(alloc)?,
            locality: self.locality.clone_in(alloc)?,
        })
    }
}
