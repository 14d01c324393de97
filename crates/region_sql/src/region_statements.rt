//! Statements on databases, regions and tables. Source: CockroachDB's documentation of multi-region
//! SQL, in this project's profile.

use mr_base::{Bytes, CloneIn, ListOf, Memory};
use std::alloc::Global;

/// What a database is to survive.
#[derive(Clone, Copy, PartialEq, Eq)]
pub enum Goal {
    /// The loss of one zone.
    Zone,
    /// The loss of one region.
    Region,
}

/// Where a table's rows live.
#[derive(Drop)]
pub enum Locality {
    /// REGIONAL BY TABLE IN PRIMARY REGION
    InPrimary,
    /// REGIONAL BY TABLE IN a region
    InRegion { region: Bytes },
    /// REGIONAL BY ROW
    ByRow,
    /// GLOBAL
    Global,
}

/// The type of a column.
#[derive(Clone, Copy)]
pub enum ColumnType {
    /// INT, INT8 or BIGINT: an i64
    Int,
    /// STRING or TEXT
    String,
    Bool,
}

/// What a column says of keys.
#[derive(Clone, Copy)]
pub enum ColumnKey {
    Plain,
    /// PRIMARY KEY
    Primary,
    /// UNIQUE
    Unique,
}

/// An item of CREATE TABLE.
#[derive(Drop)]
pub enum Item {
    Column {
        name: Bytes,
        ty: ColumnType,
        not_null: bool,
        key: ColumnKey,
    },
    /// PRIMARY KEY of these columns
    Key {
        columns: ListOf<Bytes>,
    },
}

/// A statement on a database, its regions or its tables.
#[derive(Drop)]
pub enum RegionStatement {
    CreateDatabase {
        name: Bytes,
        primary: Option<Bytes>,
        regions: ListOf<Bytes>,
        goal: Option<Goal>,
    },
    Use {
        name: Bytes,
    },
    /// ALTER DATABASE .. SET PRIMARY REGION
    SetPrimary {
        database: Bytes,
        region: Bytes,
    },
    /// ALTER DATABASE .. ADD REGION
    AddRegion {
        database: Bytes,
        region: Bytes,
    },
    /// ALTER DATABASE .. DROP REGION
    DropRegion {
        database: Bytes,
        region: Bytes,
    },
    /// ALTER DATABASE .. SURVIVE ZONE FAILURE or REGION FAILURE
    Survive {
        database: Bytes,
        goal: Goal,
    },
    /// ALTER DATABASE .. PLACEMENT RESTRICTED or DEFAULT
    Placement {
        database: Bytes,
        restricted: bool,
    },
    CreateTable {
        name: Bytes,
        items: ListOf<Item>,
        locality: Option<Locality>,
    },
    /// ALTER TABLE .. SET LOCALITY
    SetLocality {
        table: Bytes,
        locality: Locality,
    },
}

impl CloneIn for Locality {
    fn clone_in(&self, alloc: Global) -> Result<Locality, Memory> {
        match self {
            Locality::InPrimary => Ok(Locality::InPrimary),
            Locality::InRegion { region } => Ok(Locality::InRegion {
                region: region.clone_in(alloc)?,
            }),
            Locality::ByRow => Ok(Locality::ByRow),
            Locality::Global => Ok(Locality::Global),
        }
    }
}

impl CloneIn for ColumnType {
    fn clone_in(&self, _alloc: Global) -> Result<ColumnType, Memory> {
        Ok(*self)
    }
}
