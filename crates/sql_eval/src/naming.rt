//! The table that a statement names.

ghost use Rattle.std.specs.Prelude.{◌≡◌, ◌<◌, IfSome, length, option_map, position};
ghost use Rattle.descriptors.specs.Contents.{is_table};
ghost use Rattle.sql_eval.specs.Execution.{named_table, table_name};
ghost use Rattle.sql_eval.specs.Tables.{named};

use descriptors::{Catalog, Database, Table};
use mr_base::Bytes;
use region_sql::RowStatement;

/// A table that a statement names: its place in the catalog, the table, and its database.
#[derive(Clone, Copy)]
pub struct NamedTable<'a> {
    pub place: usize,
    pub table: &'a Table,
    pub database: &'a Database,
}

/// The name of the table on which a statement works.
pub fn table_name(s: &RowStatement) -> &[u8]
    ensures { result.now ≡ table_name s.now }
{
    match s {
        RowStatement::Insert { table, .. } => table.as_slice(),
        RowStatement::Select { table, .. } => table.as_slice(),
        RowStatement::Update { table, .. } => table.as_slice(),
        RowStatement::Delete { table, .. } => table.as_slice(),
    }
}

/// The place of a table among these.
fn place_of(tables: &[Table], t: &Table) -> Option<usize>
    ensures place { result ≡ position (is_table t.now.database t.now.name) tables.now }
    ensures within { IfSome result (λ place. place < length tables.now) }
{
    tables.iter().position(|other| {
        t.database.as_slice() == other.database.as_slice()
            && t.name.as_slice() == other.name.as_slice()
    })
}

/// The table of a name in the current database, if there is one.
#[tactic(auto, using(crate::proofs::NamingSteps::names_none))]
pub fn named_table<'a>(catalog: &'a Catalog, name: &[u8]) -> Option<NamedTable<'a>>
    ensures within { IfSome result (λ n. n.place < length catalog.now.tables) }
    ensures named { option_map named result ≡ named_table catalog.now name.now }
{
    let table = catalog.table(name)?;
    let place = place_of(catalog.tables(), table)?;
    let database = catalog.database(table.database.as_slice())?;
    Some(NamedTable {
        place,
        table,
        database,
    })
}
