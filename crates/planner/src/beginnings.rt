//! How statements begin.

ghost use Rattle.std.specs.Prelude.{◌≡◌, All, IfOk, Some, None};
ghost use Rattle.region_sql.specs.TextLiterals.{TextsAreUtf8};
ghost use Rattle.sql_eval.specs.Execution.{named_table, table_name};
ghost use Rattle.sql_eval.specs.Faults.{check_fault};
ghost use Rattle.sql_eval.specs.Laws.{IsSoundSetting};
ghost use Rattle.sql_eval.specs.Tables.{named};
ghost use Rattle.local_search.specs.LookupOrder.{IsTypedTerm};
ghost use Rattle.planner.specs.Turns.{IsBegun, IsFirstPhase};

use crate::inserts::begin_insert;
use crate::keyed_rows::KeyedRows;
use crate::phases::{Begun, IndexSearch, Phase, RowScan};
use crate::setting::{PlanSetting, partitions_of};
use local_search::row_search;
use mr_base::Memory;
use region_sql::{RowStatement, Term};
use sql_eval::{NamedTable, check};
use std::alloc::Global;

/// The first phase of a statement on a table, or its fault.
pub(crate) fn begin(
    alloc: Global,
    setting: &PlanSetting,
    n: &NamedTable,
    s: &RowStatement,
) -> Result<Begun, Memory>
    requires sound { IsSoundSetting setting.now }
    requires table { named_table setting.now.layout.catalog (table_name s.now) ≡ Some (named n.now) }
    requires texts { TextsAreUtf8 s.now }
    ensures { IfOk result (IsBegun setting.now.layout setting.now.region (named n.now) s.now) }
{
    if let Err(code) = check(s, n.table, n.database) {
        return Ok(Begun::Faulty(code));
    }
    begin_checked(alloc, setting, n, s)
}

/// The first phase of a statement without a fault of its own, or the fault of a row that it makes.
fn begin_checked(
    alloc: Global,
    setting: &PlanSetting,
    n: &NamedTable,
    s: &RowStatement,
) -> Result<Begun, Memory>
    requires sound { IsSoundSetting setting.now }
    requires table { named_table setting.now.layout.catalog (table_name s.now) ≡ Some (named n.now) }
    requires texts { TextsAreUtf8 s.now }
    requires checked { check_fault n.now.table.now n.now.database.now s.now ≡ None }
    ensures { IfOk result (IsBegun setting.now.layout setting.now.region (named n.now) s.now) }
{
    match s {
        RowStatement::Insert {
            table,
            columns,
            rows,
        } => begin_insert(
            alloc,
            setting,
            n,
            table.as_slice(),
            columns.as_slice(),
            rows.as_slice(),
        ),
        RowStatement::Select { table, terms, .. } => {
            let phase = begin_search(alloc, setting, n, table.as_slice(), terms.as_slice())?;
            Ok(Begun::Goes(phase))
        }
        RowStatement::Update { table, terms, .. } => {
            let phase = begin_search(alloc, setting, n, table.as_slice(), terms.as_slice())?;
            Ok(Begun::Goes(phase))
        }
        RowStatement::Delete { table, terms } => {
            let phase = begin_search(alloc, setting, n, table.as_slice(), terms.as_slice())?;
            Ok(Begun::Goes(phase))
        }
    }
}

/// The first phase of a statement that finds rows by these terms: a search by an index of which they fix each
/// column, or else all rows are read.
fn begin_search(
    alloc: Global,
    setting: &PlanSetting,
    n: &NamedTable,
    table: &[u8],
    terms: &[Term],
) -> Result<Phase, Memory>
    requires sound { IsSoundSetting setting.now }
    requires table { named_table setting.now.layout.catalog table.now ≡ Some (named n.now) }
    requires typed { All (IsTypedTerm n.now.table.now) terms.now }
    ensures { IfOk result (IsFirstPhase setting.now.layout setting.now.region (named n.now) terms.now) }
{
    let partitions = partitions_of(alloc, setting, n, table)?;
    let search = row_search(
        alloc,
        n.table,
        partitions.as_slice(),
        setting.region(),
        terms,
    )?;
    match search.index {
        None => Ok(Phase::Scanning(RowScan {
            is_first: true,
            lookups: search.lookups,
            passed: 0,
            rows: KeyedRows::new(alloc),
        })),
        Some(index) => Ok(Phase::Searching(IndexSearch {
            index,
            lookups: search.lookups,
            passed: 0,
        })),
    }
}
