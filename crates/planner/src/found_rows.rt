//! What statements do with the rows that they found.

ghost use Rattle.std.specs.Prelude.{◌≡◌, ◌++◌, [], All, IfOk, Some, None, length};
ghost use Rattle.mr_base.specs.declared.results.Verb.TheVariants as verbs;
ghost use Rattle.region_sql.specs.TextLiterals.{TextsAreUtf8};
ghost use Rattle.row_locality.specs.Plain.{IsRowOf};
ghost use Rattle.sql_eval.specs.Evaluation.{additions, partitions_of, removals, rows_of};
ghost use Rattle.sql_eval.specs.Execution.{count_answer, named_table, rows_answer, table_name};
ghost use Rattle.sql_eval.specs.Faults.{check_fault};
ghost use Rattle.sql_eval.specs.Laws.{IsSoundSetting};
ghost use Rattle.sql_eval.specs.Lookups.{changed_row_lookups};
ghost use Rattle.sql_eval.specs.RowWords.{has_twins, shown_rows};
ghost use Rattle.sql_eval.specs.Tables.{named};
ghost use Rattle.planner.specs.Phases.{AreKeyedRowsOf, MayFind, scanned_rows, terms_of};
ghost use Rattle.planner.specs.RowWrites.{unchecked};
ghost use Rattle.planner.specs.Turns.{IsFound};

use crate::keyed_rows::KeyedRows;
use crate::phases::{Found, UniqueCheck};
use crate::row_writes::{StatementOutcome, removals, replacements};
use crate::setting::{PlanSetting, partitions_of};
use descriptors::Table;
use local_search::changed_row_lookups;
use mr_base::{EvalFault, ListOf, Memory};
use region_sql::{RowStatement, Target, Term, Wanted};
use sql_eval::{NamedTable, RowChanges, delete, has_twins, select, update};
use std::alloc::Global;

/// The check of the new rows of a statement that has read these rows, or its fault.
pub(crate) fn found(
    alloc: Global,
    setting: &PlanSetting,
    n: &NamedTable,
    s: &RowStatement,
    rows: KeyedRows,
) -> Result<Found, Memory>
    requires sound { IsSoundSetting setting.now }
    requires table { named_table setting.now.layout.catalog (table_name s.now) ≡ Some (named n.now) }
    requires texts { TextsAreUtf8 s.now }
    requires finds { MayFind (named n.now) s.now }
    requires rows { AreKeyedRowsOf setting.now.layout.catalog n.now.table.now rows }
    ensures { IfOk result (IsFound setting.now.layout (named n.now) s.now
        (scanned_rows n.now.table.now (terms_of s.now) rows [])) }
{
    match s {
        RowStatement::Insert { .. } => unreachable!(),
        RowStatement::Select { wanted, terms, .. } => {
            let outcome = found_select(alloc, n.table, wanted, terms.as_slice(), rows)?;
            Ok(Found::Goes(unchecked(alloc, outcome)))
        }
        RowStatement::Update {
            table,
            targets,
            terms,
        } => found_update(
            alloc,
            setting,
            n,
            table.as_slice(),
            targets.as_slice(),
            terms.as_slice(),
            rows,
        ),
        RowStatement::Delete { table, terms } => {
            let (table, terms) = (table.as_slice(), terms.as_slice());
            let outcome = found_delete(alloc, setting, n, table, terms, rows)?;
            Ok(Found::Goes(unchecked(alloc, outcome)))
        }
    }
}

/// The check of a statement without new rows.
fn unchecked(alloc: Global, outcome: StatementOutcome) -> UniqueCheck
    ensures { result ≡ unchecked outcome }
{
    UniqueCheck {
        lookups: ListOf::new(alloc),
        passed: 0,
        replaced: KeyedRows::new(alloc),
        has_twins: false,
        outcome,
    }
}

/// What a SELECT comes to that has read these rows.
fn found_select(
    alloc: Global,
    t: &Table,
    wanted: &Wanted,
    terms: &[Term],
    rows: KeyedRows,
) -> Result<StatementOutcome, Memory>
    ensures { IfOk result (λ x. x ≡ record {
      answer = rows_answer (shown_rows t.now wanted.now (rows_of (scanned_rows t.now terms.now rows [])));
      writes = [];
    }) }
{
    let found = rows.into_matching(t, terms).rows(alloc)?;
    let answer = select(alloc, t, wanted, terms, found.as_slice())?;
    Ok(StatementOutcome {
        answer,
        writes: ListOf::new(alloc),
    })
}

/// What a DELETE comes to that has read these rows.
fn found_delete(
    alloc: Global,
    setting: &PlanSetting,
    n: &NamedTable,
    table: &[u8],
    terms: &[Term],
    rows: KeyedRows,
) -> Result<StatementOutcome, Memory>
    requires sound { IsSoundSetting setting.now }
    requires table { named_table setting.now.layout.catalog table.now ≡ Some (named n.now) }
    requires rows { AreKeyedRowsOf setting.now.layout.catalog n.now.table.now rows }
    ensures { IfOk result (λ x. x ≡ record {
      answer = count_answer verbs.Delete (length (scanned_rows n.now.table.now terms.now rows []));
      writes = removals setting.now.layout (named n.now) (rows_of (scanned_rows n.now.table.now terms.now rows []));
    }) }
{
    let found = rows.into_matching(n.table, terms).rows(alloc)?;
    let RowChanges { answer, old, .. } = delete(alloc, n.table, terms, found.as_slice())?;
    let writes = removals(alloc, setting, n, table, old.as_slice())?;
    Ok(StatementOutcome { answer, writes })
}

/// The check of the new rows of an UPDATE that has read these rows, or the fault of one of them: 22003 or 54000.
pub(crate) fn found_update(
    alloc: Global,
    setting: &PlanSetting,
    n: &NamedTable,
    table: &[u8],
    targets: &[Target],
    terms: &[Term],
    rows: KeyedRows,
) -> Result<Found, Memory>
    requires sound { IsSoundSetting setting.now }
    requires table { named_table setting.now.layout.catalog table.now ≡ Some (named n.now) }
    requires texts { TextsAreUtf8 (RowStatement.Update table.now targets.now terms.now) }
    requires checked { check_fault n.now.table.now n.now.database.now
        (RowStatement.Update table.now targets.now terms.now) ≡ None }
    requires rows { AreKeyedRowsOf setting.now.layout.catalog n.now.table.now rows }
    ensures { IfOk result (IsFound setting.now.layout (named n.now)
        (RowStatement.Update table.now targets.now terms.now) (scanned_rows n.now.table.now terms.now rows [])) }
{
    let found = rows.into_matching(n.table, terms);
    let old = found.rows(alloc)?;
    let changes = match update(alloc, n.table, targets, terms, old.as_slice()) {
        Ok(changes) => changes,
        Err(EvalFault::Memory) => return Err(Memory),
        Err(EvalFault::State(code)) => return Ok(Found::Faulty(code)),
    };
    let check = check_of_changed(alloc, setting, n, table, found, changes)?;
    Ok(Found::Goes(check))
}

/// The check of what an UPDATE makes of the rows that it replaces.
fn check_of_changed(
    alloc: Global,
    setting: &PlanSetting,
    n: &NamedTable,
    table: &[u8],
    replaced: KeyedRows,
    changes: RowChanges,
) -> Result<UniqueCheck, Memory>
    requires sound { IsSoundSetting setting.now }
    requires table { named_table setting.now.layout.catalog table.now ≡ Some (named n.now) }
    requires old { All (IsRowOf setting.now.layout.catalog n.now.table.now) changes.old }
    requires new { All (IsRowOf setting.now.layout.catalog n.now.table.now) changes.new }
    ensures { IfOk result (λ check. check ≡ record {
      lookups = changed_row_lookups n.now.table.now (partitions_of setting.now.layout (named n.now))
          changes.old changes.new;
      passed = 0;
      replaced = replaced;
      has_twins = has_twins n.now.table.now changes.new;
      outcome = record {
        answer = changes.answer;
        writes = removals setting.now.layout (named n.now) changes.old
            ++ additions setting.now.layout (named n.now) changes.new;
      };
    }) }
{
    let RowChanges { answer, old, new } = changes;
    let (old, new) = (old.as_slice(), new.as_slice());
    let partitions = partitions_of(alloc, setting, n, table)?;
    let lookups = changed_row_lookups(alloc, n.table, partitions.as_slice(), old, new)?;
    let writes = replacements(alloc, setting, n, table, old, new)?;
    Ok(UniqueCheck {
        lookups,
        passed: 0,
        replaced,
        has_twins: has_twins(n.table, new),
        outcome: StatementOutcome { answer, writes },
    })
}
