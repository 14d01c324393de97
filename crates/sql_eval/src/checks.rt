//! The faults of a statement on a table that is there, before any row is looked at.

ghost use Rattle.std.specs.Prelude.{◌≡◌, ◌==◌, [], None, Some, IfErr, OnOk, length, map, take};
ghost use Rattle.std.specs.List.{list_all};
ghost use Rattle.std.specs.Option.{option_or};
ghost use Rattle.descriptors.specs.Lists.{has_name};
ghost use Rattle.sql_eval.specs.Faults.{first_fault, unknown_fault, again_fault, set_fault, inserted_fault, source_fault, targets_fault, wanted_fault, terms_fault, columns_fault, shape_fault, row_literals_fault, target_value_fault, term_literals_fault, literals_fault, check_fault};

use crate::columns::{has_name, place_of};
use crate::literals::{named_literal_fault, target_value_fault};
use descriptors::{Database, Table};
use mr_base::{Bytes, SqlState};
use region_sql::{Literal, Literals, RowStatement, Target, Term, Value, Wanted};

// ---- columns

/// 42703 where there is no such column.
fn unknown_fault(t: &Table, name: &[u8]) -> Option<SqlState>
    ensures { result ≡ unknown_fault t.now name.now }
{
    match place_of(t, name) {
        Some(_) => None,
        None => Some(SqlState::S42703),
    }
}

/// A column that is to be set: it is unknown, or it was named before.
fn set_fault(t: &Table, before: &[Bytes], name: &[u8]) -> Option<SqlState>
    ensures { result ≡ set_fault t.now before.now name.now }
{
    if let Some(fault) = unknown_fault(t, name) {
        return Some(fault);
    }
    if has_name(before, name) {
        return Some(SqlState::S42701);
    }
    None
}

/// The columns of an INSERT.
fn inserted_fault(t: &Table, names: &[Bytes]) -> Option<SqlState>
    ensures { result ≡ inserted_fault t.now [] names.now }
{
    for (i, name) in names.iter().enumerate() {
        if let Some(fault) = set_fault(t, &names[..i], name.as_slice()) {
            return Some(fault);
        }
    }
    None
}

/// Whether a column is set by these targets.
fn is_set(targets: &[Target], name: &[u8]) -> bool
    ensures { result ≡ has_name (map (λ x. x.column) targets.now) name.now }
{
    for x in targets {
        if name == x.column.as_slice() {
            return true;
        }
    }
    false
}

/// The column that a value of UPDATE names.
fn source_fault(t: &Table, value: &Value) -> Option<SqlState>
    ensures { result ≡ source_fault t.now value.now }
{
    match value {
        Value::Literal(_) => None,
        Value::Column(name) => unknown_fault(t, name.as_slice()),
        Value::Plus { column, .. } => unknown_fault(t, column.as_slice()),
        Value::Minus { column, .. } => unknown_fault(t, column.as_slice()),
    }
}

/// A target of UPDATE with its value, after these.
fn target_fault(t: &Table, before: &[Target], x: &Target) -> Option<SqlState>
    ensures { result ≡ option_or (set_fault t.now (map (λ b. b.column) before.now) x.now.column)
        (source_fault t.now x.now.value) }
{
    let name = x.column.as_slice();
    if let Some(fault) = unknown_fault(t, name) {
        return Some(fault);
    }
    if is_set(before, name) {
        return Some(SqlState::S42701);
    }
    source_fault(t, &x.value)
}

/// The targets of an UPDATE with their values.
fn targets_fault(t: &Table, targets: &[Target]) -> Option<SqlState>
    ensures { result ≡ targets_fault t.now [] targets.now }
{
    for (i, x) in targets.iter().enumerate() {
        if let Some(fault) = target_fault(t, &targets[..i], x) {
            return Some(fault);
        }
    }
    None
}

/// The columns that a SELECT lists.
fn listed_fault(t: &Table, names: &[Bytes]) -> Option<SqlState>
    ensures { result ≡ first_fault (map (unknown_fault t.now) names.now) }
{
    for name in names {
        if let Some(fault) = unknown_fault(t, name.as_slice()) {
            return Some(fault);
        }
    }
    None
}

fn wanted_fault(t: &Table, wanted: &Wanted) -> Option<SqlState>
    ensures { result ≡ wanted_fault t.now wanted.now }
{
    match wanted {
        Wanted::All => None,
        Wanted::Columns(names) => listed_fault(t, names.as_slice()),
        Wanted::Count => None,
    }
}

/// The columns of WHERE.
fn terms_fault(t: &Table, terms: &[Term]) -> Option<SqlState>
    ensures { result ≡ terms_fault t.now terms.now }
{
    for x in terms {
        if let Some(fault) = unknown_fault(t, x.column.as_slice()) {
            return Some(fault);
        }
    }
    None
}

/// The first fault of a statement's columns, from left to right.
fn columns_fault(t: &Table, s: &RowStatement) -> Option<SqlState>
    ensures { result ≡ columns_fault t.now s.now }
{
    match s {
        RowStatement::Insert { columns, .. } => inserted_fault(t, columns.as_slice()),
        RowStatement::Select { wanted, terms, .. } => {
            if let Some(fault) = wanted_fault(t, wanted) {
                return Some(fault);
            }
            terms_fault(t, terms.as_slice())
        }
        RowStatement::Update { targets, terms, .. } => {
            if let Some(fault) = targets_fault(t, targets.as_slice()) {
                return Some(fault);
            }
            terms_fault(t, terms.as_slice())
        }
        RowStatement::Delete { terms, .. } => terms_fault(t, terms.as_slice()),
    }
}

// ---- the shape of an INSERT

/// Whether each row has a value for each column of the list.
fn are_as_long(names: &[Bytes], rows: &[Literals]) -> bool
    ensures { result ≡ list_all (λ row. length row == length names.now) rows.now }
{
    let count = names.len();
    rows.iter().all(|row| row.len() == count)
}

/// Whether each column that a table declares is in the list.
fn has_all_columns(t: &Table, names: &[Bytes]) -> bool
    ensures { result ≡ list_all (λ c. has_name names.now c.0) t.now.columns }
{
    t.columns
        .as_slice()
        .iter()
        .all(|c| has_name(names, c.0.as_slice()))
}

/// 42601 where a row of VALUES has another number of values than there are columns, then 23502 where a column
/// gets none.
fn insert_fault(t: &Table, names: &[Bytes], rows: &[Literals]) -> Option<SqlState>
    ensures { result ≡ shape_fault t.now (RowStatement.Insert [] names.now rows.now) }
{
    if !are_as_long(names, rows) {
        return Some(SqlState::S42601);
    }
    if !has_all_columns(t, names) {
        return Some(SqlState::S23502);
    }
    None
}

/// The fault of a statement's shape.
fn shape_fault(t: &Table, s: &RowStatement) -> Option<SqlState>
    ensures { result ≡ shape_fault t.now s.now }
{
    match s {
        RowStatement::Insert { columns, rows, .. } => {
            insert_fault(t, columns.as_slice(), rows.as_slice())
        }
        RowStatement::Select { .. } => None,
        RowStatement::Update { .. } => None,
        RowStatement::Delete { .. } => None,
    }
}

// ---- literals and values

/// The literals of a row of VALUES for these columns.
fn row_literals_fault(t: &Table, d: &Database, names: &[Bytes], row: &[Literal]) -> Option<SqlState>
    ensures { result ≡ row_literals_fault t.now d.now names.now row.now }
{
    for (i, name) in names.iter().enumerate() {
        let l = row.get(i)?;
        if let Some(fault) = named_literal_fault(t, d, name.as_slice(), l) {
            return Some(fault);
        }
    }
    None
}

/// The literals of the rows of VALUES.
fn rows_literals_fault(
    t: &Table,
    d: &Database,
    names: &[Bytes],
    rows: &[Literals],
) -> Option<SqlState>
    ensures { result ≡ first_fault (map (row_literals_fault t.now d.now names.now) rows.now) }
{
    for row in rows {
        if let Some(fault) = row_literals_fault(t, d, names, row.as_slice()) {
            return Some(fault);
        }
    }
    None
}

/// The values that UPDATE sets columns to.
fn values_fault(t: &Table, d: &Database, targets: &[Target]) -> Option<SqlState>
    ensures { result ≡ first_fault (map (target_value_fault t.now d.now) targets.now) }
{
    for x in targets {
        if let Some(fault) = target_value_fault(t, d, x) {
            return Some(fault);
        }
    }
    None
}

/// The literals of WHERE.
fn term_literals_fault(t: &Table, d: &Database, terms: &[Term]) -> Option<SqlState>
    ensures { result ≡ term_literals_fault t.now d.now terms.now }
{
    for x in terms {
        if let Some(fault) = named_literal_fault(t, d, x.column.as_slice(), &x.literal) {
            return Some(fault);
        }
    }
    None
}

/// The first fault of a statement's literals and values, from left to right.
fn literals_fault(t: &Table, d: &Database, s: &RowStatement) -> Option<SqlState>
    ensures { result ≡ literals_fault t.now d.now s.now }
{
    match s {
        RowStatement::Insert { columns, rows, .. } => {
            rows_literals_fault(t, d, columns.as_slice(), rows.as_slice())
        }
        RowStatement::Select { terms, .. } => term_literals_fault(t, d, terms.as_slice()),
        RowStatement::Update { targets, terms, .. } => {
            if let Some(fault) = values_fault(t, d, targets.as_slice()) {
                return Some(fault);
            }
            term_literals_fault(t, d, terms.as_slice())
        }
        RowStatement::Delete { terms, .. } => term_literals_fault(t, d, terms.as_slice()),
    }
}

// ---- all of them

/// The first fault of a statement on a table.
#[tactic(auto, unfolding(crate::specs::Faults::check_fault))]
fn check_fault(t: &Table, d: &Database, s: &RowStatement) -> Option<SqlState>
    ensures { result ≡ check_fault t.now d.now s.now }
{
    if let Some(fault) = columns_fault(t, s) {
        return Some(fault);
    }
    if let Some(fault) = shape_fault(t, s) {
        return Some(fault);
    }
    literals_fault(t, d, s)
}

/// Finds the first fault that a statement on a table has before any row is looked at: of its columns, then of
/// its shape, then of its literals. Source: PostgreSQL's codes of SQLSTATE, in this project's order.
pub fn check(s: &RowStatement, t: &Table, database: &Database) -> Result<(), SqlState>
    ensures ok { OnOk result (check_fault t.now database.now s.now ≡ None) }
    ensures fault { IfErr result (λ e. check_fault t.now database.now s.now ≡ Some e) }
{
    match check_fault(t, database, s) {
        None => Ok(()),
        Some(fault) => Err(fault),
    }
}
