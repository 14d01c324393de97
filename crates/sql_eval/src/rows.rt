//! The rows that statements make and show.

ghost use Rattle.std.specs.Prelude.{◌≡◌, ◌∷◌, ◌++◌, [], IfOk, OnOk, filter_map, length, map, option_map, pos, take, true};
ghost use Rattle.std.specs.List.{list_all};
ghost use Rattle.std.specs.Option.{option_copied, option_to_list};
ghost use Rattle.mr_base.specs.declared.rows.Datum.TheVariants as datums;
ghost use Rattle.descriptors.specs.Refusals.{primary_region};
ghost use Rattle.sql_eval.specs.RowWords.{is_in_range, checked_row, default_region, made_row, made_rows, changed_row, changed_rows, value_in, shown_rows};
ghost use Rattle.sql_eval.specs.Answered.{Answers};

use crate::columns::{column_at, column_count, has_name, value_in};
use crate::stop::Stop;
use crate::values::{changed_value, made_value};
use descriptors::{Database, Table};
use mr_base::{Bytes, CloneIn, Datum, EvalFault, Memory, Row, RowList};
use region_sql::{Literal, Literals, Target, Wanted};
use row_locality::encode;
use std::alloc::Global;

/// The primary region of a database.
fn primary_region(d: &Database) -> Option<&[u8]>
    ensures { option_map (λ r. r.now) result ≡ primary_region d.now }
{
    let region = d.regions.as_slice().get(d.primary?)?;
    Some(region.as_slice())
}

/// The region that a row gets of which none is given: the gateway's where that is a region of the database,
/// else the primary region. Source: CockroachDB's documentation of REGIONAL BY ROW.
pub fn default_region<'a>(d: &'a Database, gateway: &'a [u8]) -> &'a [u8]
    ensures { result.now ≡ default_region d.now gateway.now }
{
    if has_name(d.regions.as_slice(), gateway) {
        return gateway;
    }
    match primary_region(d) {
        None => &[],
        Some(region) => region,
    }
}

/// A row of such values. 54000 where its value has more than 1,024 bytes.
fn short_row(alloc: Global, t: &Table, row: Row) -> Result<Row, Stop>
    requires { list_all is_in_range row ≡ true }
    ensures { Answers (checked_row t.now row) result }
{
    match encode(alloc, t, &row) {
        Ok(_) => Ok(row),
        Err(EvalFault::State(state)) => Err(Stop::State(state)),
        Err(EvalFault::Memory) => Err(Stop::Memory),
    }
}

/// Puts a value at the end of a row, if there is one.
fn push_some(row: &mut Row, value: Option<Datum>) -> Result<(), Memory>
    ensures { OnOk result (row.new ≡ row.old ++ option_to_list value) }
{
    match value {
        None => Ok(()),
        Some(v) => row.push(v),
    }
}

/// The row that INSERT makes of a row of VALUES, unless it may not be.
fn made_row(
    alloc: Global,
    t: &Table,
    region: &[u8],
    names: &[Bytes],
    row: &[Literal],
) -> Result<Row, Stop>
    ensures { Answers (checked_row t.now (made_row t.now region.now names.now row.now)) result }
{
    let mut made = Row::new(alloc);
    for place in 0..column_count(t) {
        let column = column_at(t, place);
        let value = made_value(alloc, region, names, row, column.name)?;
        push_some(&mut made, value)?;
    }
    short_row(alloc, t, made)
}

/// The rows of an INSERT in the order of the text.
pub(crate) fn made_rows(
    alloc: Global,
    t: &Table,
    region: &[u8],
    names: &[Bytes],
    rows: &[Literals],
) -> Result<RowList, Stop>
    ensures { Answers (made_rows t.now region.now names.now rows.now) result }
{
    let mut made = RowList::new(alloc);
    for row in rows {
        let values = made_row(alloc, t, region, names, row.as_slice())?;
        made.push(values)?;
    }
    Ok(made)
}

/// The row that UPDATE makes of an old one, unless it may not be.
fn changed_row(alloc: Global, t: &Table, targets: &[Target], old: &[Datum]) -> Result<Row, Stop>
    ensures { Answers (checked_row t.now (changed_row t.now targets.now old.now)) result }
{
    let mut changed = Row::new(alloc);
    for place in 0..column_count(t) {
        let column = column_at(t, place);
        let value = changed_value(alloc, t, targets, old, place, column.name)?;
        push_some(&mut changed, value)?;
    }
    short_row(alloc, t, changed)
}

/// The rows that UPDATE makes of old ones, in their order.
pub(crate) fn changed_rows(
    alloc: Global,
    t: &Table,
    targets: &[Target],
    olds: &[Row],
) -> Result<RowList, Stop>
    ensures { Answers (changed_rows t.now targets.now olds.now) result }
{
    let mut changed = RowList::new(alloc);
    for old in olds {
        let values = changed_row(alloc, t, targets, old.as_slice())?;
        changed.push(values)?;
    }
    Ok(changed)
}

/// The columns of a row that its table declares.
fn declared_columns(alloc: Global, t: &Table, row: &[Datum]) -> Result<Row, Memory>
    ensures { IfOk result (λ shown. shown ≡ take (length t.now.columns) row.now) }
{
    let count = t.columns.len();
    if row.len() <= count {
        return Row::copy_of(alloc, row);
    }
    Row::copy_of(alloc, &row[..count])
}

/// The rows without their region.
fn declared_rows(alloc: Global, t: &Table, rows: &[Row]) -> Result<RowList, Memory>
    ensures { IfOk result (λ shown. shown ≡ map (take (length t.now.columns)) rows.now) }
{
    let mut shown = RowList::new(alloc);
    for row in rows {
        shown.push(declared_columns(alloc, t, row.as_slice())?)?;
    }
    Ok(shown)
}

/// A copy of a value, if there is one.
fn value_copy(alloc: Global, value: Option<&Datum>) -> Result<Option<Datum>, Memory>
    ensures { IfOk result (λ copy. copy ≡ option_copied value.entry) }
{
    match value {
        None => Ok(None),
        Some(v) => Ok(Some(v.clone_in(alloc)?)),
    }
}

/// The values of a row in these columns.
fn listed_columns(alloc: Global, t: &Table, names: &[Bytes], row: &[Datum]) -> Result<Row, Memory>
    ensures { IfOk result (λ shown. shown ≡ filter_map (value_in t.now row.now) names.now) }
{
    let mut shown = Row::new(alloc);
    for name in names {
        let value = value_copy(alloc, value_in(t, row, name.as_slice()))?;
        push_some(&mut shown, value)?;
    }
    Ok(shown)
}

/// The rows with these columns alone.
fn listed_rows(alloc: Global, t: &Table, names: &[Bytes], rows: &[Row]) -> Result<RowList, Memory>
    ensures { IfOk result (λ shown. shown ≡ map (λ row. filter_map (value_in t.now row) names.now) rows.now) }
{
    let mut shown = RowList::new(alloc);
    for row in rows {
        shown.push(listed_columns(alloc, t, names, row.as_slice())?)?;
    }
    Ok(shown)
}

/// One row with the number of rows.
fn counted(alloc: Global, rows: &[Row]) -> Result<RowList, Memory>
    ensures { IfOk result (λ shown. shown ≡ (datums.Int (pos (length rows.now)) ∷ []) ∷ []) }
{
    let mut row = Row::new(alloc);
    row.push(Datum::Int(rows.len() as i64))?;
    let mut shown = RowList::new(alloc);
    shown.push(row)?;
    Ok(shown)
}

/// What SELECT answers of the rows that match.
pub(crate) fn shown_rows(
    alloc: Global,
    t: &Table,
    wanted: &Wanted,
    rows: &[Row],
) -> Result<RowList, Memory>
    ensures { IfOk result (λ shown. shown ≡ shown_rows t.now wanted.now rows.now) }
{
    match wanted {
        Wanted::All => declared_rows(alloc, t, rows),
        Wanted::Columns(names) => listed_rows(alloc, t, names.as_slice(), rows),
        Wanted::Count => counted(alloc, rows),
    }
}
