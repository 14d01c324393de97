//! The columns of a table's rows: those that the table declares and, for REGIONAL BY ROW, the region.

ghost use Rattle.std.specs.Prelude.{◌≡◌, ◌<◌, Some, find, length, option_map, position, slice_get};
ghost use Rattle.std.specs.Option.{option_copied};
ghost use Rattle.std.specs.Str.{bytes_eq};
ghost use Rattle.descriptors.specs.Lists.{has_name};
ghost use Rattle.row_locality.specs.Rows.{is_by_row, all_columns};
ghost use Rattle.sql_eval.specs.RowWords.{is_region_column, place_of, value_in};
ghost use Rattle.sql_eval.specs.Faults.{column_named};

use descriptors::Table;
use mr_base::{Bytes, Datum};
use region_sql::{ColumnType, Locality};

/// The name of the column that holds a row's region. Source: CockroachDB's documentation of REGIONAL BY ROW.
const REGION_COLUMN: &[u8] = b"crdb_region";

/// A column as a statement names it.
#[derive(Clone, Copy)]
pub(crate) struct Column<'a> {
    pub(crate) name: &'a [u8],
    pub(crate) ty: ColumnType,
}

/// Whether a name stands among these.
pub(crate) fn has_name(names: &[Bytes], name: &[u8]) -> bool
    ensures { result ≡ has_name names.now name.now }
{
    names.iter().any(|n| name == n.as_slice())
}

/// Whether a table is REGIONAL BY ROW.
fn is_by_row(t: &Table) -> bool
    ensures { result ≡ is_by_row t.now }
{
    match &t.locality {
        Some(Locality::ByRow) => true,
        _ => false,
    }
}

/// Whether a column is the region of a REGIONAL BY ROW table.
pub(crate) fn is_region_column(name: &[u8]) -> bool
    ensures { result ≡ is_region_column name.now }
{
    name == REGION_COLUMN
}

/// The place of a column among those that a table declares.
fn declared_place(t: &Table, name: &[u8]) -> Option<usize>
    ensures { result ≡ position (λ c. bytes_eq name.now c.0) t.now.columns }
{
    t.columns
        .as_slice()
        .iter()
        .position(|c| name == c.0.as_slice())
}

/// The place of a column among all columns of a table's rows.
#[tactic(auto, using(crate::proofs::ColumnSteps::place_declared, crate::proofs::ColumnSteps::place_plain, crate::proofs::ColumnSteps::place_other, crate::proofs::ColumnSteps::place_of_region))]
pub(crate) fn place_of(t: &Table, name: &[u8]) -> Option<usize>
    ensures { result ≡ place_of t.now name.now }
{
    if let Some(place) = declared_place(t, name) {
        return Some(place);
    }
    if !is_by_row(t) {
        return None;
    }
    if !is_region_column(name) {
        return None;
    }
    Some(t.columns.len())
}

/// The value of a row in a column.
pub(crate) fn value_in<'a>(t: &Table, row: &'a [Datum], name: &[u8]) -> Option<&'a Datum>
    ensures { option_copied result ≡ value_in t.now row.now name.now }
{
    row.get(place_of(t, name)?)
}

/// The column of a name among those that a table declares.
fn declared_column<'a>(t: &'a Table, name: &[u8]) -> Option<&'a (Bytes, ColumnType)>
    ensures { option_copied result ≡ find (λ c. bytes_eq name.now c.0) t.now.columns }
{
    t.columns.as_slice().iter().find(|c| name == c.0.as_slice())
}

/// The column of a name among all columns of a table's rows.
#[tactic(auto, using(crate::proofs::ColumnSteps::column_declared, crate::proofs::ColumnSteps::column_plain, crate::proofs::ColumnSteps::column_other, crate::proofs::ColumnSteps::column_of_region))]
pub(crate) fn column_named<'a>(t: &'a Table, name: &[u8]) -> Option<Column<'a>>
    ensures { option_map (λ c. (c.name.now, c.ty)) result ≡ column_named t.now name.now }
{
    if let Some(column) = declared_column(t, name) {
        return Some(Column {
            name: column.0.as_slice(),
            ty: column.1,
        });
    }
    if !is_by_row(t) {
        return None;
    }
    if !is_region_column(name) {
        return None;
    }
    Some(Column {
        name: REGION_COLUMN,
        ty: ColumnType::String,
    })
}

/// How many columns a table's rows have.
#[tactic(auto, using(crate::proofs::ColumnSteps::columns_plain, crate::proofs::ColumnSteps::columns_by_row))]
pub(crate) fn column_count(t: &Table) -> usize
    ensures { result ≡ length (all_columns t.now) }
{
    let columns = t.columns.as_slice();
    if is_by_row(t) {
        return columns.len() + 1;
    }
    columns.len()
}

/// The column at a place among all columns of a table's rows.
#[tactic(auto, using(crate::proofs::ColumnSteps::column_at_front, crate::proofs::ColumnSteps::column_at_end))]
pub(crate) fn column_at(t: &Table, place: usize) -> Column<'_>
    requires { place < length (all_columns t.now) }
    ensures { slice_get (all_columns t.now) place ≡ Some (result.name.now, result.ty) }
{
    match t.columns.as_slice().get(place) {
        Some(column) => Column {
            name: column.0.as_slice(),
            ty: column.1,
        },
        None => Column {
            name: REGION_COLUMN,
            ty: ColumnType::String,
        },
    }
}
