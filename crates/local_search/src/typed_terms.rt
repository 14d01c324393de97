//! Whether terms compare columns with literals of their types.

ghost use Rattle.std.specs.Prelude.{◌≡◌, ◌↔◌, All, IsTrue, find, option_map};
ghost use Rattle.std.specs.Option.{option_copied};
ghost use Rattle.std.specs.Str.{bytes_eq};
ghost use Rattle.row_locality.specs.Rows.{HasType};
ghost use Rattle.sql_eval.specs.Faults.{column_named};
ghost use Rattle.sql_eval.specs.RowWords.{datum_of};
ghost use Rattle.local_search.specs.LookupOrder.{IsTypedTerm, hidden_type};

use crate::table_partitions::is_by_row;
use descriptors::Table;
use mr_base::{Bytes, is_utf8};
use region_sql::{ColumnType, Literal, Term};

/// Whether each term compares a column of the table with a literal of the column's type, as it does in a
/// statement without a fault.
pub fn are_typed(t: &Table, terms: &[Term]) -> bool
    ensures { IsTrue result ↔ All (IsTypedTerm t.now) terms.now }
{
    terms.iter().all(|term| is_typed(t, term))
}

fn is_typed(t: &Table, term: &Term) -> bool
    ensures { IsTrue result ↔ IsTypedTerm t.now term.now }
{
    match type_of(t, term.column.as_slice()) {
        None => false,
        Some(ty) => is_of_type(ty, &term.literal),
    }
}

/// The column of a name among those that the table declares.
fn declared<'a>(t: &'a Table, name: &[u8]) -> Option<&'a (Bytes, ColumnType)>
    ensures { option_copied result ≡ find (λ c. bytes_eq name.now c.0) t.now.columns }
{
    t.columns.as_slice().iter().find(|c| name == c.0.as_slice())
}

/// The type of the region's column, where the table has it and this is its name.
fn hidden(t: &Table, name: &[u8]) -> Option<ColumnType>
    ensures { result ≡ hidden_type t.now name.now }
{
    if !is_by_row(t) {
        return None;
    }
    if name == b"crdb_region".as_slice() {
        return Some(ColumnType::String);
    }
    None
}

/// The type of the column of a name.
fn type_of(t: &Table, name: &[u8]) -> Option<ColumnType>
    ensures { result ≡ option_map (λ c. c.1) (column_named t.now name.now) }
{
    match declared(t, name) {
        Some(column) => Some(column.1),
        None => hidden(t, name),
    }
}

/// Whether a literal is a value of a type.
fn is_of_type(ty: ColumnType, literal: &Literal) -> bool
    ensures { IsTrue result ↔ HasType ty (datum_of literal.now) }
{
    match (ty, literal) {
        (ColumnType::Int, Literal::Int(n)) => i64::try_from(*n).is_ok(),
        (ColumnType::String, Literal::Text(text)) => is_utf8(text.as_slice()),
        (ColumnType::Bool, Literal::Bool(_)) => true,
        _ => false,
    }
}
