//! The values to which the terms of WHERE fix columns.

ghost use Rattle.std.specs.Prelude.{◌≡◌, ◌&&◌, find, slice_get, All, IfOk, IsTrue};
ghost use Rattle.std.specs.Option.{option_copied};
ghost use Rattle.std.specs.Str.{bytes_eq};
ghost use Rattle.descriptors.specs.Sound.{IsSoundTable};
ghost use Rattle.sql_eval.specs.Lookups.{is_equality, fixed_region, fixed_value, fixed_value_at, fixed_values, index_for};
ghost use Rattle.sql_eval.specs.RowWords.{datum_of, is_in_range};
ghost use Rattle.local_search.specs.LookupOrder.{IsTypedTerm};

use crate::index_columns::columns_of;
use descriptors::Table;
use mr_base::{Bytes, CloneIn, Datum, ListOf, Memory};
use region_sql::{ColumnType, Comparison, Literal, Term};
use std::alloc::Global;

/// Whether a term fixes the column of a name to one value.
fn fixes(term: &Term, name: &[u8]) -> bool
    ensures { result ≡ (bytes_eq name.now term.now.column && is_equality term.now.op) }
{
    match term.op {
        Comparison::Eq => name == term.column.as_slice(),
        _ => false,
    }
}

/// The first term that fixes the column of a name.
fn fixing<'a>(terms: &'a [Term], name: &[u8]) -> Option<&'a Term>
    ensures { option_copied result ≡ find (λ x. bytes_eq name.now x.column && is_equality x.op) terms.now }
{
    terms.iter().find(|term| fixes(term, name))
}

/// The region to which the terms fix the rows.
pub(crate) fn fixed_region(terms: &[Term]) -> Option<&[u8]>
    ensures { option_copied result ≡ fixed_region terms.now }
{
    match &fixing(terms, b"crdb_region")?.literal {
        Literal::Text(region) => Some(region.as_slice()),
        _ => None,
    }
}

/// The value that a literal is, where no integer of it has more than 64 bits.
fn datum_of(alloc: Global, literal: &Literal) -> Result<Datum, Memory>
    requires { IsTrue (is_in_range (datum_of literal.now)) }
    ensures { IfOk result (λ v. v ≡ datum_of literal.now) }
{
    match literal {
        Literal::Int(n) => Ok(Datum::Int(*n as i64)),
        Literal::Text(text) => Ok(Datum::Text(text.clone_in(alloc)?)),
        Literal::Bool(b) => Ok(Datum::Bool(*b)),
    }
}

/// The value to which the terms fix the column of a name.
fn fixed_value(alloc: Global, terms: &[Term], name: &[u8]) -> Result<Option<Datum>, Memory>
    requires { All (λ x. IsTrue (is_in_range (datum_of x.literal))) terms.now }
    ensures { IfOk result (λ v. v ≡ fixed_value terms.now name.now) }
{
    match fixing(terms, name) {
        None => Ok(None),
        Some(term) => Ok(Some(datum_of(alloc, &term.literal)?)),
    }
}

/// The column at a place.
fn column_at(t: &Table, place: usize) -> Option<&(Bytes, ColumnType)>
    ensures { option_copied result ≡ slice_get t.now.columns place }
{
    t.columns.as_slice().get(place)
}

/// The value to which the terms fix a column.
fn fixed_value_at(
    alloc: Global,
    t: &Table,
    terms: &[Term],
    place: usize,
) -> Result<Option<Datum>, Memory>
    requires { All (IsTypedTerm t.now) terms.now }
    ensures { IfOk result (λ v. v ≡ fixed_value_at t.now terms.now place) }
{
    match column_at(t, place) {
        None => Ok(None),
        Some(column) => fixed_value(alloc, terms, column.0.as_slice()),
    }
}

/// The values to which the terms fix columns, where they fix each.
fn fixed_values(
    alloc: Global,
    t: &Table,
    terms: &[Term],
    places: &[usize],
) -> Result<Option<ListOf<Datum>>, Memory>
    requires { All (IsTypedTerm t.now) terms.now }
    ensures { IfOk result (λ values. values ≡ fixed_values t.now terms.now places.now) }
{
    let mut values = ListOf::new(alloc);
    for place in places {
        match fixed_value_at(alloc, t, terms, *place)? {
            None => return Ok(None),
            Some(value) => values.push(value)?,
        }
    }
    Ok(Some(values))
}

/// The number of the index by which rows are found, with the values of its columns.
pub(crate) fn index_for(
    alloc: Global,
    t: &Table,
    terms: &[Term],
) -> Result<Option<(usize, ListOf<Datum>)>, Memory>
    requires sound { IsSoundTable t.now }
    requires typed { All (IsTypedTerm t.now) terms.now }
    ensures { IfOk result (λ found. found ≡ index_for t.now terms.now) }
{
    for index in 0..t.unique.len() + 1 {
        if let Some(values) = fixed_values(alloc, t, terms, columns_of(t, index))? {
            return Ok(Some((index, values)));
        }
    }
    Ok(None)
}
