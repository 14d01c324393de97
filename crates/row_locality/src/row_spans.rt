//! The spans of keys that look-ups ask for.

ghost use Rattle.std.specs.Prelude.{◌≡◌, ◌≤◌, ◌==◌, ◌∷◌, [], Contains, length, position, IfOk};
ghost use Rattle.std.specs.List.{AllZip};
ghost use Rattle.descriptors.specs.Sound.{IsSoundTable};
ghost use Rattle.row_locality.specs.Rows.{HasType, index_of};
ghost use Rattle.row_locality.specs.Keys.{index_key, index_types, types_at};
ghost use Rattle.row_locality.specs.Spans.{point_of, all_rows};
ghost use Rattle.row_locality.specs.RowSpans.{HoldsRowsWithKey, HoldsRowsWithValue};

use crate::key_parts::key_of_values;
use descriptors::Table;
use mr_base::{Bytes, CloneIn, Datum, Memory, Span};
use std::alloc::Global;
use std::slice;

/// The span of one key.
pub(crate) fn span_of_key(alloc: Global, key: Bytes) -> Result<Span, Memory>
    ensures { IfOk result (λ s. s ≡ point_of key) }
{
    let mut hi = key.clone_in(alloc)?.into_vec();
    hi.push(0)?;
    Ok(Span {
        lo: key,
        hi: Bytes::from_vec(hi),
    })
}

/// The span of the rows with these values of the primary key, in the key's order. Source: this project's
/// profile.
pub fn point(alloc: Global, t: &Table, key: &[Datum]) -> Result<Span, Memory>
    requires sound { IsSoundTable t.now }
    requires key { AllZip HasType (index_types t.now 0) key.now }
    ensures span { IfOk result (λ s. s ≡ point_of (index_key 0 key.now)) }
    ensures rows { IfOk result (HoldsRowsWithKey t.now key.now) }
{
    span_of_key(alloc, key_of_values(alloc, 0, key)?)
}

fn place_of(columns: &[usize], column: usize) -> Option<usize>
    ensures { result ≡ position (λ c. c == column) columns.now }
{
    columns.iter().position(|c| *c == column)
}

/// The number of the index of a UNIQUE column.
pub(crate) fn index_of(t: &Table, column: usize) -> u8
    requires { length t.now.unique ≤ 16 }
    ensures { result ≡ index_of t.now column }
{
    let columns = t.unique.as_slice();
    let place = place_of(columns, column).unwrap_or(columns.len());
    1 + place as u8
}

/// The span of the rows with this value in a UNIQUE column, in the index of the column. Source: this
/// project's profile.
pub fn unique_span(alloc: Global, t: &Table, column: usize, v: &Datum) -> Result<Span, Memory>
    requires sound { IsSoundTable t.now }
    requires column { Contains t.now.unique column }
    requires value { AllZip HasType (types_at t.now (column ∷ [])) (v.now ∷ []) }
    ensures span { IfOk result (λ s. s ≡ point_of (index_key (index_of t.now column) (v.now ∷ []))) }
    ensures rows { IfOk result (HoldsRowsWithValue t.now column v.now) }
{
    let number = index_of(t, column);
    span_of_key(alloc, key_of_values(alloc, number, slice::from_ref(v))?)
}

/// The span of all rows of a partition. Source: this project's profile.
pub fn all_rows(alloc: Global) -> Result<Span, Memory>
    ensures { IfOk result (λ s. s ≡ all_rows) }
{
    Ok(Span {
        lo: Bytes::from_slice(alloc, &[0])?,
        hi: Bytes::from_slice(alloc, &[1])?,
    })
}
