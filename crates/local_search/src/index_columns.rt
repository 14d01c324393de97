//! The indexes of a table by their numbers: 0 is the primary key, and 1, 2, .. are the UNIQUE columns in
//! declared order.

ghost use Rattle.std.specs.Prelude.{◌≡◌, ◌≤◌, Contains, Some, length, slice_get, IfOk};
ghost use Rattle.std.specs.List.{AllZip};
ghost use Rattle.descriptors.specs.Sound.{IsSoundTable};
ghost use Rattle.row_locality.specs.Keys.{index_key, index_types};
ghost use Rattle.row_locality.specs.Rows.{HasType, index_of, indexes};
ghost use Rattle.row_locality.specs.Spans.{point_of};

use descriptors::Table;
use mr_base::{Datum, Memory, Span};
use row_locality::{point, unique_span};
use std::alloc::Global;
use std::slice;

/// The places of the columns of an index.
pub(crate) fn columns_of(t: &Table, index: usize) -> &[usize]
    requires { index ≤ length t.now.unique }
    ensures { slice_get (indexes t.now) index ≡ Some result.now }
{
    if index == 0 {
        return t.key.as_slice();
    }
    slice::from_ref(&t.unique.as_slice()[index - 1])
}

/// The UNIQUE column of an index.
pub(crate) fn unique_column(t: &Table, index: usize) -> usize
    requires sound { IsSoundTable t.now }
    requires secondary { 1 ≤ index }
    requires index { index ≤ length t.now.unique }
    ensures unique { Contains t.now.unique result }
    ensures number { index_of t.now result ≡ index }
{
    t.unique.as_slice()[index - 1]
}

/// The span of the keys with these values in an index.
pub(crate) fn key_span(
    alloc: Global,
    t: &Table,
    index: usize,
    values: &[Datum],
) -> Result<Span, Memory>
    requires sound { IsSoundTable t.now }
    requires index { index ≤ length t.now.unique }
    requires typed { AllZip HasType (index_types t.now index) values.now }
    ensures { IfOk result (λ s. s ≡ point_of (index_key index values.now)) }
{
    if index == 0 {
        return point(alloc, t, values);
    }
    unique_span(alloc, t, unique_column(t, index), &values[0])
}
