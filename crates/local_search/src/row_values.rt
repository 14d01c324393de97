//! The values of rows in columns, and which of them are the same.

ghost use Rattle.std.specs.Prelude.{◌≡◌, ◌∷◌, [], ◌++◌, not, slice_get, IfOk, OnOk};
ghost use Rattle.std.specs.Option.{option_copied};
ghost use Rattle.std.specs.Ordering.{eq_by_cmp};
ghost use Rattle.row_locality.specs.Rows.{datum_cmp, key_cmp, values_at};
ghost use Rattle.local_search.specs.ChangedKeys.{is_new_in};

use mr_base::{CloneIn, Datum, Memory};
use std::alloc::Global;

/// The value of a row at a place.
pub(crate) fn value_at(row: &[Datum], place: usize) -> Option<&Datum>
    ensures { option_copied result ≡ slice_get row.now place }
{
    row.get(place)
}

/// The value of a row in a column, behind others, where the row has it.
fn push_value_at(
    alloc: Global,
    values: &mut Vec<Datum>,
    row: &[Datum],
    place: usize,
) -> Result<(), Memory>
    ensures { OnOk result (values.new.items ≡ values.old.items ++ values_at (place ∷ []) row.now) }
{
    match value_at(row, place) {
        None => Ok(()),
        Some(value) => {
            values.push(value.clone_in(alloc)?)?;
            Ok(())
        }
    }
}

/// The values of a row in these columns.
pub(crate) fn values_at(
    alloc: Global,
    places: &[usize],
    row: &[Datum],
) -> Result<Vec<Datum>, Memory>
    ensures { IfOk result (λ values. values.items ≡ values_at places.now row.now) }
{
    let mut values = Vec::new(alloc);
    for place in places {
        push_value_at(alloc, &mut values, row, *place)?;
    }
    Ok(values)
}

/// Whether a value is another than this one.
fn is_other(v: &Datum, w: &Datum) -> bool
    ensures { result ≡ not (eq_by_cmp datum_cmp v.now w.now) }
{
    v.cmp(w).is_ne()
}

/// Whether two lists have the same values.
fn are_same(before: &[Datum], after: &[Datum]) -> bool
    ensures { result ≡ eq_by_cmp key_cmp before.now after.now }
{
    for (i, v) in before.iter().enumerate() {
        let Some(w) = value_at(after, i) else {
            return false;
        };
        if is_other(v, w) {
            return false;
        }
    }
    match value_at(after, before.len()) {
        None => true,
        Some(_) => false,
    }
}

/// Whether a row has other values in these columns than it had before, if it was there before.
pub(crate) fn is_new_in(
    alloc: Global,
    old: Option<&[Datum]>,
    new: &[Datum],
    places: &[usize],
) -> Result<bool, Memory>
    ensures { IfOk result (λ b. b ≡ is_new_in (option_copied old.entry) new.now places.now) }
{
    let Some(old) = old else {
        return Ok(true);
    };
    let before = values_at(alloc, places, old)?;
    let after = values_at(alloc, places, new)?;
    Ok(!are_same(before.as_slice(), after.as_slice()))
}
