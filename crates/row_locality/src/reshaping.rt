//! Rows under another locality of their table.

ghost use Rattle.std.specs.Prelude.{◌≡◌, IfOk};
ghost use Rattle.row_locality.specs.Rows.{Fits, is_by_row};
ghost use Rattle.row_locality.specs.Reshaped.{reshaped_row};
ghost use Rattle.row_locality.specs.Reshaping.{CanReshape};

use crate::row_values::declared;
use descriptors::Table;
use mr_base::{Bytes, Datum, Memory, Row};
use region_sql::Locality;
use std::alloc::Global;

/// Whether a table is REGIONAL BY ROW.
fn is_by_row(t: &Table) -> bool
    ensures { result ≡ is_by_row t.now }
{
    match &t.locality {
        Some(Locality::ByRow) => true,
        _ => false,
    }
}

/// A row of a table under its new locality: where the table becomes REGIONAL BY ROW, the row gets the primary
/// region of the database; where it ceases to be, the row loses its region. Source: CockroachDB's
/// documentation of ALTER TABLE .. SET LOCALITY, in this project's profile.
pub fn reshape(
    alloc: Global,
    old: &Table,
    new: &Table,
    row: &Row,
    primary: &[u8],
) -> Result<Row, Memory>
    ensures row { IfOk result (λ r. r ≡ reshaped_row old.now new.now primary.now row.now) }
    ensures fits { CanReshape old.now new.now primary.now row.now → IfOk result (Fits new.now) }
{
    reshaped(alloc, old, new, row, primary)
}

fn reshaped(
    alloc: Global,
    old: &Table,
    new: &Table,
    row: &Row,
    primary: &[u8],
) -> Result<Row, Memory>
    ensures { IfOk result (λ r. r ≡ reshaped_row old.now new.now primary.now row.now) }
{
    let row = row.as_slice();
    if is_by_row(old) {
        if is_by_row(new) {
            return Row::copy_of(alloc, row);
        }
        return Row::copy_of(alloc, declared(old, row));
    }
    let mut reshaped = Row::copy_of(alloc, row)?;
    if !is_by_row(new) {
        return Ok(reshaped);
    }
    reshaped.push(Datum::Text(Bytes::from_slice(alloc, primary)?))?;
    Ok(reshaped)
}
