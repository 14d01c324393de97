//! Pairs as rows, and as what leads to rows.

ghost use Rattle.std.specs.Prelude.{◌≡◌, ◌++◌, Contains, IfOk, IfErr, OnOk};
ghost use Rattle.std.specs.Option.{option_copied};
ghost use Rattle.descriptors.specs.Sound.{IsSoundTable};
ghost use Rattle.row_locality.specs.Pairs.{key_value, IsPairOf};
ghost use Rattle.row_locality.specs.Reading.{region_value, row_of};
ghost use Rattle.row_locality.specs.Spans.{point_of};
ghost use Rattle.row_locality.specs.Decoding.{IsRegionFor, IsDecodeFault, IsIndexPair, IsIndexFault, Reads, point_named};

use crate::decode_fault::DecodeFault;
use crate::key_parts::key_at;
use crate::key_reading::is_key;
use crate::reading::columns_at;
use crate::row_spans::{index_of, span_of_key};
use descriptors::Table;
use mr_base::{Bytes, Datum, Memory, Pair, Row, Span};
use std::alloc::Global;

/// The values of a row with its region, where it has one.
fn with_region(
    alloc: Global,
    mut row: Vec<Datum>,
    region: Option<&[u8]>,
) -> Result<Vec<Datum>, Memory>
    ensures { IfOk result (λ whole. whole.items ≡ row.items ++ region_value (option_copied region.entry)) }
{
    match region {
        None => Ok(row),
        Some(region) => {
            row.push(Datum::Text(Bytes::from_slice(alloc, region)?))?;
            Ok(row)
        }
    }
}

/// The row that a key and a value are of.
#[tactic(auto, unfolding(crate::specs::Reading::row_of))]
fn row_at(
    alloc: Global,
    t: &Table,
    key: &[u8],
    value: &[u8],
    region: Option<&[u8]>,
) -> Result<Vec<Datum>, DecodeFault>
    ensures { Reads (λ row. row.items) result (row_of t.now (option_copied region.entry) (key.now, value.now)) }
{
    let values = columns_at(alloc, t.columns.as_slice(), value)?;
    let row = with_region(alloc, values, region)?;
    let primary = key_at(alloc, 0, t.key.as_slice(), &row)?;
    if key != primary.as_slice() {
        return Err(DecodeFault::Malformed);
    }
    Ok(row)
}

/// The same, as what it says of the pair.
fn row_of_bytes(
    alloc: Global,
    t: &Table,
    key: &[u8],
    value: &[u8],
    region: Option<&[u8]>,
) -> Result<Vec<Datum>, DecodeFault>
    requires { IsRegionFor t.now (option_copied region) }
    ensures row { IfOk result (λ row. IsPairOf t.now (option_copied region.entry) row.items (key.now, value.now)) }
    ensures fault { IfErr result (IsDecodeFault t.now (option_copied region.entry) (key.now, value.now)) }
    ensures read { Reads (λ row. row.items) result (row_of t.now (option_copied region.entry) (key.now, value.now)) }
{
    row_at(alloc, t, key, value, region)
}

/// The row of a table that a pair is of, in a partition of this region, where the table is REGIONAL BY ROW.
/// A pair of no row that fits the table is Malformed. Source: this project's profile, after CockroachDB's
/// encoding of rows.
pub fn decode(alloc: Global, t: &Table, p: &Pair, region: Option<&[u8]>) -> Result<Row, DecodeFault>
    requires { IsRegionFor t.now (option_copied region) }
    ensures row { IfOk result (λ row. IsPairOf t.now (option_copied region.entry) row (key_value p.now)) }
    ensures fault { IfErr result (IsDecodeFault t.now (option_copied region.entry) (key_value p.now)) }
    ensures read { Reads (λ row. row) result (row_of t.now (option_copied region.entry) (key_value p.now)) }
{
    let row = row_of_bytes(alloc, t, p.key.as_slice(), p.value.as_slice(), region)?;
    Ok(Row::from_vec(row))
}

/// The point of the row to which a pair in the index of a UNIQUE column leads. A pair whose key is no key of
/// that index, or whose value is no primary key of the table, is Malformed. Source: this project's profile,
/// after CockroachDB's unique secondary indexes.
pub fn primary_of(alloc: Global, t: &Table, column: usize, p: &Pair) -> Result<Span, DecodeFault>
    requires sound { IsSoundTable t.now }
    requires column { Contains t.now.unique column }
    ensures span { IfOk result (λ s. s ≡ point_of p.now.value) }
    ensures keys { OnOk result (IsIndexPair t.now column (key_value p.now)) }
    ensures fault { IfErr result (IsIndexFault t.now column (key_value p.now)) }
    ensures read { Reads (λ s. s) result (point_named t.now column (key_value p.now)) }
{
    primary_at(alloc, t, column, p.key.as_slice(), p.value.as_slice())
}

fn primary_at(
    alloc: Global,
    t: &Table,
    column: usize,
    key: &[u8],
    value: &[u8],
) -> Result<Span, DecodeFault>
    requires sound { IsSoundTable t.now }
    requires column { Contains t.now.unique column }
    ensures span { IfOk result (λ s. s ≡ point_of value.now) }
    ensures keys { OnOk result (IsIndexPair t.now column (key.now, value.now)) }
    ensures fault { IfErr result (IsIndexFault t.now column (key.now, value.now)) }
    ensures read { Reads (λ s. s) result (point_named t.now column (key.now, value.now)) }
{
    if !is_key(alloc, t, index_of(t, column), &[column], key)? {
        return Err(DecodeFault::Malformed);
    }
    if !is_key(alloc, t, 0, t.key.as_slice(), value)? {
        return Err(DecodeFault::Malformed);
    }
    Ok(span_of_key(alloc, Bytes::from_slice(alloc, value)?)?)
}
