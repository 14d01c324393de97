//! Reading the columns of a row's value.

ghost use Rattle.std.specs.Prelude.{◌≡◌, [], ◌++◌};
ghost use Rattle.row_locality.specs.Decoding.{Reads};
ghost use Rattle.row_locality.specs.Reading.{bool_at, int_at, text_at, measured_text_at, column_at, columns_at};

use crate::decode_fault::DecodeFault;
use mr_base::{Bytes, Datum, is_utf8};
use region_sql::ColumnType;
use std::alloc::Global;

/// 0 is false and 1 is true.
#[tactic(auto, unfolding(crate::specs::Reading::bool_at))]
pub(crate) fn bool_at(bytes: &[u8]) -> Result<(Datum, &[u8]), DecodeFault>
    ensures { Reads (λ x. (x.0, x.1.now)) result (bool_at bytes.now) }
{
    let [b, rest @ ..] = bytes else {
        return Err(DecodeFault::Malformed);
    };
    if *b == 0 {
        return Ok((Datum::Bool(false), rest));
    }
    if *b == 1 {
        return Ok((Datum::Bool(true), rest));
    }
    Err(DecodeFault::Malformed)
}

/// Two's complement in eight bytes, the highest first.
#[tactic(auto, unfolding(crate::specs::Reading::int_at))]
fn int_at(bytes: &[u8]) -> Result<(Datum, &[u8]), DecodeFault>
    ensures { Reads (λ x. (x.0, x.1.now)) result (int_at bytes.now) }
{
    if bytes.len() < 8 {
        return Err(DecodeFault::Malformed);
    }
    let (front, rest) = bytes.split_at(8);
    let n = i64::from_be_bytes([
        front[0], front[1], front[2], front[3], front[4], front[5], front[6], front[7],
    ]);
    Ok((Datum::Int(n), rest))
}

/// A text of so many bytes.
#[tactic(auto, unfolding(crate::specs::Reading::text_at))]
fn text_at(alloc: Global, n: usize, bytes: &[u8]) -> Result<(Datum, &[u8]), DecodeFault>
    ensures { Reads (λ x. (x.0, x.1.now)) result (text_at n bytes.now) }
{
    if bytes.len() < n {
        return Err(DecodeFault::Malformed);
    }
    let (text, rest) = bytes.split_at(n);
    if !is_utf8(text) {
        return Err(DecodeFault::Malformed);
    }
    Ok((Datum::Text(Bytes::from_slice(alloc, text)?), rest))
}

/// The length of a text in four bytes, the highest first, then the text.
#[tactic(auto, unfolding(crate::specs::Reading::measured_text_at))]
fn measured_text_at(alloc: Global, bytes: &[u8]) -> Result<(Datum, &[u8]), DecodeFault>
    ensures { Reads (λ x. (x.0, x.1.now)) result (measured_text_at bytes.now) }
{
    if bytes.len() < 4 {
        return Err(DecodeFault::Malformed);
    }
    let (front, rest) = bytes.split_at(4);
    let n = u32::from_be_bytes([front[0], front[1], front[2], front[3]]);
    text_at(alloc, n as usize, rest)
}

/// A column of this type: its tag, then the value.
#[tactic(auto, unfolding(crate::specs::Reading::column_at))]
fn column_at(alloc: Global, ty: ColumnType, bytes: &[u8]) -> Result<(Datum, &[u8]), DecodeFault>
    ensures { Reads (λ x. (x.0, x.1.now)) result (column_at ty bytes.now) }
{
    let [tag, rest @ ..] = bytes else {
        return Err(DecodeFault::Malformed);
    };
    match ty {
        ColumnType::Int => {
            if *tag != 1 {
                return Err(DecodeFault::Malformed);
            }
            int_at(rest)
        }
        ColumnType::String => {
            if *tag != 2 {
                return Err(DecodeFault::Malformed);
            }
            measured_text_at(alloc, rest)
        }
        ColumnType::Bool => {
            if *tag != 3 {
                return Err(DecodeFault::Malformed);
            }
            bool_at(rest)
        }
    }
}

/// All of the bytes as these columns.
pub(crate) fn columns_at(
    alloc: Global,
    columns: &[(Bytes, ColumnType)],
    bytes: &[u8],
) -> Result<Vec<Datum>, DecodeFault>
    ensures { Reads (λ row. row.items) result (columns_at [] bytes.now columns.now) }
{
    let mut row = Vec::new(alloc);
    let mut rest = bytes;
    for column in columns {
        let (v, after) = column_at(alloc, column.1, rest)?;
        row.push(v)?;
        rest = after;
    }
    if !rest.is_empty() {
        return Err(DecodeFault::Malformed);
    }
    Ok(row)
}
