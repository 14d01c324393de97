//! Values in keys, and keys of indexes.

ghost use Rattle.std.specs.Prelude.{◌≡◌, ◌++◌, ◌∷◌, [], flat_map, IfOk, OnOk};
ghost use Rattle.row_locality.specs.Keys.{biased_int, escaped_byte, key_part, index_key};
ghost use Rattle.row_locality.specs.Rows.{values_at};

use mr_base::{Bytes, Datum, Memory};
use std::alloc::Global;

/// An INT plus 2^63, which orders as the INT does.
fn biased(n: i64) -> u64
    ensures { result ≡ biased_int n }
{
    if n < 0 {
        (1 << 63) - 1 - (-(n + 1)) as u64
    } else {
        (1 << 63) + n as u64
    }
}

/// A byte of a text; a zero byte is followed by 255.
fn push_escaped_byte(bytes: &mut Vec<u8>, b: u8) -> Result<(), Memory>
    ensures { OnOk result (bytes.new.items ≡ bytes.old.items ++ escaped_byte b) }
{
    if b == 0 {
        bytes.extend_from_slice(&[0, 255])?;
        return Ok(());
    }
    bytes.push(b)?;
    Ok(())
}

fn push_escaped(bytes: &mut Vec<u8>, text: &[u8]) -> Result<(), Memory>
    ensures { OnOk result (bytes.new.items ≡ bytes.old.items ++ flat_map escaped_byte text.now) }
{
    for b in text {
        push_escaped_byte(bytes, *b)?;
    }
    Ok(())
}

/// A value in a key.
#[tactic(auto, unfolding(crate::specs::Keys::key_part))]
fn push_key_part(bytes: &mut Vec<u8>, v: &Datum) -> Result<(), Memory>
    ensures { OnOk result (bytes.new.items ≡ bytes.old.items ++ key_part v.now) }
{
    match v {
        Datum::Int(n) => bytes.extend_from_slice(&biased(*n).to_be_bytes())?,
        Datum::Text(text) => {
            push_escaped(bytes, text.as_slice())?;
            bytes.extend_from_slice(&[0, 1])?;
        }
        Datum::Bool(b) => bytes.push(u8::from(*b))?,
    }
    Ok(())
}

/// The key of these values in the index of a number.
pub(crate) fn key_of_values(alloc: Global, number: u8, values: &[Datum]) -> Result<Bytes, Memory>
    ensures { IfOk result (λ key. key ≡ index_key number values.now) }
{
    let mut bytes = Vec::new(alloc);
    bytes.push(number)?;
    for v in values {
        push_key_part(&mut bytes, v)?;
    }
    Ok(Bytes::from_vec(bytes))
}

/// A value of a row in a key, where the row has it.
fn push_value_at(bytes: &mut Vec<u8>, row: &[Datum], place: usize) -> Result<(), Memory>
    ensures { OnOk result (bytes.new.items ≡ bytes.old.items ++ flat_map key_part (values_at (place ∷ []) row.now)) }
{
    match row.get(place) {
        None => Ok(()),
        Some(v) => push_key_part(bytes, v),
    }
}

/// The key of a row in the index of a number, which has these columns.
pub(crate) fn key_at(
    alloc: Global,
    number: u8,
    places: &[usize],
    row: &[Datum],
) -> Result<Bytes, Memory>
    ensures { IfOk result (λ key. key ≡ index_key number (values_at places.now row.now)) }
{
    let mut bytes = Vec::new(alloc);
    bytes.push(number)?;
    for place in places {
        push_value_at(&mut bytes, row, *place)?;
    }
    Ok(Bytes::from_vec(bytes))
}
