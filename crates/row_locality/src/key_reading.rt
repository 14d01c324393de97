//! Reading keys of indexes.

ghost use Rattle.std.specs.Prelude.{◌≡◌, [], ◌∷◌, IfOk, option_and_then};
ghost use Rattle.row_locality.specs.Decoding.{Reads};
ghost use Rattle.row_locality.specs.KeyPieces.{piece_at, rest_of, rest_of_parts};
ghost use Rattle.row_locality.specs.Keys.{index_types, types_at};
ghost use Rattle.row_locality.specs.Reading.{key_int_at, key_part_at, unescaped_at, as_text, is_key_of};

use crate::decode_fault::DecodeFault;
use crate::reading::bool_at;
use descriptors::Table;
use mr_base::{Memory, is_utf8};
use region_sql::ColumnType;
use std::alloc::Global;

/// A byte of an escaped text, or nothing at the text's end, and what follows.
#[tactic(auto, unfolding(crate::specs::KeyPieces::piece_at))]
fn piece_at(bytes: &[u8]) -> Result<(Option<u8>, &[u8]), DecodeFault>
    ensures { Reads (λ x. (x.0, x.1.now)) result (piece_at bytes.now) }
{
    let [b, rest @ ..] = bytes else {
        return Err(DecodeFault::Malformed);
    };
    let [c, after @ ..] = rest else {
        return Err(DecodeFault::Malformed);
    };
    if *b != 0 {
        return Ok((Some(*b), rest));
    }
    if *c == 255 {
        return Ok((Some(0), after));
    }
    if *c == 1 {
        return Ok((None, after));
    }
    Err(DecodeFault::Malformed)
}

/// A text up to its end, and what follows.
fn unescaped_at(alloc: Global, bytes: &[u8]) -> Result<(Vec<u8>, &[u8]), DecodeFault>
    ensures { Reads (λ x. (x.0.items, x.1.now)) result (unescaped_at [] bytes.now) }
{
    let mut text = Vec::new(alloc);
    let mut rest = bytes;
    loop {
        let (piece, after) = piece_at(rest)?;
        match piece {
            None => return Ok((text, after)),
            Some(b) => {
                text.push(b)?;
                rest = after;
            }
        }
    }
}

/// What follows a text.
fn after_text(alloc: Global, bytes: &[u8]) -> Result<&[u8], DecodeFault>
    ensures { Reads (λ rest. rest.now) result (rest_of (option_and_then as_text (unescaped_at [] bytes.now))) }
{
    let (text, rest) = unescaped_at(alloc, bytes)?;
    if !is_utf8(&text) {
        return Err(DecodeFault::Malformed);
    }
    Ok(rest)
}

/// What follows an INT.
#[tactic(auto, unfolding(crate::specs::Reading::key_int_at))]
fn after_int(bytes: &[u8]) -> Result<&[u8], DecodeFault>
    ensures { Reads (λ rest. rest.now) result (rest_of (key_int_at bytes.now)) }
{
    if bytes.len() < 8 {
        return Err(DecodeFault::Malformed);
    }
    Ok(&bytes[8..])
}

/// What follows a value of this type in a key.
#[tactic(auto, unfolding(crate::specs::Reading::key_part_at))]
fn after_part(alloc: Global, ty: ColumnType, bytes: &[u8]) -> Result<&[u8], DecodeFault>
    ensures { Reads (λ rest. rest.now) result (rest_of (key_part_at ty bytes.now)) }
{
    match ty {
        ColumnType::Int => after_int(bytes),
        ColumnType::String => after_text(alloc, bytes),
        ColumnType::Bool => {
            let (_, rest) = bool_at(bytes)?;
            Ok(rest)
        }
    }
}

/// What follows the value of a column in a key, where the table has the column.
#[tactic(auto, unfolding(crate::specs::KeyPieces::rest_of_parts))]
fn after_column<'a>(
    alloc: Global,
    t: &Table,
    place: usize,
    bytes: &'a [u8],
) -> Result<&'a [u8], DecodeFault>
    ensures { Reads (λ rest. rest.now) result (rest_of_parts bytes.now (types_at t.now (place ∷ []))) }
{
    match t.columns.as_slice().get(place) {
        None => Ok(bytes),
        Some(column) => after_part(alloc, column.1, bytes),
    }
}

/// What follows the values of these columns in a key.
fn after_columns<'a>(
    alloc: Global,
    t: &Table,
    places: &[usize],
    bytes: &'a [u8],
) -> Result<&'a [u8], DecodeFault>
    ensures { Reads (λ rest. rest.now) result (rest_of_parts bytes.now (types_at t.now places.now)) }
{
    let mut rest = bytes;
    for place in places {
        let after = after_column(alloc, t, *place, rest)?;
        rest = after;
    }
    Ok(rest)
}

/// Whether the bytes are a key of the index of a number, which has these columns.
pub(crate) fn is_key(
    alloc: Global,
    t: &Table,
    number: u8,
    places: &[usize],
    key: &[u8],
) -> Result<bool, Memory>
    requires { index_types t.now number ≡ types_at t.now places.now }
    ensures { IfOk result (λ b. b ≡ is_key_of t.now number key.now) }
{
    let [first, bytes @ ..] = key else {
        return Ok(false);
    };
    if *first != number {
        return Ok(false);
    }
    match after_columns(alloc, t, places, bytes) {
        Ok(rest) => Ok(rest.is_empty()),
        Err(DecodeFault::Malformed) => Ok(false),
        Err(DecodeFault::Memory) => Err(Memory),
    }
}
