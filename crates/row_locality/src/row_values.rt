//! The values of rows.

ghost use Rattle.std.specs.Prelude.{◌≡◌, ◌≤◌, ◌-◌, ◌++◌, All, SomeIff, flat_map, length, nat_le, take, IfOk, OnOk};
ghost use Rattle.row_locality.specs.Values.{value_part, HasLength};

use descriptors::Table;
use mr_base::{Bytes, Datum, Memory};
use std::alloc::Global;

/// The columns of a row that its table declares.
pub(crate) fn declared<'a>(t: &Table, row: &'a [Datum]) -> &'a [Datum]
    ensures { result.now ≡ take (length t.now.columns) row.now }
{
    let count = t.columns.len();
    if row.len() <= count {
        return row;
    }
    &row[..count]
}

/// The room that a column leaves, where there is enough for it.
#[tactic(auto, unfolding(crate::specs::Values::value_part))]
fn room_after(room: usize, v: &Datum) -> Option<usize>
    ensures { SomeIff result (length (value_part v.now) ≤ room) (room - length (value_part v.now)) }
{
    match v {
        Datum::Int(_) => room.checked_sub(9),
        Datum::Text(text) => {
            let rest = room.checked_sub(5)?;
            rest.checked_sub(text.as_slice().len())
        }
        Datum::Bool(_) => room.checked_sub(2),
    }
}

/// Whether the value of a row of these columns has at most 1,024 bytes.
pub(crate) fn is_short(columns: &[Datum]) -> bool
    ensures { result ≡ nat_le (length (flat_map value_part columns.now)) 1024 }
{
    let mut room = 1024;
    for v in columns {
        match room_after(room, v) {
            None => return false,
            Some(rest) => room = rest,
        }
    }
    true
}

/// A column in a row's value.
#[tactic(auto, unfolding(crate::specs::Values::value_part))]
fn push_value_part(bytes: &mut Vec<u8>, v: &Datum) -> Result<(), Memory>
    requires { HasLength v.now }
    ensures { OnOk result (bytes.new.items ≡ bytes.old.items ++ value_part v.now) }
{
    match v {
        Datum::Int(n) => {
            bytes.push(1)?;
            bytes.extend_from_slice(&n.to_be_bytes())?;
        }
        Datum::Text(text) => {
            let text = text.as_slice();
            bytes.push(2)?;
            bytes.extend_from_slice(&(text.len() as u32).to_be_bytes())?;
            bytes.extend_from_slice(text)?;
        }
        Datum::Bool(b) => bytes.extend_from_slice(&[3, u8::from(*b)])?,
    }
    Ok(())
}

/// The value of a row of these columns.
pub(crate) fn row_value(alloc: Global, columns: &[Datum]) -> Result<Bytes, Memory>
    requires { All HasLength columns.now }
    ensures { IfOk result (λ value. value ≡ flat_map value_part columns.now) }
{
    let mut bytes = Vec::new(alloc);
    for v in columns {
        push_value_part(&mut bytes, v)?;
    }
    Ok(Bytes::from_vec(bytes))
}
