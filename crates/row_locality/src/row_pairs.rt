//! Rows as pairs of key and value.

ghost use Rattle.std.specs.Prelude.{◌≡◌, ◌≤◌, ◌∷◌, [], All, length, map, take, IfOk, IfErr, IsTrue, OnOk};
ghost use Rattle.descriptors.specs.Sound.{IsSoundTable};
ghost use Rattle.row_locality.specs.Rows.{values_at};
ghost use Rattle.row_locality.specs.Keys.{index_key, primary_key};
ghost use Rattle.row_locality.specs.Values.{HasLength, is_small};
ghost use Rattle.row_locality.specs.Pairs.{key_value, row_pair, index_pairs};
ghost use Rattle.row_locality.specs.Encoding.{IsEncodeFault};

use crate::key_parts::key_at;
use crate::row_values::{declared, is_short, row_value};
use descriptors::Table;
use mr_base::{Bytes, CloneIn, Datum, EvalFault, Memory, Pair, Row, SqlState};
use std::alloc::Global;

/// The pair of a row in the primary index. A value of more than 1,024 bytes is refused with 54000. Source:
/// this project's profile, after CockroachDB's encoding of rows.
pub fn encode(alloc: Global, t: &Table, row: &Row) -> Result<Pair, EvalFault>
    ensures pair { IfOk result (λ p. key_value p ≡ row_pair t.now row.now) }
    ensures small { OnOk result (IsTrue (is_small t.now row.now)) }
    ensures fault { IfErr result (IsEncodeFault t.now row.now) }
{
    let row = row.as_slice();
    if !is_short(declared(t, row)) {
        return Err(EvalFault::State(SqlState::S54000));
    }
    match pair_of(alloc, t, row) {
        Ok(pair) => Ok(pair),
        Err(Memory) => Err(EvalFault::Memory),
    }
}

/// The pair of a row whose value isn't too long.
fn pair_of(alloc: Global, t: &Table, row: &[Datum]) -> Result<Pair, Memory>
    requires { All HasLength (take (length t.now.columns) row.now) }
    ensures { IfOk result (λ p. key_value p ≡ row_pair t.now row.now) }
{
    let key = key_at(alloc, 0, t.key.as_slice(), row)?;
    let value = row_value(alloc, declared(t, row))?;
    Ok(Pair { key, value })
}

/// The pairs of a row in the indexes of the UNIQUE columns, in declared order. They are refused exactly
/// where the row's own pair is. Source: this project's profile, after CockroachDB's unique secondary indexes.
pub fn index_pairs(alloc: Global, t: &Table, row: &Row) -> Result<Vec<Pair>, EvalFault>
    requires { IsSoundTable t.now }
    ensures pairs { IfOk result (λ ps. map key_value ps.items ≡ index_pairs t.now row.now) }
    ensures small { OnOk result (IsTrue (is_small t.now row.now)) }
    ensures fault { IfErr result (IsEncodeFault t.now row.now) }
{
    let row = row.as_slice();
    if !is_short(declared(t, row)) {
        return Err(EvalFault::State(SqlState::S54000));
    }
    match unique_pairs(alloc, t, row) {
        Ok(pairs) => Ok(pairs),
        Err(Memory) => Err(EvalFault::Memory),
    }
}

fn unique_pairs(alloc: Global, t: &Table, row: &[Datum]) -> Result<Vec<Pair>, Memory>
    requires { length t.now.unique ≤ 16 }
    ensures { IfOk result (λ ps. map key_value ps.items ≡ index_pairs t.now row.now) }
{
    let primary = key_at(alloc, 0, t.key.as_slice(), row)?;
    let mut pairs = Vec::new(alloc);
    let mut number = 1;
    for column in t.unique.as_slice() {
        pairs.push(unique_pair(alloc, number, *column, row, &primary)?)?;
        number += 1;
    }
    Ok(pairs)
}

/// The pair of a row in the index of one column, which leads to the primary key.
fn unique_pair(
    alloc: Global,
    number: u8,
    column: usize,
    row: &[Datum],
    primary: &Bytes,
) -> Result<Pair, Memory>
    ensures { IfOk result (λ p. key_value p ≡ (index_key number (values_at (column ∷ []) row.now), primary.now)) }
{
    let key = key_at(alloc, number, &[column], row)?;
    let value = primary.clone_in(alloc)?;
    Ok(Pair { key, value })
}
