//! The values of rows that are made.

ghost use Rattle.std.specs.Prelude.{◌≡◌, ◌+ℤ◌, ◌-ℤ◌, IfOk, option_and_then, position, slice_get, true, find};
ghost use Rattle.std.specs.Option.{option_copied, option_or};
ghost use Rattle.std.specs.Str.{bytes_eq};
ghost use Rattle.mr_base.specs.declared.rows.Datum.TheVariants as datums;
ghost use Rattle.sql_eval.specs.RowWords.{datum_of, fits_int, is_in_range, given_value, region_if, plus, minus, new_value, set_value};
ghost use Rattle.sql_eval.specs.Answered.{Answers, checked_value, checked_option};

use crate::columns::{is_region_column, value_in};
use crate::literals::fits_int;
use crate::stop::Stop;
use descriptors::Table;
use mr_base::{Bytes, CloneIn, Datum, Memory, SqlState};
use region_sql::{Literal, Target, Value};
use std::alloc::Global;

/// An INT. 22003 where it has more than 64 bits.
fn int_value(n: i128) -> Result<Datum, Stop>
    ensures { Answers (checked_value (datums.Int n)) result }
{
    if !fits_int(n) {
        return Err(Stop::State(SqlState::S22003));
    }
    Ok(Datum::Int(n as i64))
}

/// A literal as a value.
fn literal_value(alloc: Global, l: &Literal) -> Result<Datum, Stop>
    ensures { Answers (checked_value (datum_of l.now)) result }
{
    match l {
        Literal::Int(n) => int_value(*n),
        Literal::Text(text) => Ok(Datum::Text(text.clone_in(alloc)?)),
        Literal::Bool(b) => Ok(Datum::Bool(*b)),
    }
}

/// A value as it was.
fn kept_value(alloc: Global, v: &Datum) -> Result<Datum, Stop>
    ensures { Answers (checked_value v.now) result }
{
    match v {
        Datum::Int(n) => int_value(i128::from(*n)),
        Datum::Text(text) => Ok(Datum::Text(text.clone_in(alloc)?)),
        Datum::Bool(b) => Ok(Datum::Bool(*b)),
    }
}

/// A sum. 22003 where it has more than 64 bits.
fn sum_value(alloc: Global, v: &Datum, by: i128) -> Result<Datum, Stop>
    ensures { Answers (checked_value (plus by v.now)) result }
{
    match v {
        Datum::Int(n) => match i128::from(*n).checked_add(by) {
            Some(sum) => int_value(sum),
            None => Err(Stop::State(SqlState::S22003)),
        },
        Datum::Text(text) => Ok(Datum::Text(text.clone_in(alloc)?)),
        Datum::Bool(b) => Ok(Datum::Bool(*b)),
    }
}

/// A difference. 22003 where it has more than 64 bits.
fn difference_value(alloc: Global, v: &Datum, by: i128) -> Result<Datum, Stop>
    ensures { Answers (checked_value (minus by v.now)) result }
{
    match v {
        Datum::Int(n) => match i128::from(*n).checked_sub(by) {
            Some(difference) => int_value(difference),
            None => Err(Stop::State(SqlState::S22003)),
        },
        Datum::Text(text) => Ok(Datum::Text(text.clone_in(alloc)?)),
        Datum::Bool(b) => Ok(Datum::Bool(*b)),
    }
}

/// The place of a column in the column list of an INSERT.
fn place_among(names: &[Bytes], name: &[u8]) -> Option<usize>
    ensures { result ≡ position (bytes_eq name.now) names.now }
{
    names.iter().position(|n| name == n.as_slice())
}

/// The literal of a column in a row of VALUES.
fn given_literal<'a>(names: &[Bytes], row: &'a [Literal], name: &[u8]) -> Option<&'a Literal>
    ensures { option_copied result ≡ option_and_then (slice_get row.now) (position (bytes_eq name.now) names.now) }
{
    row.get(place_among(names, name)?)
}

/// The value of a column in a row that INSERT makes.
pub(crate) fn made_value(
    alloc: Global,
    region: &[u8],
    names: &[Bytes],
    row: &[Literal],
    name: &[u8],
) -> Result<Option<Datum>, Stop>
    ensures { Answers (checked_option
        (option_or (given_value names.now row.now name.now) (region_if region.now name.now))) result }
{
    if let Some(l) = given_literal(names, row, name) {
        return Ok(Some(literal_value(alloc, l)?));
    }
    if !is_region_column(name) {
        return Ok(None);
    }
    Ok(Some(Datum::Text(Bytes::from_slice(alloc, region)?)))
}

/// What UPDATE sets a column to, computed from the old row.
fn new_value(alloc: Global, t: &Table, old: &[Datum], value: &Value) -> Result<Option<Datum>, Stop>
    ensures { Answers (checked_option (new_value t.now old.now value.now)) result }
{
    match value {
        Value::Literal(l) => Ok(Some(literal_value(alloc, l)?)),
        Value::Column(name) => match value_in(t, old, name.as_slice()) {
            None => Ok(None),
            Some(v) => Ok(Some(kept_value(alloc, v)?)),
        },
        Value::Plus { column, by } => match value_in(t, old, column.as_slice()) {
            None => Ok(None),
            Some(v) => Ok(Some(sum_value(alloc, v, *by)?)),
        },
        Value::Minus { column, by } => match value_in(t, old, column.as_slice()) {
            None => Ok(None),
            Some(v) => Ok(Some(difference_value(alloc, v, *by)?)),
        },
    }
}

/// The target that sets a column.
fn target_of<'a>(targets: &'a [Target], name: &[u8]) -> Option<&'a Target>
    ensures { option_copied result ≡ find (λ x. bytes_eq name.now x.column) targets.now }
{
    targets.iter().find(|x| name == x.column.as_slice())
}

/// The new value of a column, where UPDATE sets it.
fn set_value(
    alloc: Global,
    t: &Table,
    targets: &[Target],
    old: &[Datum],
    name: &[u8],
) -> Result<Option<Datum>, Stop>
    ensures { Answers (checked_option (set_value t.now targets.now old.now name.now)) result }
{
    match target_of(targets, name) {
        None => Ok(None),
        Some(x) => new_value(alloc, t, old, &x.value),
    }
}

/// The value of the column at a place, of this name, in a row that UPDATE makes.
pub(crate) fn changed_value(
    alloc: Global,
    t: &Table,
    targets: &[Target],
    old: &[Datum],
    place: usize,
    name: &[u8],
) -> Result<Option<Datum>, Stop>
    ensures { Answers (checked_option
        (option_or (set_value t.now targets.now old.now name.now) (slice_get old.now place))) result }
{
    if let Some(v) = set_value(alloc, t, targets, old, name)? {
        return Ok(Some(v));
    }
    match old.get(place) {
        None => Ok(None),
        Some(v) => Ok(Some(kept_value(alloc, v)?)),
    }
}
