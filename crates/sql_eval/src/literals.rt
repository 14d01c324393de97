//! Literals and values, judged for the columns that they are set into or compared with.

ghost use Rattle.std.specs.Prelude.{◌≡◌, option_and_then};
ghost use Rattle.region_sql.specs.declared.row_statements.Literal.TheVariants as literals;
ghost use Rattle.sql_eval.specs.RowWords.{datum_of, fits_int, is_in_range};
ghost use Rattle.sql_eval.specs.Faults.{is_literal_of, is_among, literal_fault, is_int, is_same_type, may_take, column_fault, sum_fault, value_fault, named_literal_fault, target_value_fault};

use crate::columns::{Column, column_named, has_name, is_region_column};
use descriptors::{Database, Table};
use mr_base::{Bytes, SqlState};
use region_sql::{ColumnType, Literal, Target, Value};

/// Whether an integer has at most 64 bits.
pub(crate) fn fits_int(n: i128) -> bool
    ensures { result ≡ fits_int n }
{
    if n < -(1 << 63) {
        return false;
    }
    n < 1 << 63
}

fn is_literal_of(ty: ColumnType, l: &Literal) -> bool
    ensures { result ≡ is_literal_of ty l.now }
{
    match (ty, l) {
        (ColumnType::Int, Literal::Int(_)) => true,
        (ColumnType::String, Literal::Text(_)) => true,
        (ColumnType::Bool, Literal::Bool(_)) => true,
        _ => false,
    }
}

/// Whether a literal can be a value.
fn is_in_range(l: &Literal) -> bool
    ensures { result ≡ is_in_range (datum_of l.now) }
{
    match l {
        Literal::Int(n) => fits_int(*n),
        Literal::Text(_) => true,
        Literal::Bool(_) => true,
    }
}

/// Whether a literal names one of these regions.
fn is_among(regions: &[Bytes], l: &Literal) -> bool
    ensures { result ≡ is_among regions.now l.now }
{
    match l {
        Literal::Int(_) => false,
        Literal::Text(text) => has_name(regions, text.as_slice()),
        Literal::Bool(_) => false,
    }
}

/// Why a literal isn't one for a column. Source: PostgreSQL's codes of SQLSTATE.
fn literal_fault(d: &Database, column: &Column, l: &Literal) -> Option<SqlState>
    ensures { result ≡ literal_fault d.now (column.now.name.now, column.now.ty) l.now }
{
    if !is_literal_of(column.ty, l) {
        return Some(SqlState::S42804);
    }
    if !is_in_range(l) {
        return Some(SqlState::S22003);
    }
    if !is_region_column(column.name) {
        return None;
    }
    if is_among(d.regions.as_slice(), l) {
        return None;
    }
    Some(SqlState::S22P02)
}

fn is_int(ty: ColumnType) -> bool
    ensures { result ≡ is_int ty }
{
    match ty {
        ColumnType::Int => true,
        _ => false,
    }
}

fn is_same_type(a: ColumnType, b: ColumnType) -> bool
    ensures { result ≡ is_same_type a b }
{
    match (a, b) {
        (ColumnType::Int, ColumnType::Int) => true,
        (ColumnType::String, ColumnType::String) => true,
        (ColumnType::Bool, ColumnType::Bool) => true,
        _ => false,
    }
}

/// Why a column isn't a value for another.
fn column_fault(target: &Column, source: &Column) -> Option<SqlState>
    ensures { result ≡ column_fault (target.now.name.now, target.now.ty) (source.now.name.now, source.now.ty) }
{
    if !is_same_type(target.ty, source.ty) {
        return Some(SqlState::S42804);
    }
    if !is_region_column(target.name) {
        return None;
    }
    if is_region_column(source.name) {
        return None;
    }
    Some(SqlState::S42804)
}

/// Why a sum or difference isn't a value for a column.
fn sum_fault(by: i128, target: &Column, source: &Column) -> Option<SqlState>
    ensures { result ≡ sum_fault (literals.Int by)
        (target.now.name.now, target.now.ty) (source.now.name.now, source.now.ty) }
{
    if !is_int(target.ty) {
        return Some(SqlState::S42804);
    }
    if !is_int(source.ty) {
        return Some(SqlState::S42804);
    }
    if fits_int(by) {
        return None;
    }
    Some(SqlState::S22003)
}

/// Why a value isn't one for a column.
fn value_fault(t: &Table, d: &Database, target: &Column, value: &Value) -> Option<SqlState>
    ensures { result ≡ value_fault t.now d.now (target.now.name.now, target.now.ty) value.now }
{
    match value {
        Value::Literal(l) => literal_fault(d, target, l),
        Value::Column(name) => column_fault(target, &column_named(t, name.as_slice())?),
        Value::Plus { column, by } => {
            sum_fault(*by, target, &column_named(t, column.as_slice())?)
        }
        Value::Minus { column, by } => {
            sum_fault(*by, target, &column_named(t, column.as_slice())?)
        }
    }
}

/// Why a literal isn't one for the column of a name.
pub(crate) fn named_literal_fault(
    t: &Table,
    d: &Database,
    name: &[u8],
    l: &Literal,
) -> Option<SqlState>
    ensures { result ≡ named_literal_fault t.now d.now name.now l.now }
{
    literal_fault(d, &column_named(t, name)?, l)
}

/// Why a value isn't one for the column that UPDATE sets to it.
pub(crate) fn target_value_fault(t: &Table, d: &Database, x: &Target) -> Option<SqlState>
    ensures { result ≡ target_value_fault t.now d.now x.now }
{
    value_fault(t, d, &column_named(t, x.column.as_slice())?, &x.value)
}
