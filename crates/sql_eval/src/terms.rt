//! Which rows match.

ghost use Rattle.std.specs.Prelude.{◌≡◌, ◌++◌, filter, IfOk, OnOk};
ghost use Rattle.sql_eval.specs.RowWords.{datum_of, compares, holds, matches};
ghost use Rattle.row_locality.specs.Rows.{datum_cmp};

use crate::columns::value_in;
use descriptors::Table;
use mr_base::{CloneIn, Datum, Memory, Row, RowList};
use region_sql::{Comparison, Literal, Term};
use std::alloc::Global;
use std::cmp::Ordering;

/// How a value stands to a literal: INT orders by value, STRING by bytes, and false stands before true.
fn order_of(v: &Datum, l: &Literal) -> Ordering
    ensures { result ≡ datum_cmp v.now (datum_of l.now) }
{
    match (v, l) {
        (Datum::Int(m), Literal::Int(n)) => i128::from(*m).cmp(n),
        (Datum::Int(_), _) => Ordering::Less,
        (Datum::Text(_), Literal::Int(_)) => Ordering::Greater,
        (Datum::Text(r), Literal::Text(s)) => r.as_slice().cmp(s.as_slice()),
        (Datum::Text(_), Literal::Bool(_)) => Ordering::Less,
        (Datum::Bool(a), Literal::Bool(b)) => a.cmp(b),
        (Datum::Bool(_), _) => Ordering::Greater,
    }
}

/// Whether two values that stand so pass a comparison.
fn compares(op: Comparison, order: Ordering) -> bool
    ensures { result ≡ compares op order }
{
    match op {
        Comparison::Eq => order.is_eq(),
        Comparison::Lt => order.is_lt(),
        Comparison::Le => order.is_le(),
        Comparison::Gt => order.is_gt(),
        Comparison::Ge => order.is_ge(),
        Comparison::Ne => order.is_ne(),
    }
}

/// Whether a term of WHERE holds for a row.
fn holds(t: &Table, row: &[Datum], term: &Term) -> bool
    ensures { result ≡ holds t.now row.now term.now }
{
    match value_in(t, row, term.column.as_slice()) {
        None => false,
        Some(v) => compares(term.op, order_of(v, &term.literal)),
    }
}

/// Whether all terms of WHERE hold for a row. Source: PostgreSQL's documentation of SELECT.
#[tactic(auto, unfolding(crate::specs::RowWords::matches))]
pub fn matches(t: &Table, terms: &[Term], row: &[Datum]) -> bool
    ensures { result ≡ matches t.now terms.now row.now }
{
    terms.iter().all(|term| holds(t, row, term))
}

/// Copies of the rows that match.
pub(crate) fn matched_rows(
    alloc: Global,
    t: &Table,
    terms: &[Term],
    rows: &[Row],
) -> Result<RowList, Memory>
    ensures { IfOk result (λ matched. matched ≡ filter (matches t.now terms.now) rows.now) }
{
    let mut matched = RowList::new(alloc);
    for row in rows {
        if matches(t, terms, row.as_slice()) {
            matched.push(row.clone_in(alloc)?)?;
        }
    }
    Ok(matched)
}
