//! What one statement does on the rows of its table.

ghost use Rattle.std.specs.Prelude.{◌≡◌, [], filter, length, IfErr, IfOk, Ok};
ghost use Rattle.mr_base.specs.declared.results.Verb.TheVariants as verbs;
ghost use Rattle.sql_eval.specs.RowWords.{matches, made_rows, changed_rows, shown_rows};
ghost use Rattle.sql_eval.specs.Execution.{count_answer, rows_answer};
ghost use Rattle.sql_eval.specs.Answered.{IsFaultOf};

use crate::rows::{changed_rows, made_rows, shown_rows};
use crate::stop::fault_of;
use crate::terms::matched_rows;
use descriptors::Table;
use mr_base::{Bytes, EvalFault, Memory, Row, RowList, StatementResult, Verb};
use region_sql::{Literals, Target, Term, Wanted};
use std::alloc::Global;

/// What a statement makes of the rows of its table: its answer, the rows that go and the rows that come.
#[derive(Drop)]
pub struct RowChanges {
    pub answer: StatementResult,
    pub old: RowList,
    pub new: RowList,
}

/// The answer of a statement that shows no rows.
pub(crate) fn count_answer(alloc: Global, verb: Verb, count: usize) -> StatementResult
    ensures { result ≡ count_answer verb count }
{
    StatementResult {
        verb,
        count: count as u64,
        rows: RowList::new(alloc),
    }
}

/// SELECT, on the rows of its table in the order of their primary keys. Source: PostgreSQL's documentation
/// of SELECT.
pub fn select(
    alloc: Global,
    t: &Table,
    wanted: &Wanted,
    terms: &[Term],
    rows: &[Row],
) -> Result<StatementResult, Memory>
    ensures answer { IfOk result
        (λ a. a ≡ rows_answer (shown_rows t.now wanted.now (filter (matches t.now terms.now) rows.now))) }
{
    let matched = matched_rows(alloc, t, terms, rows)?;
    let rows = shown_rows(alloc, t, wanted, matched.as_slice())?;
    Ok(StatementResult {
        verb: Verb::Select,
        count: rows.len() as u64,
        rows,
    })
}

/// DELETE, on the rows of its table: those that match go. Source: PostgreSQL's documentation of DELETE.
pub fn delete(alloc: Global, t: &Table, terms: &[Term], rows: &[Row]) -> Result<RowChanges, Memory>
    ensures old { IfOk result (λ x. x.old ≡ filter (matches t.now terms.now) rows.now) }
    ensures new { IfOk result (λ x. x.new ≡ []) }
    ensures answer { IfOk result (λ x. x.answer ≡ count_answer verbs.Delete (length x.old)) }
{
    let old = matched_rows(alloc, t, terms, rows)?;
    Ok(RowChanges {
        answer: count_answer(alloc, Verb::Delete, old.len()),
        old,
        new: RowList::new(alloc),
    })
}

/// UPDATE, on the rows of its table: those that match go, and those made of them come, in the same order. The
/// first row that may not be is a fault: 22003 for an INT of more than 64 bits, else 54000 for a value of more
/// than 1,024 bytes. Whether new rows may stand beside others is judged elsewhere. Source: PostgreSQL's
/// documentation of UPDATE.
pub fn update(
    alloc: Global,
    t: &Table,
    targets: &[Target],
    terms: &[Term],
    rows: &[Row],
) -> Result<RowChanges, EvalFault>
    ensures old { IfOk result (λ x. x.old ≡ filter (matches t.now terms.now) rows.now) }
    ensures new { IfOk result (λ x. changed_rows t.now targets.now x.old ≡ Ok x.new) }
    ensures answer { IfOk result (λ x. x.answer ≡ count_answer verbs.Update (length x.new)) }
    ensures fault { IfErr result
        (IsFaultOf (changed_rows t.now targets.now (filter (matches t.now terms.now) rows.now))) }
{
    let old = match matched_rows(alloc, t, terms, rows) {
        Ok(old) => old,
        Err(Memory) => return Err(EvalFault::Memory),
    };
    match changed_rows(alloc, t, targets, old.as_slice()) {
        Ok(new) => Ok(RowChanges {
            answer: count_answer(alloc, Verb::Update, new.len()),
            old,
            new,
        }),
        Err(stop) => Err(fault_of(stop)),
    }
}

/// INSERT of these literals into these columns. A row without a region of its own gets this one. The first row
/// whose value has more than 1,024 bytes is the fault 54000. Whether new rows may stand beside others is judged
/// elsewhere. Source: PostgreSQL's documentation of INSERT.
pub fn insert(
    alloc: Global,
    t: &Table,
    region: &[u8],
    columns: &[Bytes],
    rows: &[Literals],
) -> Result<RowChanges, EvalFault>
    ensures old { IfOk result (λ x. x.old ≡ []) }
    ensures new { IfOk result (λ x. made_rows t.now region.now columns.now rows.now ≡ Ok x.new) }
    ensures answer { IfOk result (λ x. x.answer ≡ count_answer verbs.Insert (length x.new)) }
    ensures fault { IfErr result (IsFaultOf (made_rows t.now region.now columns.now rows.now)) }
{
    match made_rows(alloc, t, region, columns, rows) {
        Ok(new) => Ok(RowChanges {
            answer: count_answer(alloc, Verb::Insert, new.len()),
            old: RowList::new(alloc),
            new,
        }),
        Err(stop) => Err(fault_of(stop)),
    }
}
