//! What a list of statements does on a plain database, as slowly and plainly as can be.

ghost use Rattle.std.specs.Prelude.{◌≡◌, ◌<◌, ◌≤◌, ◌++◌, [], IfErr, IfOk, Ok, length, filter, not};
ghost use Rattle.sql_eval.specs.RowWords.{matches};
ghost use Rattle.sql_eval.specs.Faults.{check_fault};
ghost use Rattle.sql_eval.specs.Execution.{table_rows, on_rows, unless, exec_statement, exec_list, exec, with_rows};
ghost use Rattle.sql_eval.specs.Answered.{Answers, IsFaultOf, IsStopOf};
ghost use Rattle.sql_eval.specs.Tables.{database_in, named};

use crate::checks::check;
use crate::naming::{NamedTable, named_table, table_name};
use crate::rows::{changed_rows, default_region, made_rows};
use crate::statements::{count_answer, select};
use crate::stop::{Stop, fault_of};
use crate::terms::{matched_rows, matches};
use crate::twins::{has_twins, rows_in_order};
use descriptors::{Catalog, Table};
use mr_base::{
    Bytes, CloneIn, EvalFault, ListOf, Memory, Row, RowList, SqlState, StatementResult, Verb,
};
use region_sql::{List, Literals, RowStatement, Target, Term, Wanted};
use std::alloc::Global;

/// What a list of statements comes to: its answers, and the rows of each table after it.
#[derive(Drop)]
pub struct Executed {
    pub answers: ListOf<StatementResult>,
    pub tables: Vec<RowList>,
}

/// What a statement comes to on the rows of its table: its answer, and the rows after it.
type OnRows = (StatementResult, RowList);

/// Copies of the rows that don't match.
fn other_rows(alloc: Global, t: &Table, terms: &[Term], rows: &[Row]) -> Result<RowList, Memory>
    ensures { IfOk result (λ others. others ≡ filter (λ row. not (matches t.now terms.now row)) rows.now) }
{
    let mut others = RowList::new(alloc);
    for row in rows {
        if !matches(t, terms, row.as_slice()) {
            others.push(row.clone_in(alloc)?)?;
        }
    }
    Ok(others)
}

/// The rows of both lists in the order of their primary keys. 23505 where two may not stand side by side.
fn joined_rows(alloc: Global, t: &Table, rows: RowList, more: RowList) -> Result<RowList, Stop>
    ensures { Answers (table_rows t.now (rows ++ more)) result }
{
    let mut all = rows.into_vec();
    let mut more = more.into_vec();
    all.append(&mut more)?;
    if has_twins(t, all.as_slice()) {
        return Err(Stop::State(SqlState::S23505));
    }
    Ok(rows_in_order(alloc, t, all.as_slice())?)
}

/// INSERT on the rows of its table.
#[tactic(auto, unfolding(crate::specs::Execution::on_rows))]
fn insert_on(
    alloc: Global,
    n: &NamedTable,
    gateway: &[u8],
    columns: &[Bytes],
    literals: &[Literals],
    rows: &[Row],
) -> Result<OnRows, Stop>
    ensures { Answers
        (on_rows (named n.now) gateway.now (RowStatement.Insert [] columns.now literals.now) rows.now) result }
{
    let region = default_region(n.database, gateway);
    let made = made_rows(alloc, n.table, region, columns, literals)?;
    let answer = count_answer(alloc, Verb::Insert, made.len());
    let after = joined_rows(alloc, n.table, RowList::copy_of(alloc, rows)?, made)?;
    Ok((answer, after))
}

/// SELECT on the rows of its table.
#[tactic(auto, unfolding(crate::specs::Execution::on_rows))]
fn select_on(
    alloc: Global,
    n: &NamedTable,
    gateway: &[u8],
    wanted: &Wanted,
    terms: &[Term],
    rows: &[Row],
) -> Result<OnRows, Stop>
    ensures { Answers
        (on_rows (named n.now) gateway.now (RowStatement.Select [] wanted.now terms.now) rows.now) result }
{
    let answer = select(alloc, n.table, wanted, terms, rows)?;
    Ok((answer, RowList::copy_of(alloc, rows)?))
}

/// UPDATE on the rows of its table.
#[tactic(auto, unfolding(crate::specs::Execution::on_rows))]
fn update_on(
    alloc: Global,
    n: &NamedTable,
    gateway: &[u8],
    targets: &[Target],
    terms: &[Term],
    rows: &[Row],
) -> Result<OnRows, Stop>
    ensures { Answers
        (on_rows (named n.now) gateway.now (RowStatement.Update [] targets.now terms.now) rows.now) result }
{
    let old = matched_rows(alloc, n.table, terms, rows)?;
    let new = changed_rows(alloc, n.table, targets, old.as_slice())?;
    let answer = count_answer(alloc, Verb::Update, new.len());
    let others = other_rows(alloc, n.table, terms, rows)?;
    let after = joined_rows(alloc, n.table, others, new)?;
    Ok((answer, after))
}

/// DELETE on the rows of its table.
#[tactic(auto, unfolding(crate::specs::Execution::on_rows))]
fn delete_on(
    alloc: Global,
    n: &NamedTable,
    gateway: &[u8],
    terms: &[Term],
    rows: &[Row],
) -> Result<OnRows, Stop>
    ensures { Answers (on_rows (named n.now) gateway.now (RowStatement.Delete [] terms.now) rows.now) result }
{
    let old = matched_rows(alloc, n.table, terms, rows)?;
    let answer = count_answer(alloc, Verb::Delete, old.len());
    Ok((answer, other_rows(alloc, n.table, terms, rows)?))
}

/// A statement without a fault of its own, on the rows of its table.
#[tactic(auto, unfolding(crate::specs::Execution::on_rows))]
fn on_rows(
    alloc: Global,
    n: &NamedTable,
    gateway: &[u8],
    s: &RowStatement,
    rows: &[Row],
) -> Result<OnRows, Stop>
    ensures { Answers (on_rows (named n.now) gateway.now s.now rows.now) result }
{
    match s {
        RowStatement::Insert {
            columns,
            rows: literals,
            ..
        } => insert_on(
            alloc,
            n,
            gateway,
            columns.as_slice(),
            literals.as_slice(),
            rows,
        ),
        RowStatement::Select { wanted, terms, .. } => {
            select_on(alloc, n, gateway, wanted, terms.as_slice(), rows)
        }
        RowStatement::Update { targets, terms, .. } => {
            update_on(
                alloc,
                n,
                gateway,
                targets.as_slice(),
                terms.as_slice(),
                rows,
            )
        }
        RowStatement::Delete { terms, .. } => delete_on(alloc, n, gateway, terms.as_slice(), rows),
    }
}

/// A statement on the rows of its table.
fn on_table(
    alloc: Global,
    n: &NamedTable,
    gateway: &[u8],
    s: &RowStatement,
    rows: &[Row],
) -> Result<OnRows, Stop>
    ensures { Answers (unless (check_fault n.now.table.now n.now.database.now s.now)
        (on_rows (named n.now) gateway.now s.now rows.now)) result }
{
    if let Err(fault) = check(s, n.table, n.database) {
        return Err(Stop::State(fault));
    }
    on_rows(alloc, n, gateway, s, rows)
}

/// The rows of the table at a place.
fn rows_at(tables: &[RowList], place: usize) -> &[Row]
    requires { place < length tables.now }
    ensures { result.now ≡ database_in tables.now place }
{
    tables[place].as_slice()
}

/// Other rows for the table at a place.
#[tactic(auto, using(crate::proofs::ExecutionSteps::tables_with_rows))]
fn put_rows(tables: &mut Vec<RowList>, place: usize, rows: RowList)
    requires { place < length tables.old.items }
    ensures kept { length tables.new.items ≡ length tables.old.items }
    ensures rows { database_in tables.new.items ≡ with_rows (database_in tables.old.items) place rows }
{
    tables[place] = rows;
}

/// One statement: its answer, and what it makes of the tables. 42P01 where there is no such table.
fn exec_statement(
    alloc: Global,
    catalog: &Catalog,
    gateway: &[u8],
    s: &RowStatement,
    tables: &mut Vec<RowList>,
) -> Result<StatementResult, Stop>
    requires { length catalog.now.tables ≤ length tables.old.items }
    ensures kept { length tables.new.items ≡ length tables.old.items }
    ensures ok { IfOk result (λ a. exec_statement catalog.now gateway.now s.now (database_in tables.old.items)
        ≡ Ok (a, database_in tables.new.items)) }
    ensures fault { IfErr result
        (IsStopOf (exec_statement catalog.now gateway.now s.now (database_in tables.old.items))) }
{
    let Some(n) = named_table(catalog, table_name(s)) else {
        return Err(Stop::State(SqlState::S42P01));
    };
    let rows = rows_at(tables.as_slice(), n.place);
    let (answer, after) = on_table(alloc, &n, gateway, s, rows)?;
    put_rows(tables, n.place, after);
    Ok(answer)
}

/// Statements one after the other.
fn exec_list(
    alloc: Global,
    catalog: &Catalog,
    gateway: &[u8],
    list: &[RowStatement],
    tables: Vec<RowList>,
) -> Result<Executed, Stop>
    requires { length catalog.now.tables ≤ length tables.items }
    ensures ok { IfOk result (λ x. exec_list catalog.now gateway.now list.now (database_in tables.items)
        ≡ Ok (x.answers, database_in x.tables.items)) }
    ensures fault { IfErr result
        (IsStopOf (exec_list catalog.now gateway.now list.now (database_in tables.items))) }
{
    let mut tables = tables;
    let mut answers = ListOf::new(alloc);
    for s in list {
        let answer = exec_statement(alloc, catalog, gateway, s, &mut tables)?;
        answers.push(answer)?;
    }
    Ok(Executed { answers, tables })
}

/// What a list as it was read does on these tables, from a gateway in this region: the answers of its
/// statements and the tables after them, or the first fault, which undoes all. There are rows for each table
/// of the catalog, in its order. It is slow, and made for tests. Source: PostgreSQL's documentation of INSERT,
/// SELECT, UPDATE and DELETE, in this project's profile.
#[tactic(auto, unfolding(crate::specs::Execution::exec))]
pub fn execute(
    alloc: Global,
    catalog: &Catalog,
    gateway: &[u8],
    list: Result<List, SqlState>,
    tables: Vec<RowList>,
) -> Result<Executed, EvalFault>
    requires { length catalog.now.tables ≤ length tables.items }
    ensures ok { IfOk result (λ x.
        exec catalog.now gateway.now list (database_in tables.items) ≡ Ok (x.answers, database_in x.tables.items)) }
    ensures fault { IfErr result (IsFaultOf (exec catalog.now gateway.now list (database_in tables.items))) }
{
    match list {
        Err(state) => Err(EvalFault::State(state)),
        Ok(list) => match exec_list(alloc, catalog, gateway, list.as_slice(), tables) {
            Ok(executed) => Ok(executed),
            Err(stop) => Err(fault_of(stop)),
        },
    }
}
