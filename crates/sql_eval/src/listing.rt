//! How a transaction's list is read.

ghost use Rattle.std.specs.Prelude.{◌≡◌, ◌≤◌, ◌==◌, ◌&&◌, IfOk, length, not};
ghost use Rattle.std.specs.List.{list_all};
ghost use Rattle.sql_eval.specs.ListFaults.{is_select, is_past, is_bounded, list_result, IsReadAs};

use mr_base::{Kind, Memory, SqlState};
use region_sql::{List, ParseFault, RowStatement, parse_list};
use std::alloc::Global;

fn is_select(s: &RowStatement) -> bool
    ensures { result ≡ is_select s.now }
{
    match s {
        RowStatement::Select { .. } => true,
        _ => false,
    }
}

/// Whether a transaction reads the past.
fn is_past(kind: Kind) -> bool
    ensures { result ≡ is_past kind }
{
    match kind {
        Kind::Now => false,
        _ => true,
    }
}

fn is_bounded(kind: Kind) -> bool
    ensures { result ≡ is_bounded kind }
{
    match kind {
        Kind::Within { .. } => true,
        _ => false,
    }
}

/// Whether each statement of a list is a SELECT.
fn are_selects(list: &[RowStatement]) -> bool
    ensures { result ≡ list_all is_select list.now }
{
    list.iter().all(|s| is_select(s))
}

/// Whether a list would write the past.
fn writes_the_past(kind: Kind, list: &[RowStatement]) -> bool
    ensures { result ≡ (is_past kind && not (list_all is_select list.now)) }
{
    if !is_past(kind) {
        return false;
    }
    !are_selects(list)
}

/// Whether a read of bounded staleness isn't one statement.
fn reads_too_much(kind: Kind, list: &[RowStatement]) -> bool
    ensures { result ≡ (is_bounded kind && not (length list.now == 1)) }
{
    if !is_bounded(kind) {
        return false;
    }
    list.len() != 1
}

/// A list of at most 64 statements, by when it reads.
#[tactic(auto, using(crate::proofs::ListingSteps::is_read_only, crate::proofs::ListingSteps::is_one_select, crate::proofs::ListingSteps::is_taken))]
fn list_result(kind: Kind, list: List) -> Result<List, SqlState>
    requires { length list ≤ 64 }
    ensures { result ≡ list_result kind list }
{
    if writes_the_past(kind, list.as_slice()) {
        return Err(SqlState::S25006);
    }
    if reads_too_much(kind, list.as_slice()) {
        return Err(SqlState::S0A000);
    }
    Ok(list)
}

/// Reads the list of a transaction of this kind. Its fault is the first of these: 42601 where the text is no
/// list, 54000 where it has more than 64 statements, 25006 where it reads the past and a statement isn't a
/// SELECT, 0A000 where its staleness is bounded and it isn't one statement. Source: PostgreSQL's codes of
/// SQLSTATE, in this project's order.
pub fn read_list(alloc: Global, text: &[u8], kind: Kind) -> Result<Result<List, SqlState>, Memory>
    ensures as_defined { IfOk result (λ list. IsReadAs text.now kind list) }
{
    match parse_list(alloc, text) {
        Ok(list) => Ok(list_result(kind, list)),
        Err(ParseFault::Syntax { .. }) => Ok(Err(SqlState::S42601)),
        Err(ParseFault::TooMany) => Ok(Err(SqlState::S54000)),
        Err(ParseFault::Memory) => Err(Memory),
    }
}
