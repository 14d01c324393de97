//! The check that a statement's new rows meet no other one.

ghost use Rattle.std.specs.Prelude.{◌≡◌, ◌+◌, ◌<◌, IfOk, drop, if◌then◌else◌, is_none, length, map};
ghost use Rattle.std.specs.FinMap.Entries.{find};
ghost use Rattle.row_locality.specs.Pairs.{bytes_cmp, key_value};
ghost use Rattle.sql_eval.specs.Evaluation.{meets_other, named_by};
ghost use Rattle.sql_eval.specs.OwnWrites.{reads_through};
ghost use Rattle.sql_eval.specs.Reads.{served_reads};
ghost use Rattle.planner.specs.Checks.{IsPassed};
ghost use Rattle.planner.specs.Turns.{IsCheckStep};

use crate::keyed_rows::KeyedRows;
use crate::known_spans::KnownSpans;
use crate::looking::read_through;
use crate::own_writes::OwnWrites;
use crate::phases::{UniqueCheck, rest_of};
use crate::row_writes::StatementOutcome;
use local_search::Lookup;
use mr_base::{Ask, Bytes, CloneIn, Memory, Pair, SqlState};
use std::alloc::Global;

/// How a check goes on: behind a span that it needs, with a fault, or with what the statement comes to.
#[derive(Drop)]
pub(crate) enum CheckStep {
    Asks(Ask, UniqueCheck),
    Faulty(SqlState),
    Ends(StatementOutcome),
}

/// How far look-ups go: past so many to a span that isn't known, to a row that isn't replaced, or to the end.
#[derive(Drop)]
pub(crate) enum Passing {
    Asks(usize, Ask),
    Meets,
    Passes,
}

/// Goes on with a check as far as what is known allows. 23505 where a look-up meets a row that the statement
/// doesn't replace, or two of the new rows can't stand side by side.
pub(crate) fn check_on(
    alloc: Global,
    own: &OwnWrites,
    known: &KnownSpans,
    w: UniqueCheck,
) -> Result<CheckStep, Memory>
    ensures { IfOk result (IsCheckStep (reads_through own.now (served_reads known.now)) w) }
{
    let lookups = rest_of(w.lookups.as_slice(), w.passed);
    match pass(alloc, own, known, &w.replaced, lookups)? {
        Passing::Asks(more, ask) => Ok(CheckStep::Asks(ask, with_passed(w, more))),
        Passing::Meets => Ok(CheckStep::Faulty(SqlState::S23505)),
        Passing::Passes => Ok(end_of(w)),
    }
}

/// A check in which so many more look-ups were answered.
fn with_passed(w: UniqueCheck, more: usize) -> UniqueCheck
    requires { more < length (drop w.passed w.lookups) }
    ensures { result ≡ record w { passed = w.passed + more } }
{
    let UniqueCheck {
        lookups,
        passed,
        replaced,
        has_twins,
        outcome,
    } = w;
    UniqueCheck {
        lookups,
        passed: passed + more,
        replaced,
        has_twins,
        outcome,
    }
}

/// The end of a check in which all look-ups were answered and met no other row.
fn end_of(w: UniqueCheck) -> CheckStep
    ensures { result ≡ (if w.has_twins then CheckStep.Faulty SqlState.S23505 else CheckStep.Ends w.outcome) }
{
    if w.has_twins {
        return CheckStep::Faulty(SqlState::S23505);
    }
    CheckStep::Ends(w.outcome)
}

/// Goes through look-ups as far as what is known allows.
fn pass(
    alloc: Global,
    own: &OwnWrites,
    known: &KnownSpans,
    replaced: &KeyedRows,
    lookups: &[Lookup],
) -> Result<Passing, Memory>
    ensures { IfOk result (IsPassed replaced.now lookups.now (reads_through own.now (served_reads known.now))) }
{
    for (i, lookup) in lookups.iter().enumerate() {
        let Some(pairs) = read_through(alloc, own, known, lookup.ask())? else {
            return Ok(Passing::Asks(i, lookup.ask().clone_in(alloc)?));
        };
        if meets_other(replaced, lookup, pairs.as_slice()) {
            return Ok(Passing::Meets);
        }
    }
    Ok(Passing::Passes)
}

/// Whether a look-up met a row that isn't replaced.
fn meets_other(replaced: &KeyedRows, lookup: &Lookup, pairs: &[Pair]) -> bool
    ensures { result ≡ meets_other replaced.now (lookup.now, map key_value pairs.now) }
{
    for pair in pairs {
        if names_other(replaced, lookup, pair) {
            return true;
        }
    }
    false
}

/// Whether a pair names a row that isn't replaced.
fn names_other(replaced: &KeyedRows, lookup: &Lookup, pair: &Pair) -> bool
    ensures { result ≡ is_none (find bytes_cmp (named_by lookup.now (key_value pair.now)) replaced.now) }
{
    replaced.get(named_by(lookup, pair)).is_none()
}

/// The primary key that a pair of an index names: its key, or in the index of a UNIQUE column its value.
fn named_by<'a>(lookup: &Lookup, pair: &'a Pair) -> &'a Bytes
    ensures { result.now ≡ named_by lookup.now (key_value pair.now) }
{
    if lookup.index() == 0 {
        return &pair.key;
    }
    &pair.value
}
