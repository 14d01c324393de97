//! Searches by an index.

ghost use Rattle.std.specs.Prelude.{◌≡◌, ◌<◌, ◌≤◌, ◌+◌, [], IfOk, false, drop, length, map};
ghost use Rattle.std.specs.List.{AllByRecursion};
ghost use Rattle.std.specs.Option.{option_to_list};
ghost use Rattle.descriptors.specs.Contents.{Contents};
ghost use Rattle.descriptors.specs.Sound.{IsSoundTable};
ghost use Rattle.row_locality.specs.Pairs.{key_value};
ghost use Rattle.sql_eval.specs.OwnWrites.{reads_through};
ghost use Rattle.sql_eval.specs.Reads.{served_reads};
ghost use Rattle.planner.specs.Phases.{IsSoundSearch};
ghost use Rattle.planner.specs.Searches.{IsSought, row_lookup};
ghost use Rattle.planner.specs.Turns.{IsSearchStep};

use crate::keyed_rows::KeyedRows;
use crate::known_spans::KnownSpans;
use crate::looking::read_through;
use crate::own_writes::OwnWrites;
use crate::phases::{IndexSearch, RowScan, rest_of};
use descriptors::Table;
use local_search::{Lookup, led_to};
use mr_base::{Ask, CloneIn, ListOf, Memory, Pair};
use std::alloc::Global;

/// How a search goes on: behind a span that it needs, or with the rows to which it led.
#[derive(Drop)]
pub(crate) enum SearchStep {
    Asks(Ask, IndexSearch),
    Goes(RowScan),
}

/// How far the look-ups of a search go: past so many to a span that isn't known, or to the look-up of the row
/// to which the first pair leads, if there is one.
#[derive(Drop)]
pub(crate) enum Sought {
    Asks(usize, Ask),
    Leads(Option<Lookup>),
}

/// Goes on with a search as far as what is known allows.
pub(crate) fn search_on(
    alloc: Global,
    own: &OwnWrites,
    known: &KnownSpans,
    t: &Table,
    w: IndexSearch,
) -> Result<SearchStep, Memory>
    requires table { IsSoundTable t.now }
    requires index { w.index ≤ length t.now.unique }
    requires of_index { AllByRecursion (λ x. x.index ≡ w.index) w.lookups }
    ensures { IfOk result (λ step. (c : Contents) → IsSoundSearch c t.now w
        → IsSearchStep c t.now (reads_through own.now (served_reads known.now)) w step) }
{
    let lookups = rest_of(w.lookups.as_slice(), w.passed);
    match seek(alloc, own, known, t, w.index, lookups)? {
        Sought::Asks(more, ask) => Ok(SearchStep::Asks(ask, with_passed(w, more))),
        Sought::Leads(row) => Ok(SearchStep::Goes(scan_of(alloc, row)?)),
    }
}

/// A search in which so many more look-ups were answered.
fn with_passed(w: IndexSearch, more: usize) -> IndexSearch
    requires { more < length (drop w.passed w.lookups) }
    ensures { result ≡ record w { passed = w.passed + more } }
{
    let IndexSearch {
        index,
        lookups,
        passed,
    } = w;
    IndexSearch {
        index,
        lookups,
        passed: passed + more,
    }
}

/// Reading the row of at most one look-up.
fn scan_of(alloc: Global, row: Option<Lookup>) -> Result<RowScan, Memory>
    ensures { IfOk result (λ w. w ≡ record { is_first = false; lookups = option_to_list row; passed = 0; rows = [] }) }
{
    let mut lookups = ListOf::new(alloc);
    if let Some(lookup) = row {
        lookups.push(lookup)?;
    }
    Ok(RowScan {
        is_first: false,
        lookups,
        passed: 0,
        rows: KeyedRows::new(alloc),
    })
}

/// Goes through look-ups in an index, to the first that holds a pair, as far as what is known allows.
fn seek(
    alloc: Global,
    own: &OwnWrites,
    known: &KnownSpans,
    t: &Table,
    index: usize,
    lookups: &[Lookup],
) -> Result<Sought, Memory>
    requires table { IsSoundTable t.now }
    requires index { index ≤ length t.now.unique }
    requires of_index { AllByRecursion (λ x. x.index ≡ index) lookups.now }
    ensures { IfOk result (IsSought t.now index (reads_through own.now (served_reads known.now)) lookups.now) }
{
    for (i, lookup) in lookups.iter().enumerate() {
        let Some(pairs) = read_through(alloc, own, known, lookup.ask())? else {
            return Ok(Sought::Asks(i, lookup.ask().clone_in(alloc)?));
        };
        if !pairs.is_empty() {
            return Ok(Sought::Leads(row_lookup(alloc, t, lookup, pairs.as_slice())?));
        }
    }
    Ok(Sought::Leads(None))
}

/// The look-up of the row to which the first pair of an answer leads.
fn row_lookup(
    alloc: Global,
    t: &Table,
    lookup: &Lookup,
    pairs: &[Pair],
) -> Result<Option<Lookup>, Memory>
    requires table { IsSoundTable t.now }
    requires index { lookup.now.index ≤ length t.now.unique }
    ensures { IfOk result (λ row. row ≡ row_lookup t.now lookup.now (map key_value pairs.now)) }
{
    if lookup.index() == 0 {
        return Ok(Some(lookup.clone_in(alloc)?));
    }
    led_to(alloc, t, lookup, pairs)
}
