//! The ranges and spans that a read of bounded staleness looks at before it begins.

ghost use Rattle.std.specs.Prelude.{◌≡◌, ◌++◌, ◌∷◌, [], All, IfOk, OnOk, Ok, Some, slice_get};
ghost use Rattle.std.specs.Option.{option_copied};
ghost use Rattle.region_sql.specs.TextLiterals.{TextsAreUtf8};
ghost use Rattle.region_sql.specs.declared.row_statements.Wanted.{Wanted};
ghost use Rattle.descriptors.specs.Sound.{IsSoundTable};
ghost use Rattle.row_locality.specs.Spans.{all_keys};
ghost use Rattle.sql_eval.specs.Execution.{named_table};
ghost use Rattle.sql_eval.specs.Laws.{IsSoundSetting};
ghost use Rattle.sql_eval.specs.Tables.{named};
ghost use Rattle.local_search.specs.LookupOrder.{IsTypedTerm};
ghost use Rattle.planner.specs.FreshAsks.{fresh_asks, fresh_asks_in, fresh_asks_of, fresh_asks_of_list, fresh_asks_on, looked_at};

use crate::setting::{PlanSetting, partitions_of};
use descriptors::Table;
use local_search::{Lookup, Partition, row_search};
use mr_base::{Ask, Bytes, CloneIn, ListOf, Memory, Span};
use region_sql::{RowStatement, Term};
use sql_eval::{NamedTable, check, named_table};
use std::alloc::Global;
use std::slice;

/// What a plan of one SELECT looks at that has no fault before any row is looked at; none for any other plan.
pub(crate) fn fresh_asks(
    alloc: Global,
    setting: &PlanSetting,
) -> Result<Option<ListOf<Ask>>, Memory>
    requires { IsSoundSetting setting.now }
    ensures { IfOk result (λ asks. asks ≡ fresh_asks setting.now) }
{
    match setting.list() {
        Err(_) => Ok(None),
        Ok(list) => fresh_asks_of_list(alloc, setting, list.as_slice()),
    }
}

/// The same of a list of statements.
fn fresh_asks_of_list(
    alloc: Global,
    setting: &PlanSetting,
    list: &[RowStatement],
) -> Result<Option<ListOf<Ask>>, Memory>
    requires sound { IsSoundSetting setting.now }
    requires texts { All TextsAreUtf8 list.now }
    ensures { IfOk result (λ asks. asks ≡ fresh_asks_of_list setting.now (Ok list.now)) }
{
    if list.len() != 1 {
        return Ok(None);
    }
    fresh_asks_of(alloc, setting, &list[0])
}

/// The same of a statement.
fn fresh_asks_of(
    alloc: Global,
    setting: &PlanSetting,
    one: &RowStatement,
) -> Result<Option<ListOf<Ask>>, Memory>
    requires sound { IsSoundSetting setting.now }
    requires texts { TextsAreUtf8 one.now }
    ensures { IfOk result (λ asks. asks ≡ fresh_asks_of setting.now one.now) }
{
    let RowStatement::Select { table, terms, .. } = one else {
        return Ok(None);
    };
    let Some(n) = named_table(setting.catalog(), table.as_slice()) else {
        return Ok(None);
    };
    fresh_asks_on(alloc, setting, &n, table.as_slice(), one, terms.as_slice())
}

/// The same of a SELECT with these terms of this table.
fn fresh_asks_on(
    alloc: Global,
    setting: &PlanSetting,
    n: &NamedTable,
    table: &[u8],
    one: &RowStatement,
    terms: &[Term],
) -> Result<Option<ListOf<Ask>>, Memory>
    requires sound { IsSoundSetting setting.now }
    requires table { named_table setting.now.layout.catalog table.now ≡ Some (named n.now) }
    requires texts { TextsAreUtf8 one.now }
    requires select { (wanted : Wanted) × (one.now ≡ RowStatement.Select table.now wanted terms.now) }
    ensures { IfOk result (λ asks. asks ≡ fresh_asks_on setting.now one.now terms.now (named n.now)) }
{
    if check(one, n.table, n.database).is_err() {
        return Ok(None);
    }
    let partitions = partitions_of(alloc, setting, n, table)?;
    Ok(Some(fresh_asks_in(alloc, n.table, partitions.as_slice(), terms)?))
}

/// What a SELECT with these terms looks at: in each range of the table, or in the one that a term
/// `crdb_region = 'x'` names, in the order of ranges, the point of the primary key where each of its columns
/// has a term with `=`, else all keys. Source: CockroachDB's documentation of bounded staleness reads, in this
/// project's profile.
pub(crate) fn fresh_asks_in(
    alloc: Global,
    t: &Table,
    partitions: &[Partition],
    terms: &[Term],
) -> Result<ListOf<Ask>, Memory>
    requires sound { IsSoundTable t.now }
    requires typed { All (IsTypedTerm t.now) terms.now }
    ensures { IfOk result (λ asks. asks ≡ fresh_asks_in t.now partitions.now terms.now) }
{
    let mut asks = ListOf::new(alloc);
    for partition in partitions {
        push_fresh(alloc, &mut asks, t, partition, terms)?;
    }
    Ok(asks)
}

/// What it looks at in a partition, behind other spans.
fn push_fresh(
    alloc: Global,
    asks: &mut ListOf<Ask>,
    t: &Table,
    partition: &Partition,
    terms: &[Term],
) -> Result<(), Memory>
    requires sound { IsSoundTable t.now }
    requires typed { All (IsTypedTerm t.now) terms.now }
    ensures { OnOk result (asks.new ≡ asks.old ++ fresh_asks_in t.now (partition.now ∷ []) terms.now) }
{
    let search = row_search(alloc, t, slice::from_ref(partition), b"", terms)?;
    let Some(lookup) = first_of(search.lookups.as_slice()) else {
        return Ok(());
    };
    asks.push(looked_at(alloc, search.index, lookup)?)
}

/// The first look-up.
fn first_of(lookups: &[Lookup]) -> Option<&Lookup>
    ensures { option_copied result ≡ slice_get lookups.now 0 }
{
    lookups.first()
}

/// The point that is looked up, where it is one of the primary key, else all keys of that range.
fn looked_at(alloc: Global, index: Option<usize>, lookup: &Lookup) -> Result<Ask, Memory>
    ensures { IfOk result (λ ask. ask ≡ looked_at index lookup.now) }
{
    match index {
        Some(0) => lookup.ask().clone_in(alloc),
        _ => Ok(Ask {
            range: lookup.ask().range,
            span: all_keys(alloc)?,
        }),
    }
}

/// The span of all keys of a partition.
fn all_keys(alloc: Global) -> Result<Span, Memory>
    ensures { IfOk result (λ s. s ≡ all_keys) }
{
    Ok(Span {
        lo: Bytes::from_slice(alloc, &[0])?,
        hi: Bytes::from_slice(alloc, &[17])?,
    })
}
