//! How rows are found: which spans a SELECT, UPDATE or DELETE looks up, and in which order.

ghost use Rattle.std.specs.Prelude.{◌≡◌, ◌≤◌, All, length, map, option_map, IfOk};
ghost use Rattle.descriptors.specs.Sound.{IsSoundTable};
ghost use Rattle.row_locality.specs.Pairs.{key_value};
ghost use Rattle.sql_eval.specs.Evaluation.{led_to};
ghost use Rattle.sql_eval.specs.Lookups.{index_for, row_lookups, searched_partitions};
ghost use Rattle.local_search.specs.LookupOrder.{IsTypedTerm};

use crate::fixed_values::{fixed_region, index_for};
use crate::index_columns::{key_span, unique_column};
use crate::lookups::{Lookup, push_lookups};
use crate::table_partitions::{Partition, near_first, those_in};
use descriptors::Table;
use mr_base::{Ask, CloneIn, ListOf, Memory, Pair};
use region_sql::Term;
use row_locality::{DecodeFault, all_rows, primary_of};
use std::alloc::Global;

/// How rows are found: the number of the index whose key is looked up, or none where all rows are read, and
/// the look-ups in their order.
#[derive(Drop)]
pub struct RowSearch {
    pub index: Option<usize>,
    pub lookups: ListOf<Lookup>,
}

/// How a SELECT, UPDATE or DELETE with these terms finds its rows: by the first index of which the terms fix
/// each column, and in the partition of the gateway's region first; else all rows, in catalog order. A term
/// `crdb_region = 'x'` leaves the partition of `x` alone. Source: CockroachDB's documentation of locality
/// optimized search, in this project's profile.
pub fn row_search(
    alloc: Global,
    t: &Table,
    partitions: &[Partition],
    gateway: &[u8],
    terms: &[Term],
) -> Result<RowSearch, Memory>
    requires sound { IsSoundTable t.now }
    requires typed { All (IsTypedTerm t.now) terms.now }
    ensures index { IfOk result (λ s. s.index ≡ option_map (λ x. x.0) (index_for t.now terms.now)) }
    ensures lookups { IfOk result (λ s. s.lookups ≡ row_lookups gateway.now (index_for t.now terms.now) (searched_partitions terms.now partitions.now)) }
{
    let searched = searched_partitions(alloc, terms, partitions)?;
    let mut lookups = ListOf::new(alloc);
    match index_for(alloc, t, terms)? {
        None => {
            push_lookups(
                alloc,
                &mut lookups,
                0,
                &all_rows(alloc)?,
                searched.as_slice(),
            )?;
            Ok(RowSearch {
                index: None,
                lookups,
            })
        }
        Some((index, values)) => {
            let ordered = near_first(alloc, gateway, searched.as_slice())?;
            let span = key_span(alloc, t, index, values.as_slice())?;
            push_lookups(alloc, &mut lookups, index, &span, ordered.as_slice())?;
            Ok(RowSearch {
                index: Some(index),
                lookups,
            })
        }
    }
}

/// The partitions in which rows can match.
fn searched_partitions(
    alloc: Global,
    terms: &[Term],
    partitions: &[Partition],
) -> Result<ListOf<Partition>, Memory>
    ensures { IfOk result (λ ps. ps ≡ searched_partitions terms.now partitions.now) }
{
    match fixed_region(terms) {
        None => ListOf::copy_of(alloc, partitions),
        Some(region) => those_in(alloc, region, partitions),
    }
}

/// The point of the row to which the first pair of an answer in the index of a UNIQUE column leads, in the
/// same partition; none where there is no pair, or where it leads to no primary key. Source: this project's
/// profile, after CockroachDB's unique secondary indexes.
pub fn led_to(
    alloc: Global,
    t: &Table,
    by: &Lookup,
    pairs: &[Pair],
) -> Result<Option<Lookup>, Memory>
    requires sound { IsSoundTable t.now }
    requires secondary { 1 ≤ by.now.index }
    requires index { by.now.index ≤ length t.now.unique }
    ensures { IfOk result (λ row. row ≡ led_to t.now by.now.index (by.now, map key_value pairs.now)) }
{
    let Some(pair) = pairs.first() else {
        return Ok(None);
    };
    match primary_of(alloc, t, unique_column(t, by.index), pair) {
        Ok(span) => Ok(Some(Lookup {
            region: by.region.clone_in(alloc)?,
            index: 0,
            ask: Ask {
                range: by.ask.range,
                span,
            },
        })),
        Err(DecodeFault::Malformed) => Ok(None),
        Err(DecodeFault::Memory) => Err(Memory),
    }
}
