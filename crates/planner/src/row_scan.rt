//! Reading the rows of spans.

ghost use Rattle.std.specs.Prelude.{◌≡◌, IfOk, IfSome, OnOk, drop, map, option_map, option_to_list};
ghost use Rattle.std.specs.List.{AllByRecursion};
ghost use Rattle.std.specs.Option.{option_copied};
ghost use Rattle.descriptors.specs.Contents.{Contents};
ghost use Rattle.row_locality.specs.Decoding.{IsRegionFor};
ghost use Rattle.row_locality.specs.Pairs.{key_value, put_all};
ghost use Rattle.row_locality.specs.Plain.{IsRowOf};
ghost use Rattle.sql_eval.specs.Evaluation.{keyed_row, rows_in};
ghost use Rattle.sql_eval.specs.OwnWrites.{reads_through};
ghost use Rattle.sql_eval.specs.Reads.{served_reads};
ghost use Rattle.planner.specs.Phases.{AreKeyedRowsOf, IsLookupFor, IsSoundScan};
ghost use Rattle.planner.specs.Scans.{IsScanned, LivesIn};
ghost use Rattle.planner.specs.Turns.{IsScanStep};

use crate::keyed_rows::KeyedRows;
use crate::known_spans::KnownSpans;
use crate::looking::read_through;
use crate::own_writes::OwnWrites;
use crate::phases::{RowScan, rest_of};
use descriptors::Table;
use local_search::Lookup;
use mr_base::{Ask, CloneIn, EvalFault, Memory, Pair, Row};
use row_locality::{DecodeFault, decode, encode};
use std::alloc::Global;

/// How the reading of rows goes on: behind a span that it needs, or it has read all of them.
#[derive(Drop)]
pub(crate) enum ScanStep {
    Asks(Ask, RowScan),
    Ends(KeyedRows),
}

/// Reads rows as far as what is known allows.
pub(crate) fn scan_on(
    alloc: Global,
    own: &OwnWrites,
    known: &KnownSpans,
    t: &Table,
    w: RowScan,
) -> Result<ScanStep, Memory>
    requires { AllByRecursion (λ x. IsRegionFor t.now x.partition.region) w.lookups }
    ensures { IfOk result (λ step. (c : Contents) → IsSoundScan c t.now w
        → IsScanStep c t.now (reads_through own.now (served_reads known.now)) w step) }
{
    let RowScan {
        is_first,
        lookups,
        passed,
        mut rows,
    } = w;
    match scan(
        alloc,
        own,
        known,
        t,
        rest_of(lookups.as_slice(), passed),
        &mut rows,
    )? {
        None => Ok(ScanStep::Ends(rows)),
        Some((more, ask)) => Ok(ScanStep::Asks(
            ask,
            RowScan {
                is_first,
                lookups,
                passed: passed + more,
                rows,
            },
        )),
    }
}

/// Reads the rows of look-ups, put to others, up to the first that isn't known; and how many come before it.
fn scan(
    alloc: Global,
    own: &OwnWrites,
    known: &KnownSpans,
    t: &Table,
    lookups: &[Lookup],
    rows: &mut KeyedRows,
) -> Result<Option<(usize, Ask)>, Memory>
    requires regions { AllByRecursion (λ x. IsRegionFor t.now x.partition.region) lookups.now }
    ensures scanned { IfOk result
        (IsScanned t.now (reads_through own.now (served_reads known.now)) lookups.now rows.old rows.new) }
    ensures rows { OnOk result ((c : Contents) → AllByRecursion (IsLookupFor c t.now) lookups.now
        → AreKeyedRowsOf c t.now rows.old → AreKeyedRowsOf c t.now rows.new) }
{
    for (i, lookup) in lookups.iter().enumerate() {
        let Some(pairs) = read_through(alloc, own, known, lookup.ask())? else {
            return Ok(Some((i, lookup.ask().clone_in(alloc)?)));
        };
        put_rows(alloc, t, lookup, pairs.as_slice(), rows)?;
    }
    Ok(None)
}

/// Puts the rows of pairs to others.
fn put_rows(
    alloc: Global,
    t: &Table,
    lookup: &Lookup,
    pairs: &[Pair],
    rows: &mut KeyedRows,
) -> Result<(), Memory>
    requires region { IsRegionFor t.now lookup.now.partition.region }
    ensures put { OnOk result (rows.new ≡ put_all (rows_in t.now (lookup.now, map key_value pairs.now)) rows.old) }
    ensures rows { OnOk result ((c : Contents) → LivesIn c t.now lookup.now.partition.region
        → AreKeyedRowsOf c t.now rows.old → AreKeyedRowsOf c t.now rows.new) }
{
    for pair in pairs {
        put_row(alloc, t, lookup.region(), pair, rows)?;
    }
    Ok(())
}

/// Puts the row of a pair to others, where it is of one.
fn put_row(
    alloc: Global,
    t: &Table,
    region: Option<&[u8]>,
    pair: &Pair,
    rows: &mut KeyedRows,
) -> Result<(), Memory>
    requires region { IsRegionFor t.now (option_copied region) }
    ensures put { OnOk result (rows.new
        ≡ put_all (option_to_list (keyed_row t.now (option_copied region.entry) (key_value pair.now))) rows.old) }
    ensures rows { OnOk result ((c : Contents) → LivesIn c t.now (option_copied region.entry)
        → AreKeyedRowsOf c t.now rows.old → AreKeyedRowsOf c t.now rows.new) }
{
    let Some(row) = row_of(alloc, t, region, pair)? else {
        return Ok(());
    };
    rows.put(pair.key.clone_in(alloc)?, row)
}

/// The row of a pair, where it is of one that isn't too long to be written.
fn row_of(
    alloc: Global,
    t: &Table,
    region: Option<&[u8]>,
    pair: &Pair,
) -> Result<Option<Row>, Memory>
    requires region { IsRegionFor t.now (option_copied region) }
    ensures row { IfOk result (λ row. option_map (λ r. (pair.now.key, r)) row
        ≡ keyed_row t.now (option_copied region.entry) (key_value pair.now)) }
    ensures lives { IfOk result (λ row. IfSome row (λ r. (c : Contents)
        → LivesIn c t.now (option_copied region.entry) → IsRowOf c t.now r)) }
{
    let row = match decode(alloc, t, pair, region) {
        Ok(row) => row,
        Err(DecodeFault::Malformed) => return Ok(None),
        Err(DecodeFault::Memory) => return Err(Memory),
    };
    match encode(alloc, t, &row) {
        Ok(_) => Ok(Some(row)),
        Err(EvalFault::State(_)) => Ok(None),
        Err(EvalFault::Memory) => Err(Memory),
    }
}
