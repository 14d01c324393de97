//! The pairs that a statement's rows remove and add.

ghost use Rattle.std.specs.Prelude.{◌≡◌, ◌++◌, All, IfOk, IsTrue, OnOk, map, position, slice_get};
ghost use Rattle.std.specs.Option.{option_copied};
ghost use Rattle.std.specs.Str.{bytes_eq};
ghost use Rattle.descriptors.specs.Sound.{IsSoundTable};
ghost use Rattle.row_locality.specs.Pairs.{index_pairs, key_value, pairs_of, row_pair};
ghost use Rattle.row_locality.specs.Plain.{IsRowOf, Layout, range_of};
ghost use Rattle.row_locality.specs.Rows.{is_by_row, region_of};
ghost use Rattle.row_locality.specs.Values.{is_small};
ghost use Rattle.sql_eval.specs.Evaluation.{additions, removals};
ghost use Rattle.sql_eval.specs.Execution.{named_table};
ghost use Rattle.sql_eval.specs.Laws.{IsSoundSetting};
ghost use Rattle.sql_eval.specs.Tables.{named};
ghost use Rattle.planner.specs.RowWrites.{ArePartitionsOf, place_of_region, write_by, writes_of_rows};

use crate::setting::{PlanSetting, partitions_of};
use descriptors::Table;
use local_search::Partition;
use mr_base::{
    Bytes, CloneIn, Datum, EvalFault, ListOf, Memory, Pair, RangeId, Row, StatementResult,
};
use region_sql::Locality;
use row_locality::{encode, index_pairs};
use sql_eval::NamedTable;
use std::alloc::Global;
use std::marker::Model;

/// A key of a range, its value before a write and its value after. None: there is no such key.
#[derive(Drop)]
pub(crate) struct RowWrite {
    pub(crate) range: RangeId,
    pub(crate) key: Bytes,
    pub(crate) before: Option<Bytes>,
    pub(crate) after: Option<Bytes>,
}

impl Model for RowWrite {
    ghost use Rattle.sql_eval.specs.OwnWrites.{OwnWrite};

    ghost Value = { OwnWrite };

    ghost view = { λ w. record { range = w.range; key = w.key; before = w.before; after = w.after } };
}

/// What a statement comes to: its answer, and its writes.
#[derive(Drop)]
pub(crate) struct StatementOutcome {
    pub(crate) answer: StatementResult,
    pub(crate) writes: ListOf<RowWrite>,
}

impl Model for StatementOutcome {
    ghost use Rattle.sql_eval.specs.Evaluation.{Outcome};

    ghost Value = { Outcome };

    ghost view = { λ x. record { answer = x.answer; writes = x.writes } };
}

/// The removals of the pairs of rows.
pub(crate) fn removals(
    alloc: Global,
    setting: &PlanSetting,
    n: &NamedTable,
    name: &[u8],
    rows: &[Row],
) -> Result<ListOf<RowWrite>, Memory>
    requires sound { IsSoundSetting setting.now }
    requires table { named_table setting.now.layout.catalog name.now ≡ Some (named n.now) }
    requires rows { All (IsRowOf setting.now.layout.catalog n.now.table.now) rows.now }
    ensures { IfOk result (λ ws. ws ≡ removals setting.now.layout (named n.now) rows.now) }
{
    let partitions = partitions_of(alloc, setting, n, name)?;
    let mut writes = ListOf::new(alloc);
    push_rows(alloc, &mut writes, false, n, partitions.as_slice(), rows)?;
    Ok(writes)
}

/// The removals of the pairs of rows, and then the additions of those of others.
pub(crate) fn replacements(
    alloc: Global,
    setting: &PlanSetting,
    n: &NamedTable,
    name: &[u8],
    old: &[Row],
    new: &[Row],
) -> Result<ListOf<RowWrite>, Memory>
    requires sound { IsSoundSetting setting.now }
    requires table { named_table setting.now.layout.catalog name.now ≡ Some (named n.now) }
    requires old { All (IsRowOf setting.now.layout.catalog n.now.table.now) old.now }
    requires new { All (IsRowOf setting.now.layout.catalog n.now.table.now) new.now }
    ensures { IfOk result (λ ws. ws ≡ removals setting.now.layout (named n.now) old.now
        ++ additions setting.now.layout (named n.now) new.now) }
{
    let partitions = partitions_of(alloc, setting, n, name)?;
    let mut writes = ListOf::new(alloc);
    push_rows(alloc, &mut writes, false, n, partitions.as_slice(), old)?;
    push_rows(alloc, &mut writes, true, n, partitions.as_slice(), new)?;
    Ok(writes)
}

/// The writes that add or remove the pairs of rows, behind others.
fn push_rows(
    alloc: Global,
    writes: &mut ListOf<RowWrite>,
    adds: bool,
    n: &NamedTable,
    partitions: &[Partition],
    rows: &[Row],
) -> Result<(), Memory>
    requires sound { IsSoundTable n.now.table.now }
    requires small { All (λ row. IsTrue (is_small n.now.table.now row)) rows.now }
    ensures { OnOk result ((l : Layout) → ArePartitionsOf l (named n.now) partitions.now
        → writes.new ≡ writes.old ++ writes_of_rows adds l (named n.now) rows.now) }
{
    for row in rows {
        let range = range_of(n, partitions, row.as_slice());
        push_row(alloc, writes, adds, range, n.table, row)?;
    }
    Ok(())
}

/// The writes that add or remove the pairs of a row in a range, behind others.
fn push_row(
    alloc: Global,
    writes: &mut ListOf<RowWrite>,
    adds: bool,
    range: RangeId,
    t: &Table,
    row: &Row,
) -> Result<(), Memory>
    requires sound { IsSoundTable t.now }
    requires small { IsTrue (is_small t.now row.now) }
    ensures { OnOk result (writes.new ≡ writes.old ++ map (write_by adds range) (pairs_of t.now row.now)) }
{
    let pair = own_pair(alloc, t, row)?;
    let others = other_pairs(alloc, t, row)?;
    writes.push(write_by(adds, range, pair))?;
    push_pairs(alloc, writes, adds, range, &others)
}

/// The writes that add or remove pairs in a range, behind others.
fn push_pairs(
    alloc: Global,
    writes: &mut ListOf<RowWrite>,
    adds: bool,
    range: RangeId,
    pairs: &[Pair],
) -> Result<(), Memory>
    ensures { OnOk result (writes.new ≡ writes.old ++ map (write_by adds range) (map key_value pairs.now)) }
{
    for pair in pairs {
        writes.push(write_by(adds, range, pair.clone_in(alloc)?))?;
    }
    Ok(())
}

/// The write that adds or removes a pair in a range.
fn write_by(adds: bool, range: RangeId, pair: Pair) -> RowWrite
    ensures { result ≡ write_by adds range (key_value pair) }
{
    let Pair { key, value } = pair;
    if adds {
        return RowWrite {
            range,
            key,
            before: None,
            after: Some(value),
        };
    }
    RowWrite {
        range,
        key,
        before: Some(value),
        after: None,
    }
}

/// The pair of a row that isn't too long in the primary index.
fn own_pair(alloc: Global, t: &Table, row: &Row) -> Result<Pair, Memory>
    requires { IsTrue (is_small t.now row.now) }
    ensures { IfOk result (λ p. key_value p ≡ row_pair t.now row.now) }
{
    match encode(alloc, t, row) {
        Ok(pair) => Ok(pair),
        Err(EvalFault::Memory) => Err(Memory),
        Err(EvalFault::State(_)) => unreachable!(),
    }
}

/// The pairs of a row that isn't too long in the indexes of the UNIQUE columns.
fn other_pairs(alloc: Global, t: &Table, row: &Row) -> Result<Vec<Pair>, Memory>
    requires sound { IsSoundTable t.now }
    requires small { IsTrue (is_small t.now row.now) }
    ensures { IfOk result (λ ps. map key_value ps.items ≡ index_pairs t.now row.now) }
{
    match index_pairs(alloc, t, row) {
        Ok(pairs) => Ok(pairs),
        Err(EvalFault::Memory) => Err(Memory),
        Err(EvalFault::State(_)) => unreachable!(),
    }
}

/// The range in which a row lives: that of the partition of its region, or of the only one.
fn range_of(n: &NamedTable, partitions: &[Partition], row: &[Datum]) -> RangeId
    ensures { (l : Layout) → ArePartitionsOf l (named n.now) partitions.now
        → result ≡ range_of l n.now.place n.now.table.now row.now }
{
    let place = place_of_region(n.database.regions.as_slice(), region_of(n.table, row));
    match partition_at(partitions, place) {
        Some(partition) => partition.range(),
        None => RangeId(0),
    }
}

/// The partition at a place.
fn partition_at(partitions: &[Partition], place: usize) -> Option<&Partition>
    ensures { option_copied result ≡ slice_get partitions.now place }
{
    partitions.get(place)
}

/// The place of a region among others, or 0.
fn place_of_region(regions: &[Bytes], region: Option<&[u8]>) -> usize
    ensures { result ≡ place_of_region regions.now (option_copied region.entry) }
{
    let Some(region) = region else {
        return 0;
    };
    match place_among(regions, region) {
        None => 0,
        Some(place) => place,
    }
}

/// The place of a region among others.
fn place_among(regions: &[Bytes], region: &[u8]) -> Option<usize>
    ensures { result ≡ position (bytes_eq region.now) regions.now }
{
    regions.iter().position(|other| region == other.as_slice())
}

/// The region in which a row lives, where the table is REGIONAL BY ROW.
fn region_of<'a>(t: &Table, row: &'a [Datum]) -> Option<&'a [u8]>
    ensures { option_copied result ≡ region_of t.now row.now }
{
    if !is_by_row(t) {
        return None;
    }
    match row.get(t.columns.len())? {
        Datum::Text(region) => Some(region.as_slice()),
        _ => None,
    }
}

/// Whether the table is REGIONAL BY ROW.
fn is_by_row(t: &Table) -> bool
    ensures { result ≡ is_by_row t.now }
{
    match &t.locality {
        Some(Locality::ByRow) => true,
        _ => false,
    }
}
