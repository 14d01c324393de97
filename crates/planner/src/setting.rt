//! Where and how a list runs.

ghost use Rattle.std.specs.Prelude.{◌≡◌, IfOk, slice_get};
ghost use Rattle.std.specs.Option.{option_copied};
ghost use Rattle.sql_eval.specs.Evaluation.{partitions_of};
ghost use Rattle.sql_eval.specs.Execution.{named_table};
ghost use Rattle.sql_eval.specs.Laws.{IsSoundSetting};
ghost use Rattle.sql_eval.specs.Tables.{named};

use descriptors::Catalog;
use local_search::{Partition, partitions};
use mr_base::{Bytes, ListOf, Memory, RangeId, SqlState};
use region_sql::List;
use sql_eval::NamedTable;
use std::alloc::Global;
use std::marker::Model;

/// Where and how a list runs: the tables, the range of the first partition of each, the gateway's region, and
/// the list as it was read.
#[derive(Drop)]
pub(crate) struct PlanSetting {
    catalog: Catalog,
    first_ranges: ListOf<RangeId>,
    region: Bytes,
    list: Result<List, SqlState>,
}

impl Model for PlanSetting {
    ghost use Rattle.sql_eval.specs.Evaluation.{Setting};

    ghost Value = { Setting };

    ghost view = { λ s. record {
      layout = record {
        catalog = s.catalog;
        first_ranges = s.first_ranges;
      };
      region = s.region;
      list = s.list;
    } };
}

impl PlanSetting {
    pub(crate) fn new(
        catalog: Catalog,
        first_ranges: ListOf<RangeId>,
        region: Bytes,
        list: Result<List, SqlState>,
    ) -> PlanSetting
        ensures catalog { result.layout.catalog ≡ catalog }
        ensures first_ranges { result.layout.first_ranges ≡ first_ranges }
        ensures region { result.region ≡ region }
        ensures list { result.list ≡ list }
    {
        PlanSetting {
            catalog,
            first_ranges,
            region,
            list,
        }
    }

    pub(crate) fn catalog(&self) -> &Catalog
        ensures { result.now ≡ self.now.layout.catalog }
    {
        &self.catalog
    }

    /// The gateway's region.
    pub(crate) fn region(&self) -> &[u8]
        ensures { result.now ≡ self.now.region }
    {
        self.region.as_slice()
    }

    pub(crate) fn list(&self) -> &Result<List, SqlState>
        ensures { result.now ≡ self.now.list }
    {
        &self.list
    }

    /// The range of the first partition of the table at a place.
    fn first_range(&self, place: usize) -> Option<&RangeId>
        ensures { option_copied result ≡ slice_get self.now.layout.first_ranges place }
    {
        self.first_ranges.as_slice().get(place)
    }
}

/// The partitions of a table in catalog order.
pub(crate) fn partitions_of(
    alloc: Global,
    setting: &PlanSetting,
    n: &NamedTable,
    name: &[u8],
) -> Result<ListOf<Partition>, Memory>
    requires sound { IsSoundSetting setting.now }
    requires table { named_table setting.now.layout.catalog name.now ≡ Some (named n.now) }
    ensures { IfOk result (λ ps. ps ≡ partitions_of setting.now.layout (named n.now)) }
{
    match setting.first_range(n.place) {
        Some(first) => partitions(alloc, n.table, n.database, *first),
        None => unreachable!(),
    }
}
