//! The lines of ranges.

ghost use Rattle.std.specs.Prelude.{◌≡◌, ◌++◌, ◌+◌, ◌<◌, ◌≤◌, Contains, None, IfOk, IfSome, IsUtf8, OnOk, length};
ghost use Rattle.descriptors.specs.Sound.{IsSoundDatabase, IsSoundIn};
ghost use Rattle.std.specs.Option.{option_copied};
ghost use Rattle.zone_compile.specs.Configuration.{HasForm, NamesTexts};
ghost use Rattle.placement.specs.Fitting.{ServeFor};
ghost use Rattle.placement.specs.Placing.{lack_of};
ghost use Rattle.zone_report.specs.Nodes.{Serve};
ghost use Rattle.zone_report.specs.Ranges.{partitions, range_at, ranges, ranges_in, ranges_of_table};
ghost use Rattle.zone_report.specs.Refusals.{first_lack, lack_in, unplaceable};
ghost use Rattle.zone_report.specs.Report.{config_line, json_line, lines_from, placement_line, range_lines, range_name};

use crate::line_parts::{put, put_number, put_partition, put_placement};
use crate::partitions::{config_at, partitions, region_of};
use descriptors::{Catalog, Database, Table};
use mr_base::{Bytes, Memory, NodeInfo, RangeId};
use placement::{PlaceRefusal, place};
use std::alloc::Global;
use zone_compile::{ZoneConfig, json, text};

/// How ranges are written.
#[derive(Clone, Copy, Debug, PartialEq, Eq)]
pub enum Format {
    /// Two lines a range: its configuration as text, and its placement.
    Text,
    /// One line a range: its configuration as JSON.
    Json,
}

/// The lines of all ranges of a catalog.
pub(crate) fn report_of(
    alloc: Global,
    nodes: &[NodeInfo],
    catalog: &Catalog,
    format: Format,
) -> Result<Bytes, Memory>
    requires nodes { Serve nodes.now catalog.now.regions }
    requires placed { first_lack nodes.now (ranges catalog.now) ≡ None }
    ensures { IfOk result (λ text. text ≡ lines_from format nodes.now 1 (ranges catalog.now)) }
{
    let mut out = Vec::new(alloc);
    let lines = Lines {
        alloc,
        nodes,
        format,
    };
    let mut number = 1;
    for table in catalog.tables() {
        number = lines.put_table(&mut out, catalog, table, number)?;
    }
    Ok(Bytes::from_vec(out))
}

/// How the lines of ranges are written, and over which nodes.
#[derive(Drop)]
struct Lines<'a> {
    alloc: Global,
    nodes: &'a [NodeInfo],
    format: Format,
}

impl Lines<'_> {
    /// Adds the lines of a table's ranges: the number of the next range.
    fn put_table(
        &self,
        out: &mut Vec<u8>,
        catalog: &Catalog,
        table: &Table,
        number: u32,
    ) -> Result<u32, Memory>
        requires nodes { Serve self.now.nodes.now catalog.now.regions }
        requires placed { first_lack self.now.nodes.now (ranges_of_table catalog.now.databases table.now) ≡ None }
        requires table { Contains catalog.now.tables table.now }
        requires few { number ≤ 65536 }
        ensures lines { OnOk result (out.new.items ≡ out.old.items ++ lines_from self.now.format self.now.nodes.now number (ranges_of_table catalog.now.databases table.now)) }
        ensures number { IfOk result (λ next. next ≡ number + length (ranges_of_table catalog.now.databases table.now)) }
        ensures few { IfOk result (λ next. next ≤ number + 16) }
    {
        let Some(database) = catalog.database(table.database.as_slice()) else {
            return Ok(number);
        };
        self.put_ranges(out, database, table, number)
    }

    /// Adds the lines of the ranges of a database's table: the number of the next range.
    fn put_ranges(
        &self,
        out: &mut Vec<u8>,
        database: &Database,
        table: &Table,
        number: u32,
    ) -> Result<u32, Memory>
        requires database { IsSoundDatabase database.now }
        requires table { IsSoundIn database.now table.now }
        requires nodes { Serve self.now.nodes.now database.now.regions }
        requires placed { first_lack self.now.nodes.now (ranges_in database.now table.now) ≡ None }
        requires few { number ≤ 65536 }
        ensures lines { OnOk result (out.new.items ≡ out.old.items ++ lines_from self.now.format self.now.nodes.now number (ranges_in database.now table.now)) }
        ensures number { IfOk result (λ next. next ≡ number + length (ranges_in database.now table.now)) }
        ensures few { IfOk result (λ next. next ≤ number + 16) }
    {
        let mut next = number;
        for partition in 0..partitions(database, &table.locality) {
            self.put_range(out, database, table, partition, next)?;
            next += 1;
        }
        Ok(next)
    }

    /// Adds the lines of a range.
    fn put_range(
        &self,
        out: &mut Vec<u8>,
        database: &Database,
        table: &Table,
        partition: usize,
        number: u32,
    ) -> Result<(), Memory>
        requires database { IsSoundDatabase database.now }
        requires table { IsSoundIn database.now table.now }
        requires partition { partition < partitions database.now table.now.locality }
        requires nodes { Serve self.now.nodes.now database.now.regions }
        requires placed { lack_in self.now.nodes.now (range_at database.now table.now partition) ≡ None }
        ensures { OnOk result (out.new.items ≡ out.old.items ++ range_lines self.now.format self.now.nodes.now number (range_at database.now table.now partition)) }
    {
        let config = config_at(self.alloc, database, table, partition)?;
        let region = region_of(database, table, partition);
        match self.format {
            Format::Text => {
                put_config(self.alloc, out, number, &table.name, region, &config)?;
                put_placed(self.alloc, out, self.nodes, &config)
            }
            Format::Json => put_json(self.alloc, out, number, &table.name, region, &config),
        }
    }
}

/// Adds the line of a configuration.
fn put_config(
    alloc: Global,
    out: &mut Vec<u8>,
    number: u32,
    table: &Bytes,
    partition: Option<&Bytes>,
    config: &ZoneConfig,
) -> Result<(), Memory>
    ensures { OnOk result (out.new.items ≡ out.old.items ++ config_line number table.now (option_copied partition.entry) config.now) }
{
    let text = text(alloc, config)?;
    put_name(alloc, out, number, table, partition)?;
    put(out, text.as_slice())?;
    put(out, b"\n")?;
    Ok(())
}

/// Adds what names a range: its number, its table and the region of its partition.
fn put_name(
    alloc: Global,
    out: &mut Vec<u8>,
    number: u32,
    table: &Bytes,
    partition: Option<&Bytes>,
) -> Result<(), Memory>
    ensures { OnOk result (out.new.items ≡ out.old.items ++ range_name number table.now (option_copied partition.entry)) }
{
    put(out, b"r")?;
    put_number(alloc, out, number)?;
    put(out, b" ")?;
    put(out, table.as_slice())?;
    put_partition(out, partition)?;
    put(out, b": ")
}

/// Adds the line of a placement.
#[tactic(auto, unfolding(crate::specs::Report::placement_line))]
fn put_placed(
    alloc: Global,
    out: &mut Vec<u8>,
    nodes: &[NodeInfo],
    config: &ZoneConfig,
) -> Result<(), Memory>
    requires form { HasForm config.now }
    requires nodes { ServeFor config.now nodes.now }
    requires placed { unplaceable config.now.lease (lack_of config.now nodes.now) ≡ None }
    ensures { OnOk result (out.new.items ≡ out.old.items ++ placement_line nodes.now config.now) }
{
    match place(alloc, config, nodes) {
        Ok(placement) => {
            put_placement(alloc, out, &placement)?;
            put(out, b"\n")
        }
        Err(PlaceRefusal::Memory) => Err(Memory),
        Err(PlaceRefusal::Unplaceable { .. }) => unreachable!(),
    }
}

/// Adds the line of a range as JSON.
#[tactic(auto, unfolding(crate::specs::Report::json_line))]
fn put_json(
    alloc: Global,
    out: &mut Vec<u8>,
    number: u32,
    table: &Bytes,
    partition: Option<&Bytes>,
    config: &ZoneConfig,
) -> Result<(), Memory>
    requires table { IsUtf8 table.now }
    requires partition { IfSome (option_copied partition) IsUtf8 }
    requires texts { NamesTexts config.now }
    ensures { OnOk result (out.new.items ≡ out.old.items ++ json_line number table.now (option_copied partition.entry) config.now) }
{
    let partition = partition.map(|region| region.as_slice());
    let line = json(alloc, config, RangeId(number), table.as_slice(), partition)?;
    put(out, line.as_slice())?;
    put(out, b"\n")?;
    Ok(())
}
