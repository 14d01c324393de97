//! Configurations of a database of three regions, in their exact bytes.

ghost use Rattle.std.specs.Prelude.{◌≡◌, true, IfOk};
ghost use Rattle.zone_compile.specs.Configuration.{NamesTexts};
ghost use Rattle.zone_tests.specs.Examples.{IsExample, IsExampleLocality, IsExampleTable};

use descriptors::{Database, Table};
use mr_base::{Bytes, ListOf, Memory, RangeId};
use region_sql::{ColumnType, Goal, Locality};
use std::alloc::Global;
use std::test::Fail;
use zone_compile::{ZoneConfig, compile, json, text};

/// What the database survives, and which table of it.
#[derive(Clone, Copy)]
enum Kind {
    Zone,
    Region,
    /// The loss of a zone, with restricted placement
    Restricted,
    /// A GLOBAL table of a restricted database
    Global,
}

/// The database d of the regions us-east, us-west and eu-west, the first of them primary.
fn three_regions(alloc: Global, goal: Goal, restricted: bool) -> Result<Database, Memory>
    requires { restricted ≡ true → goal ≡ Goal.Zone }
    ensures { IfOk result IsExample }
{
    let mut regions = ListOf::new(alloc);
    regions.push(Bytes::from_slice(alloc, b"us-east")?)?;
    regions.push(Bytes::from_slice(alloc, b"us-west")?)?;
    regions.push(Bytes::from_slice(alloc, b"eu-west")?)?;
    Ok(Database {
        name: Bytes::from_slice(alloc, b"d")?,
        regions,
        primary: Some(0),
        goal,
        restricted,
    })
}

fn database(alloc: Global, kind: Kind) -> Result<Database, Memory>
    ensures { IfOk result IsExample }
{
    match kind {
        Kind::Zone => three_regions(alloc, Goal::Zone, false),
        Kind::Region => three_regions(alloc, Goal::Region, false),
        Kind::Restricted | Kind::Global => three_regions(alloc, Goal::Zone, true),
    }
}

fn locality(kind: Kind) -> Locality
    ensures { IsExampleLocality result }
{
    match kind {
        Kind::Global => Locality::Global,
        Kind::Zone | Kind::Region | Kind::Restricted => Locality::InPrimary,
    }
}

/// The table t (id INT PRIMARY KEY) of that database.
fn table(alloc: Global, kind: Kind) -> Result<Table, Memory>
    ensures { IfOk result IsExampleTable }
{
    let mut columns = ListOf::new(alloc);
    columns.push((Bytes::from_slice(alloc, b"id")?, ColumnType::Int))?;
    let mut key = ListOf::new(alloc);
    key.push(0)?;
    Ok(Table {
        name: Bytes::from_slice(alloc, b"t")?,
        database: Bytes::from_slice(alloc, b"d")?,
        columns,
        key,
        unique: ListOf::new(alloc),
        locality: Some(locality(kind)),
    })
}

fn config(alloc: Global, kind: Kind) -> Result<ZoneConfig, Memory>
    ensures { IfOk result NamesTexts }
{
    let d = database(alloc, kind)?;
    let t = table(alloc, kind)?;
    compile(alloc, &d, &t, None)
}

#[test]
fn texts_of_three_regions(rt: HostRuntime) -> Result<(), Fail> {
    let alloc = rt.alloc();
    let cases = [
        (
            Kind::Zone,
            "num_replicas = 5, num_voters = 3, constraints = '{+region=us-east: 1, +region=us-west: 1, +region=eu-west: 1}', voter_constraints = '[+region=us-east]', lease_preferences = '[[+region=us-east]]'",
        ),
        (
            Kind::Region,
            "num_replicas = 5, num_voters = 5, constraints = '{+region=us-east: 1, +region=us-west: 1, +region=eu-west: 1}', voter_constraints = '{+region=us-east: 2}', lease_preferences = '[[+region=us-east]]'",
        ),
        (
            Kind::Restricted,
            "num_replicas = 3, num_voters = 3, constraints = '[]', voter_constraints = '[+region=us-east]', lease_preferences = '[[+region=us-east]]'",
        ),
        (
            Kind::Global,
            "global_reads = true, num_replicas = 5, num_voters = 3, constraints = '{+region=us-east: 1, +region=us-west: 1, +region=eu-west: 1}', voter_constraints = '[+region=us-east]', lease_preferences = '[[+region=us-east]]'",
        ),
    ];
    for (kind, expected) in cases {
        let c = config(alloc, kind)?;
        assert!(rt;
            text(alloc, &c)?.as_slice() == expected.as_bytes(),
            "{expected}"
        );
    }
    Ok(())
}

#[test]
fn the_worked_example_as_json(rt: HostRuntime) -> Result<(), Fail> {
    let alloc = rt.alloc();
    let c = config(alloc, Kind::Zone)?;
    let text = json(alloc, &c, RangeId(1), b"t", None)?;
    let expected: &[u8] =
        b"{\"constraints\":{\"eu-west\":1,\"us-east\":1,\"us-west\":1},\"global_reads\":false,\"lease_preferences\":[\"us-east\"],\"num_replicas\":5,\"num_voters\":3,\"partition\":null,\"range\":1,\"table\":\"t\",\"voter_constraints\":{\"us-east\":3}}";
    assert!(rt; text.as_slice() == expected);
    Ok(())
}
