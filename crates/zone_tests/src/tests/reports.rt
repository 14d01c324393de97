//! Worked examples: statements with their answers, and the report in its exact bytes.

use mr_base::{Bytes, Memory, NodeId, NodeInfo, round_blank};
use std::alloc::Global;
use std::test::Fail;
use zone_report::{Format, Zones, are_nodes};

/// Three regions of three zones each.
static NINE: [&str; 9] = [
    "us-east a",
    "us-east b",
    "us-east c",
    "us-west a",
    "us-west b",
    "us-west c",
    "eu-west a",
    "eu-west b",
    "eu-west c",
];

/// Six regions of two zones each.
static TWELVE: [&str; 12] = [
    "r-a a", "r-a b", "r-b a", "r-b b", "r-c a", "r-c b", "r-d a", "r-d b", "r-e a", "r-e b",
    "r-f a", "r-f b",
];

/// The nodes of these regions and zones.
fn nodes(alloc: Global, places: &[&str]) -> Result<Vec<NodeInfo>, Memory> {
    let mut nodes = Vec::new(alloc);
    for place in places {
        add_node(alloc, &mut nodes, place.as_bytes())?;
    }
    Ok(nodes)
}

fn add_node(alloc: Global, nodes: &mut Vec<NodeInfo>, place: &[u8]) -> Result<(), Memory> {
    let Some((region, zone)) = round_blank(place) else {
        return Ok(());
    };
    let number = nodes.len().min(64) as u32 + 1;
    nodes.push(NodeInfo {
        id: NodeId(number),
        region: Bytes::from_slice(alloc, region)?,
        zone: Bytes::from_slice(alloc, zone)?,
    })?;
    Ok(())
}

/// What `zones` writes for nodes and statements: the refusals, then the ranges.
fn written(
    alloc: Global,
    places: &[&str],
    statements: &[&str],
    format: Format,
) -> Result<Vec<u8>, Memory> {
    let nodes = nodes(alloc, places)?;
    let mut out = Vec::new(alloc);
    if !are_nodes(alloc, nodes.as_slice())? {
        return Ok(out);
    }
    let mut zones = Zones::new(alloc, nodes.as_slice())?;
    for statement in statements {
        if let Some(refusal) = zones.statement(statement.as_bytes())? {
            out.extend_from_slice(refusal.line(alloc)?.as_slice())?;
        }
    }
    out.extend_from_slice(zones.report(format)?.as_slice())?;
    Ok(out)
}

/// Whether that is what is written as text.
fn gives(
    alloc: Global,
    places: &[&str],
    statements: &[&str],
    expected: &str,
) -> Result<bool, Memory> {
    let out = written(alloc, places, statements, Format::Text)?;
    Ok(out.as_slice() == expected.as_bytes())
}

const THREE: &str = "CREATE DATABASE d PRIMARY REGION \"us-east\" REGIONS \"us-west\", \"eu-west\"";

const SURVIVING: &str =
    "CREATE DATABASE d PRIMARY REGION \"us-east\" REGIONS \"us-west\", \"eu-west\" SURVIVE REGION FAILURE";

const TWO: &str = "CREATE DATABASE d PRIMARY REGION \"us-east\" REGIONS \"us-west\"";

const T: &str = "CREATE TABLE t (id INT PRIMARY KEY)";

#[test]
fn survival_of_zones_and_regions(rt: HostRuntime) -> Result<(), Fail> {
    let alloc = rt.alloc();
    let zone =
        "r1 t: num_replicas = 5, num_voters = 3, constraints = '{+region=us-east: 1, +region=us-west: 1, +region=eu-west: 1}', voter_constraints = '[+region=us-east]', lease_preferences = '[[+region=us-east]]'\n  voters n1 n2 n3, others n4 n7, lease n1\n";
    let region =
        "r1 t: num_replicas = 5, num_voters = 5, constraints = '{+region=us-east: 1, +region=us-west: 1, +region=eu-west: 1}', voter_constraints = '{+region=us-east: 2}', lease_preferences = '[[+region=us-east]]'\n  voters n1 n2 n4 n7 n5, others -, lease n1\n";
    let restricted =
        "r1 t: num_replicas = 3, num_voters = 3, constraints = '[]', voter_constraints = '[+region=us-east]', lease_preferences = '[[+region=us-east]]'\n  voters n1 n2 n3, others -, lease n1\n";
    let cases: [(&[&str], &str); 3] = [
        (&[THREE, T], zone),
        (&[SURVIVING, T], region),
        (
            &[THREE, "ALTER DATABASE d PLACEMENT RESTRICTED", T],
            restricted,
        ),
    ];
    for (statements, expected) in cases {
        assert!(rt; gives(alloc, &NINE, statements, expected)?, "{expected}");
    }
    Ok(())
}

#[test]
fn survival_of_regions_with_four_to_six(rt: HostRuntime) -> Result<(), Fail> {
    let alloc = rt.alloc();
    let four =
        "CREATE DATABASE d PRIMARY REGION \"r-a\" REGIONS \"r-b\", \"r-c\", \"r-d\" SURVIVE REGION FAILURE";
    let five =
        "CREATE DATABASE d PRIMARY REGION \"r-a\" REGIONS \"r-b\", \"r-c\", \"r-d\", \"r-e\" SURVIVE REGION FAILURE";
    let six =
        "CREATE DATABASE d PRIMARY REGION \"r-a\" REGIONS \"r-b\", \"r-c\", \"r-d\", \"r-e\", \"r-f\" SURVIVE REGION FAILURE";
    let of_four =
        "r1 t: num_replicas = 5, num_voters = 5, constraints = '{+region=r-a: 1, +region=r-b: 1, +region=r-c: 1, +region=r-d: 1}', voter_constraints = '{+region=r-a: 2}', lease_preferences = '[[+region=r-a]]'\n  voters n1 n2 n3 n5 n7, others -, lease n1\n";
    let of_five =
        "r1 t: num_replicas = 6, num_voters = 5, constraints = '{+region=r-a: 1, +region=r-b: 1, +region=r-c: 1, +region=r-d: 1, +region=r-e: 1}', voter_constraints = '{+region=r-a: 2}', lease_preferences = '[[+region=r-a]]'\n  voters n1 n2 n3 n5 n7, others n9, lease n1\n";
    let of_six =
        "r1 t: num_replicas = 7, num_voters = 5, constraints = '{+region=r-a: 1, +region=r-b: 1, +region=r-c: 1, +region=r-d: 1, +region=r-e: 1, +region=r-f: 1}', voter_constraints = '{+region=r-a: 2}', lease_preferences = '[[+region=r-a]]'\n  voters n1 n2 n3 n5 n7, others n9 n11, lease n1\n";
    for (nodes, database, expected) in [
        (8, four, of_four),
        (10, five, of_five),
        (12, six, of_six),
    ] {
        let places = &TWELVE[..nodes.min(12)];
        assert!(rt;
            gives(alloc, places, &[database, T], expected)?,
            "{expected}"
        );
    }
    Ok(())
}

#[test]
fn refused_statements(rt: HostRuntime) -> Result<(), Fail> {
    let alloc = rt.alloc();
    let statements = [
        TWO,
        "ALTER DATABASE d SURVIVE REGION FAILURE",
        "ALTER DATABASE d ADD REGION \"mars\"",
        "ALTER DATABASE d ADD REGION \"us-west\"",
        "ALTER DATABASE d DROP REGION \"us-east\"",
        "CREATE DATABASE d",
        "ALTER DATABASE x SURVIVE ZONE FAILURE",
        "ALTER TABLE u SET LOCALITY GLOBAL",
        "CREATE",
        "",
        "SELECT * FROM t",
    ];
    let lines =
        "sql refused D5\nsql refused D1\nsql refused D2\nsql refused D6\nsql refused 42P04\nsql refused 3D000\nsql refused 42P01\nsql refused 42601\nsql refused 42601\nsql refused 42601\n";
    assert!(rt; gives(alloc, &NINE[..6], &statements, lines)?);
    Ok(())
}

#[test]
fn unplaceable_ranges(rt: HostRuntime) -> Result<(), Fail> {
    let alloc = rt.alloc();
    // two zones at home, then a table whose home has three
    let places = [
        "us-east a",
        "us-east b",
        "us-east b",
        "us-west a",
        "us-west b",
        "us-west c",
    ];
    let statements = [
        TWO,
        T,
        "CREATE TABLE t (id INT PRIMARY KEY) LOCALITY REGIONAL BY TABLE IN \"us-west\"",
        "ALTER TABLE t SET LOCALITY REGIONAL BY ROW",
        "ALTER DATABASE d SET PRIMARY REGION \"us-west\"",
        T,
    ];
    let text =
        "sql refused P1 us-east 3 2\nsql refused P1 us-east 3 2\nsql refused 42P07\nr1 t: num_replicas = 4, num_voters = 3, constraints = '{+region=us-east: 1, +region=us-west: 1}', voter_constraints = '[+region=us-west]', lease_preferences = '[[+region=us-west]]'\n  voters n4 n5 n6, others n1, lease n4\n";
    assert!(rt; gives(alloc, &places, &statements, text)?);
    Ok(())
}

#[test]
fn ranges_of_rows_and_of_a_global_table(rt: HostRuntime) -> Result<(), Fail> {
    let alloc = rt.alloc();
    let statements = [
        TWO,
        "CREATE TABLE u (id INT PRIMARY KEY) LOCALITY REGIONAL BY ROW",
        "CREATE TABLE g (id INT PRIMARY KEY) LOCALITY GLOBAL",
        "CREATE DATABASE bare",
        T,
    ];
    let text =
        "r1 u@us-east: num_replicas = 4, num_voters = 3, constraints = '{+region=us-east: 1, +region=us-west: 1}', voter_constraints = '[+region=us-east]', lease_preferences = '[[+region=us-east]]'\n  voters n1 n2 n3, others n4, lease n1\nr2 u@us-west: num_replicas = 4, num_voters = 3, constraints = '{+region=us-east: 1, +region=us-west: 1}', voter_constraints = '[+region=us-west]', lease_preferences = '[[+region=us-west]]'\n  voters n4 n5 n6, others n1, lease n4\nr3 g: global_reads = true, num_replicas = 4, num_voters = 3, constraints = '{+region=us-east: 1, +region=us-west: 1}', voter_constraints = '[+region=us-east]', lease_preferences = '[[+region=us-east]]'\n  voters n1 n2 n3, others n4, lease n1\nr4 t: num_replicas = 1, num_voters = 1, constraints = '[]', voter_constraints = '[]', lease_preferences = '[]'\n  voters n1, others -, lease n1\n";
    assert!(rt; gives(alloc, &NINE[..6], &statements, text)?);
    Ok(())
}

#[test]
fn zone_survival_as_json(rt: HostRuntime) -> Result<(), Fail> {
    let expected =
        "{\"constraints\":{\"eu-west\":1,\"us-east\":1,\"us-west\":1},\"global_reads\":false,\"lease_preferences\":[\"us-east\"],\"num_replicas\":5,\"num_voters\":3,\"partition\":null,\"range\":1,\"table\":\"t\",\"voter_constraints\":{\"us-east\":3}}\n";
    let text = written(rt.alloc(), &NINE, &[THREE, T], Format::Json)?;
    assert!(rt; text.as_slice() == expected.as_bytes());
    Ok(())
}
