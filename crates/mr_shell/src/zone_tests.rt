//! Scenarios of the command `zones` with their reports, a trace, and lists of words that are no command.

use crate::top::top;
use mr_io::{MemSink, MemSource};
use std::alloc::Global;
use std::test::Fail;

/// What these words write for a scenario, and the status.
fn answer(alloc: Global, words: &[&str], scenario: &[u8]) -> Result<(Vec<u8>, u8), Fail> {
    let none: [u32; 0] = [];
    let mut list = Vec::new(alloc);
    for word in words {
        list.push(String::from_str(alloc, word)?)?;
    }
    let mut source = MemSource::new(alloc, scenario, none.as_slice())?;
    let mut sink = MemSink::new(alloc, 4096, none.as_slice())?;
    let outcome = top(alloc, list.as_slice(), &mut source, &mut sink);
    Ok((sink.written().to_vec(alloc)?, outcome.status))
}

const ZONE_GOAL: &[u8] = b"cluster
node n1 us-east a 1000
node n2 us-east b 1000
node n3 us-east c 1000
node n4 us-west a 1000
node n5 us-west b 1000
node n6 us-west c 1000
node n7 eu-west a 1000
node n8 eu-west b 1000
node n9 eu-west c 1000
sql CREATE DATABASE d PRIMARY REGION \"us-east\" REGIONS \"us-west\", \"eu-west\"
sql CREATE TABLE t (id INT PRIMARY KEY)
";

const ZONE_GOAL_REPORT: &[u8] =
    b"r1 t: num_replicas = 5, num_voters = 3, constraints = '{+region=us-east: 1, +region=us-west: 1, +region=eu-west: 1}', voter_constraints = '[+region=us-east]', lease_preferences = '[[+region=us-east]]'
  voters n1 n2 n3, others n4 n7, lease n1
";

const REGION_GOAL: &[u8] = b"cluster
node n1 us-east a 1000
node n2 us-east b 1000
node n3 us-east c 1000
node n4 us-west a 1000
node n5 us-west b 1000
node n6 us-west c 1000
node n7 eu-west a 1000
node n8 eu-west b 1000
node n9 eu-west c 1000
sql CREATE DATABASE d PRIMARY REGION \"us-east\" REGIONS \"us-west\", \"eu-west\" SURVIVE REGION FAILURE
sql CREATE TABLE t (id INT PRIMARY KEY)
";

const REGION_GOAL_REPORT: &[u8] =
    b"r1 t: num_replicas = 5, num_voters = 5, constraints = '{+region=us-east: 1, +region=us-west: 1, +region=eu-west: 1}', voter_constraints = '{+region=us-east: 2}', lease_preferences = '[[+region=us-east]]'
  voters n1 n2 n4 n7 n5, others -, lease n1
";

const FOUR_REGIONS: &[u8] = b"cluster
node n1 r-a a 1000
node n2 r-a b 1000
node n3 r-b a 1000
node n4 r-b b 1000
node n5 r-c a 1000
node n6 r-c b 1000
node n7 r-d a 1000
node n8 r-d b 1000
sql CREATE DATABASE d PRIMARY REGION \"r-a\" REGIONS \"r-b\", \"r-c\", \"r-d\" SURVIVE REGION FAILURE
sql CREATE TABLE t (id INT PRIMARY KEY)
";

const FOUR_REGIONS_REPORT: &[u8] =
    b"r1 t: num_replicas = 5, num_voters = 5, constraints = '{+region=r-a: 1, +region=r-b: 1, +region=r-c: 1, +region=r-d: 1}', voter_constraints = '{+region=r-a: 2}', lease_preferences = '[[+region=r-a]]'
  voters n1 n2 n3 n5 n7, others -, lease n1
";

const FIVE_REGIONS: &[u8] = b"cluster
node n1 r-a a 1000
node n2 r-a b 1000
node n3 r-b a 1000
node n4 r-b b 1000
node n5 r-c a 1000
node n6 r-c b 1000
node n7 r-d a 1000
node n8 r-d b 1000
node n9 r-e a 1000
node n10 r-e b 1000
sql CREATE DATABASE d PRIMARY REGION \"r-a\" REGIONS \"r-b\", \"r-c\", \"r-d\", \"r-e\" SURVIVE REGION FAILURE
sql CREATE TABLE t (id INT PRIMARY KEY)
";

const FIVE_REGIONS_REPORT: &[u8] =
    b"r1 t: num_replicas = 6, num_voters = 5, constraints = '{+region=r-a: 1, +region=r-b: 1, +region=r-c: 1, +region=r-d: 1, +region=r-e: 1}', voter_constraints = '{+region=r-a: 2}', lease_preferences = '[[+region=r-a]]'
  voters n1 n2 n3 n5 n7, others n9, lease n1
";

const SIX_REGIONS: &[u8] = b"cluster
node n1 r-a a 1000
node n2 r-a b 1000
node n3 r-b a 1000
node n4 r-b b 1000
node n5 r-c a 1000
node n6 r-c b 1000
node n7 r-d a 1000
node n8 r-d b 1000
node n9 r-e a 1000
node n10 r-e b 1000
node n11 r-f a 1000
node n12 r-f b 1000
sql CREATE DATABASE d PRIMARY REGION \"r-a\" REGIONS \"r-b\", \"r-c\", \"r-d\", \"r-e\", \"r-f\" SURVIVE REGION FAILURE
sql CREATE TABLE t (id INT PRIMARY KEY)
";

const SIX_REGIONS_REPORT: &[u8] =
    b"r1 t: num_replicas = 7, num_voters = 5, constraints = '{+region=r-a: 1, +region=r-b: 1, +region=r-c: 1, +region=r-d: 1, +region=r-e: 1, +region=r-f: 1}', voter_constraints = '{+region=r-a: 2}', lease_preferences = '[[+region=r-a]]'
  voters n1 n2 n3 n5 n7, others n9 n11, lease n1
";

const REFUSED: &[u8] = b"cluster
node n1 us-east a 1000
node n2 us-east b 1000
node n3 us-east c 1000
node n4 us-west a 1000
node n5 us-west b 1000
node n6 us-west c 1000
sql CREATE DATABASE d PRIMARY REGION \"us-east\" REGIONS \"us-west\"
sql ALTER DATABASE d SURVIVE REGION FAILURE
sql ALTER DATABASE d ADD REGION \"mars\"
sql ALTER DATABASE d ADD REGION \"us-west\"
sql ALTER DATABASE d DROP REGION \"us-east\"
sql CREATE DATABASE d
sql ALTER DATABASE x SURVIVE ZONE FAILURE
sql ALTER TABLE u SET LOCALITY GLOBAL
sql CREATE
";

const REFUSED_REPORT: &[u8] = b"sql refused D5
sql refused D1
sql refused D2
sql refused D6
sql refused 42P04
sql refused 3D000
sql refused 42P01
sql refused 42601
";

const UNPLACEABLE: &[u8] = b"cluster
node n1 us-east a 1000
node n2 us-east b 1000
node n3 us-east b 1000
sql CREATE DATABASE d PRIMARY REGION \"us-east\"
sql CREATE TABLE t (id INT PRIMARY KEY)
";

const UNPLACEABLE_REPORT: &[u8] = b"sql refused P1 us-east 3 2
";

const RESTRICTED: &[u8] = b"cluster
node n1 us-east a 1000
node n2 us-east b 1000
node n3 us-east c 1000
node n4 us-west a 1000
node n5 us-west b 1000
node n6 us-west c 1000
node n7 eu-west a 1000
node n8 eu-west b 1000
node n9 eu-west c 1000
sql CREATE DATABASE d PRIMARY REGION \"us-east\" REGIONS \"us-west\", \"eu-west\"
sql ALTER DATABASE d PLACEMENT RESTRICTED
sql CREATE TABLE t (id INT PRIMARY KEY)
";

const RESTRICTED_REPORT: &[u8] =
    b"r1 t: num_replicas = 3, num_voters = 3, constraints = '[]', voter_constraints = '[+region=us-east]', lease_preferences = '[[+region=us-east]]'
  voters n1 n2 n3, others -, lease n1
";

const ZONE_GOAL_JSON: &[u8] =
    b"{\"constraints\":{\"eu-west\":1,\"us-east\":1,\"us-west\":1},\"global_reads\":false,\"lease_preferences\":[\"us-east\"],\"num_replicas\":5,\"num_voters\":3,\"partition\":null,\"range\":1,\"table\":\"t\",\"voter_constraints\":{\"us-east\":3}}
";

/// A scenario that goes on after a refused statement, and ends at a line that `zones` doesn't take.
const FAULTY: &[u8] = b"cluster
node n1 us-east a 1000
sql CREATE DATABASE d PRIMARY REGION \"mars\"
begin
";

const ONE_TABLE: &[u8] = b"cluster
node n1 us-east a 1000
sql CREATE DATABASE d
sql CREATE TABLE t (id INT PRIMARY KEY)
begin
txn t1 n1 now INSERT INTO t (id) VALUES (1)
txn t2 n1 now SELECT * FROM t
txn t3 n1 now INSERT INTO t (id) VALUES (1)
";

const ONE_TABLE_TRACE: &[u8] = b"event 5
append r1 1 lease 1 n1 boot 1 expires 7000 low 0.0.0
event 6
begin t1 a1 n1 start 1000.0.1 limit 1500
serve a1 n1 r1 [008000000000000001,00800000000000000100) at 1000.0.1 limit 1500 log 1 by lease fates -
append r1 2 put a1 start 1000.0.1 anchor r1 at 1000.0.1 key 008000000000000001 value 010000000000000001
append r1 3 record a1 committed 1000.0.1
append r1 4 resolve a1 key 008000000000000001 committed 1000.0.1
ack t1 1000.0.1
= insert 1
event 7
begin t2 a2 n1 start 1000.1.2 limit 1500
serve a2 n1 r1 [00,01) at 1000.1.2 limit 1500 log 4 by lease fates -
ack t2 1000.1.2
= select 1
  1
event 8
begin t3 a3 n1 start 1000.2.3 limit 1500
serve a3 n1 r1 [008000000000000001,00800000000000000100) at 1000.2.3 limit 1500 log 4 by lease fates -
fault t3 1000.2.3 23505
";

const USAGE: &[u8] =
    b"! usage: run [--trace | --summary] | zones [--json] | gen SEED SIZE | work SEED SIZE
";

#[test]
fn zones_and_traces_are_written(rt: HostRuntime) -> Result<(), Fail> {
    let alloc = rt.alloc();
    let zones = ["zones"];
    let json = ["--json", "--", "zones"];
    let trace = ["run", "--trace"];
    let cases: [(&[&str], &[u8], &[u8], u8); 11] = [
        (zones.as_slice(), ZONE_GOAL, ZONE_GOAL_REPORT, 0),
        (zones.as_slice(), REGION_GOAL, REGION_GOAL_REPORT, 0),
        (zones.as_slice(), FOUR_REGIONS, FOUR_REGIONS_REPORT, 0),
        (zones.as_slice(), FIVE_REGIONS, FIVE_REGIONS_REPORT, 0),
        (zones.as_slice(), SIX_REGIONS, SIX_REGIONS_REPORT, 0),
        (zones.as_slice(), REFUSED, REFUSED_REPORT, 0),
        (zones.as_slice(), UNPLACEABLE, UNPLACEABLE_REPORT, 0),
        (zones.as_slice(), RESTRICTED, RESTRICTED_REPORT, 0),
        (json.as_slice(), ZONE_GOAL, ZONE_GOAL_JSON, 0),
        (
            zones.as_slice(),
            FAULTY,
            b"sql refused D1\n! S6 line 4\n",
            1,
        ),
        (trace.as_slice(), ONE_TABLE, ONE_TABLE_TRACE, 0),
    ];
    for (words, scenario, report, status) in cases {
        let (written, answered) = answer(alloc, words, scenario)?;
        assert!(rt; written.as_slice() == report);
        assert!(rt; answered == status);
    }
    Ok(())
}

#[test]
fn other_words_are_no_command(rt: HostRuntime) -> Result<(), Fail> {
    let alloc = rt.alloc();
    let lists = [
        "run --json",
        "run --trace --trace",
        "run -- --trace",
        "gen 1",
        "gen 1 20001",
        "gen 18446744073709551616 0",
        "run --summary",
        "zones --trace",
        "zones --json --json",
        "run zones",
        "zones -- --json",
        "work 1 1",
        "-1",
        "",
    ];
    for list in lists {
        let mut words = Vec::new(alloc);
        for word in list.split(' ').filter(|w| !w.is_empty()) {
            words.push(word)?;
        }
        let (written, answered) = answer(alloc, words.as_slice(), FAULTY)?;
        assert!(rt; written.as_slice() == USAGE);
        assert!(rt; answered == 2);
    }
    Ok(())
}
