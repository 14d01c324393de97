//! Generated scenarios, over sinks in memory; nothing is read for them.

use crate::top::top;
use mr_io::{MemSink, MemSource};
use std::alloc::Global;
use std::test::Fail;

const EMPTY: &[u8] = b"cluster
node n1 us-east a 1000
node n2 us-east b 1000
node n3 us-east c 1000
node n4 us-west a 1000
node n5 us-west b 1000
node n6 us-west c 1000
node n7 eu-west a 1000
node n8 eu-west b 1000
node n9 eu-west c 1000
sql CREATE DATABASE d PRIMARY REGION \"us-east\" REGIONS \"us-west\", \"eu-west\"
sql CREATE TABLE users (id INT PRIMARY KEY, email STRING UNIQUE, v INT) LOCALITY REGIONAL BY ROW
sql CREATE TABLE promo (code STRING PRIMARY KEY, pct INT) LOCALITY GLOBAL
begin
drain
settle 1000
";

/// What these words write where these writes fail, and the status. Each read would fail.
fn written(alloc: Global, words: &str, writes: &[u32]) -> Result<(Vec<u8>, u8), Fail> {
    let mut list = Vec::new(alloc);
    for word in words.split(' ') {
        list.push(String::from_str(alloc, word)?)?;
    }
    let mut source = MemSource::new(alloc, b"cluster\n", [1].as_slice())?;
    let mut sink = MemSink::new(alloc, 4096, writes)?;
    let outcome = top(alloc, list.as_slice(), &mut source, &mut sink);
    Ok((sink.written().to_vec(alloc)?, outcome.status))
}

#[test]
fn empty_scenarios_are_written(rt: HostRuntime) -> Result<(), Fail> {
    let none: [u32; 0] = [];
    for words in ["gen 5 0", "gen -- 18446744073709551615 0", "gen 005 00"] {
        let (text, status) = written(rt.alloc(), words, none.as_slice())?;
        assert!(rt; text.as_slice() == EMPTY);
        assert!(rt; status == 0);
    }
    Ok(())
}

#[test]
fn a_scenario_ends_where_a_write_fails(rt: HostRuntime) -> Result<(), Fail> {
    let (text, status) = written(rt.alloc(), "gen 5 100", [3].as_slice())?;
    assert!(rt; status == 4);
    assert!(rt;
        text.starts_with(
            EMPTY
                .strip_suffix(b"drain\nsettle 1000\n".as_slice())
                .unwrap_or(EMPTY)
        )
    );
    Ok(())
}
