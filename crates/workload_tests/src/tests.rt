//! The text of a few seeds and sizes, and what is written where a write fails.

use mr_io::MemSink;
use std::alloc::Global;
use std::test::Fail;
use workload::{GenFault, gen_text, generate};

/// The lines before the transactions.
const HEADER: &[u8] = b"cluster
node n1 us-east a 1000
node n2 us-east b 1000
node n3 us-east c 1000
node n4 us-west a 1000
node n5 us-west b 1000
node n6 us-west c 1000
node n7 eu-west a 1000
node n8 eu-west b 1000
node n9 eu-west c 1000
sql CREATE DATABASE d PRIMARY REGION \"us-east\" REGIONS \"us-west\", \"eu-west\"
sql CREATE TABLE users (id INT PRIMARY KEY, email STRING UNIQUE, v INT) LOCALITY REGIONAL BY ROW
sql CREATE TABLE promo (code STRING PRIMARY KEY, pct INT) LOCALITY GLOBAL
begin
";

/// The lines behind the transactions.
const FOOTER: &[u8] = b"drain
settle 1000
";

/// Seeds and sizes, with the lines of the transactions.
static TABLE: [(u64, u32, &[u8]); 5] = [
    (5, 0, b""),
    (
        u64::MAX,
        1,
        b"tick all 1
txn x1 n5 now DELETE FROM users WHERE id = 484
",
    ),
    (
        0,
        3,
        b"tick all 1
txn x1 n2 now SELECT count(*) FROM promo
drain
tick all 1
txn x2 n7 now SELECT * FROM users WHERE id = 310
drain
tick all 1
txn x3 n9 now DELETE FROM users WHERE id = 217
drain
",
    ),
    (
        3,
        3,
        b"tick all 1
txn x1 n3 now INSERT INTO promo (code, pct) VALUES ('c81', 1)
drain
tick all 1
txn x2 n6 now SELECT * FROM users WHERE id = 478
tick all 1
txn x3 n3 now INSERT INTO users (id, email, v) VALUES (198, 'e198', 3)
",
    ),
    (
        8,
        3,
        b"tick all 1
txn x1 n2 now INSERT INTO promo (code, pct) VALUES ('c21', 1)
tick all 1
txn x2 n7 now UPDATE users SET v = v + 1 WHERE id = 93
tick all 1
txn x3 n6 now INSERT INTO users (id, email, v) VALUES (43, 'e43', 3)
drain
",
    ),
];

/// The lines of the last of 500 transactions of the seed 1: the leases are extended behind it.
const FIVE_HUNDREDTH: &[u8] = b"tick all 1
txn x500 n2 now INSERT INTO users (id, email, v) VALUES (352, 'e352', 500)
drain
lease extend r1
lease extend r2
lease extend r3
lease extend r4
close all
";

/// The scenario with these lines of transactions.
fn scenario(alloc: Global, lines: &[u8]) -> Result<Vec<u8>, Fail> {
    let mut text = HEADER.to_vec(alloc)?;
    text.extend_from_slice(lines)?;
    text.extend_from_slice(FOOTER)?;
    Ok(text)
}

#[test]
fn scenarios_are_as_drawn(rt: HostRuntime) -> Result<(), Fail> {
    let alloc = rt.alloc();
    for (seed, size, lines) in TABLE.as_slice() {
        let whole = scenario(alloc, lines)?;
        let text = gen_text(alloc, *seed, *size)?;
        assert!(rt; text.as_slice() == whole.as_slice(), "{seed} {size}");
    }
    Ok(())
}

#[test]
fn scenarios_are_written(rt: HostRuntime) -> Result<(), Fail> {
    let alloc = rt.alloc();
    let none: [u32; 0] = [];
    for (seed, size, lines) in TABLE.as_slice() {
        let whole = scenario(alloc, lines)?;
        let mut sink = MemSink::new(alloc, 4096, none.as_slice())?;
        generate(alloc, *seed, *size, &mut sink)?;
        assert!(rt; sink.written() == whole.as_slice(), "{seed} {size}");
    }
    Ok(())
}

#[test]
fn leases_are_extended_behind_each_500th(rt: HostRuntime) -> Result<(), Fail> {
    let alloc = rt.alloc();
    let mut end = FIVE_HUNDREDTH.to_vec(alloc)?;
    end.extend_from_slice(FOOTER)?;
    let text = gen_text(alloc, 1, 500)?;
    assert!(rt; text.as_slice().ends_with(end.as_slice()));
    Ok(())
}

#[test]
fn a_write_that_fails_ends_the_text(rt: HostRuntime) -> Result<(), Fail> {
    let alloc = rt.alloc();
    let mut sink = MemSink::new(alloc, 4096, [2].as_slice())?;
    let ended = generate(alloc, 8, 3, &mut sink);
    assert!(rt; ended == Err(GenFault::Write));
    assert!(rt; sink.written() == HEADER);
    Ok(())
}
