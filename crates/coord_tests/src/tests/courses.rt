//! Reads, writes, refreshes and pushes.

use super::replies::{Said, ts};
use super::steps::{Step, Stop, began, run};
use mr_base::{Fate, Kind};

#[test]
fn a_list_without_writes_is_answered_at_its_read_timestamp(rt: HostRuntime) -> Result<(), Stop> {
    let alloc = rt.alloc();
    let txn = began(alloc, Kind::Now, 1, &[])?;
    let steps = [
        (
            Step::Next(1000, 2),
            "ask r1: read a1 r1 [a,b) at 1000.0.1 limit 1500 fates -",
        ),
        (Step::Take(Said::Rows), ""),
        (Step::Next(1000, 2), "ack 1000.0.1"),
    ];
    run(&rt, alloc, txn, &steps)
}

#[test]
fn a_read_of_the_past_has_no_limit(rt: HostRuntime) -> Result<(), Stop> {
    let alloc = rt.alloc();
    let txn = began(alloc, Kind::Ago(300), 1, &[])?;
    let steps = [
        (
            Step::Next(1000, 2),
            "ask r1: read a1 r1 [a,b) at 700.0.1 limit - fates -",
        ),
        (Step::Take(Said::Rows), ""),
        (Step::Next(1000, 2), "ack 700.0.1"),
    ];
    run(&rt, alloc, txn, &steps)?;
    let txn = began(alloc, Kind::Ago(5000), 1, &[])?;
    let steps = [(
        Step::Next(1000, 2),
        "ask r1: read a1 r1 [a,b) at 0.0.1 limit - fates -",
    )];
    run(&rt, alloc, txn, &steps)
}

#[test]
fn writes_that_are_laid_where_asked_commit_there(rt: HostRuntime) -> Result<(), Stop> {
    let alloc = rt.alloc();
    let txn = began(alloc, Kind::Now, 2, &[(1, b'k')])?;
    let steps = [
        (
            Step::Next(1000, 2),
            "ask r1: read a1 r1 [a,b) at 1000.0.1 limit 1500 fates -",
        ),
        (Step::Take(Said::Rows), ""),
        (
            Step::Next(1000, 2),
            "ask r1: read a1 r1 [b,c) at 1000.0.1 limit 1500 fates -",
        ),
        (Step::Take(Said::Rows), ""),
        (
            Step::Next(1000, 2),
            "ask r1: put a1 r1 start 1000.0.1 anchor r1 at 1000.0.1 key k value v fates -",
        ),
        (Step::Take(Said::Laid(ts(1000, 0, 1))), ""),
        (Step::Next(1000, 2), "ask r1: end a1 r1 commit 1000.0.1"),
        (Step::Take(Said::Ended), "due 1000"),
        (
            Step::Next(1000, 2),
            "send r1: resolve a1 r1 keys k committed:1000.0.1",
        ),
        (Step::Next(1000, 2), "ack 1000.0.1"),
    ];
    run(&rt, alloc, txn, &steps)
}

#[test]
fn a_put_above_the_read_timestamp_refreshes_each_span(rt: HostRuntime) -> Result<(), Stop> {
    let alloc = rt.alloc();
    let txn = began(alloc, Kind::Now, 2, &[(1, b'k'), (1, b'm'), (2, b'd')])?;
    let steps = [
        (
            Step::Next(1000, 2),
            "ask r1: read a1 r1 [a,b) at 1000.0.1 limit 1500 fates -",
        ),
        (Step::Take(Said::Rows), ""),
        (
            Step::Next(1000, 2),
            "ask r1: read a1 r1 [b,c) at 1000.0.1 limit 1500 fates -",
        ),
        (Step::Take(Said::Rows), ""),
        (
            Step::Next(1000, 2),
            "ask r1: put a1 r1 start 1000.0.1 anchor r1 at 1000.0.1 key k value v fates -",
        ),
        (Step::Take(Said::Laid(ts(1200, 1, 1))), ""),
        (
            Step::Next(1000, 2),
            "ask r1: put a1 r1 start 1000.0.1 anchor r1 at 1200.1.1 key m value v fates -",
        ),
        (Step::Take(Said::Laid(ts(1200, 1, 1))), ""),
        (
            Step::Next(1000, 2),
            "ask r2: put a1 r2 start 1000.0.1 anchor r1 at 1200.1.1 key d value - fates -",
        ),
        (Step::Take(Said::Laid(ts(1300, 0, 1))), ""),
        (
            Step::Next(1000, 2),
            "ask r1: refresh a1 r1 [a,b) from 1000.0.1 at 1300.0.1 fates -",
        ),
        (Step::Take(Said::Refreshed), ""),
        (
            Step::Next(1000, 2),
            "ask r1: refresh a1 r1 [b,c) from 1000.0.1 at 1300.0.1 fates -",
        ),
        (Step::Take(Said::Refreshed), ""),
        (Step::Next(1000, 2), "ask r1: end a1 r1 commit 1300.0.1"),
        (Step::Take(Said::Ended), "due 1300"),
        (
            Step::Next(1000, 2),
            "send r1: resolve a1 r1 keys k m committed:1300.0.1",
        ),
        (
            Step::Next(1000, 2),
            "send r2: resolve a1 r2 keys d committed:1300.0.1",
        ),
        (Step::Next(1299, 2), "wait 1300"),
        (Step::Next(1300, 2), "ack 1300.0.1"),
    ];
    run(&rt, alloc, txn, &steps)
}

#[test]
fn a_reader_pushes_and_reads_again_with_each_fate(rt: HostRuntime) -> Result<(), Stop> {
    let alloc = rt.alloc();
    let txn = began(alloc, Kind::Now, 1, &[])?;
    let steps = [
        (
            Step::Next(1000, 2),
            "ask r1: read a1 r1 [a,b) at 1000.0.1 limit 1500 fates -",
        ),
        (Step::Take(Said::Unknown(9)), ""),
        (
            Step::Next(1000, 2),
            "ask r7: push a1 r7 other a9 reader 1000.0.1",
        ),
        (Step::Take(Said::Fate(9, Fate::Pushed(ts(1000, 0, 1)))), ""),
        (
            Step::Next(1000, 2),
            "ask r1: read a1 r1 [a,b) at 1000.0.1 limit 1500 fates a9:pushed:1000.0.1",
        ),
        (Step::Take(Said::Unknown(5)), ""),
        (
            Step::Next(1000, 2),
            "ask r7: push a1 r7 other a5 reader 1000.0.1",
        ),
        (Step::Take(Said::Fate(5, Fate::Aborted)), ""),
        (
            Step::Next(1000, 2),
            "ask r1: read a1 r1 [a,b) at 1000.0.1 limit 1500 fates a5:aborted a9:pushed:1000.0.1",
        ),
        (Step::Take(Said::Unknown(9)), ""),
        (
            Step::Next(1000, 2),
            "ask r7: push a1 r7 other a9 reader 1000.0.1",
        ),
        (
            Step::Take(Said::Fate(9, Fate::Committed(ts(950, 0, 9)))),
            "",
        ),
        (
            Step::Next(1000, 2),
            "ask r1: read a1 r1 [a,b) at 1000.0.1 limit 1500 fates a5:aborted a9:committed:950.0.9",
        ),
        (Step::Take(Said::Rows), ""),
        (Step::Next(1000, 2), "ack 1000.0.1"),
    ];
    run(&rt, alloc, txn, &steps)
}

#[test]
fn a_writer_pushes_and_puts_again(rt: HostRuntime) -> Result<(), Stop> {
    let alloc = rt.alloc();
    let txn = began(alloc, Kind::Now, 0, &[(2, b'k'), (3, b'm')])?;
    let steps = [
        (
            Step::Next(1000, 2),
            "ask r2: put a1 r2 start 1000.0.1 anchor r2 at 1000.0.1 key k value v fates -",
        ),
        (Step::Take(Said::Laid(ts(1100, 0, 1))), ""),
        (
            Step::Next(1000, 2),
            "ask r3: put a1 r3 start 1000.0.1 anchor r2 at 1100.0.1 key m value v fates -",
        ),
        (Step::Take(Said::Intent(9)), ""),
        (
            Step::Next(1000, 2),
            "ask r7: push a1 r7 other a9 writer 1000.0.1 start 900.0.9",
        ),
        (Step::Take(Said::Fate(9, Fate::Aborted)), ""),
        (
            Step::Next(1000, 2),
            "ask r3: put a1 r3 start 1000.0.1 anchor r2 at 1100.0.1 key m value v fates a9:aborted",
        ),
        (Step::Take(Said::Laid(ts(1100, 0, 1))), ""),
        (Step::Next(1000, 2), "ask r2: end a1 r2 commit 1100.0.1"),
    ];
    run(&rt, alloc, txn, &steps)
}

#[test]
fn a_refresh_pushes_at_the_write_timestamp(rt: HostRuntime) -> Result<(), Stop> {
    let alloc = rt.alloc();
    let txn = began(alloc, Kind::Now, 1, &[(1, b'k')])?;
    let steps = [
        (
            Step::Next(1000, 2),
            "ask r1: read a1 r1 [a,b) at 1000.0.1 limit 1500 fates -",
        ),
        (Step::Take(Said::Rows), ""),
        (
            Step::Next(1000, 2),
            "ask r1: put a1 r1 start 1000.0.1 anchor r1 at 1000.0.1 key k value v fates -",
        ),
        (Step::Take(Said::Laid(ts(1200, 1, 1))), ""),
        (
            Step::Next(1000, 2),
            "ask r1: refresh a1 r1 [a,b) from 1000.0.1 at 1200.1.1 fates -",
        ),
        (Step::Take(Said::Unknown(9)), ""),
        (
            Step::Next(1000, 2),
            "ask r7: push a1 r7 other a9 reader 1200.1.1",
        ),
        (Step::Take(Said::Fate(9, Fate::Pushed(ts(1200, 1, 1)))), ""),
        (
            Step::Next(1000, 2),
            "ask r1: refresh a1 r1 [a,b) from 1000.0.1 at 1200.1.1 fates a9:pushed:1200.1.1",
        ),
        (Step::Take(Said::Refreshed), ""),
        (Step::Next(1000, 2), "ask r1: end a1 r1 commit 1200.1.1"),
    ];
    run(&rt, alloc, txn, &steps)
}
