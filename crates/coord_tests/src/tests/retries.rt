//! Retries for each cause.

use super::replies::{Said, ts};
use super::steps::{Step, Stop, began, retry_often, run};
use mr_base::Kind;

#[test]
fn an_uncertain_read_is_retried_above_its_version(rt: HostRuntime) -> Result<(), Stop> {
    let alloc = rt.alloc();
    let txn = began(alloc, Kind::Now, 2, &[])?;
    let steps = [
        (
            Step::Next(1000, 2),
            "ask r1: read a1 r1 [a,b) at 1000.0.1 limit 1500 fates -",
        ),
        (Step::Take(Said::Rows), ""),
        (
            Step::Next(1000, 2),
            "ask r1: read a1 r1 [b,c) at 1000.0.1 limit 1500 fates -",
        ),
        (Step::Take(Said::Uncertain(ts(1200, 3, 9))), ""),
        (Step::Next(1000, 2), "retried a2 uncertain k 1200.3.9"),
        (
            Step::Next(1000, 3),
            "ask r1: read a2 r1 [a,b) at 1200.4.2 limit 1500 fates -",
        ),
        (Step::Take(Said::Rows), ""),
        (
            Step::Next(1000, 3),
            "ask r1: read a2 r1 [b,c) at 1200.4.2 limit 1500 fates -",
        ),
        (Step::Take(Said::Rows), ""),
        (Step::Next(1000, 3), "wait 1200"),
        (Step::Next(1200, 3), "ack 1200.4.2"),
    ];
    run(&rt, alloc, txn, &steps)
}

#[test]
fn a_newer_write_retries_above_the_greatest_put(rt: HostRuntime) -> Result<(), Stop> {
    let alloc = rt.alloc();
    let txn = began(alloc, Kind::Now, 1, &[(1, b'k')])?;
    let steps = [
        (
            Step::Next(1000, 2),
            "ask r1: read a1 r1 [a,b) at 1000.0.1 limit 1500 fates -",
        ),
        (Step::Take(Said::Rows), ""),
        (
            Step::Next(1000, 2),
            "ask r1: put a1 r1 start 1000.0.1 anchor r1 at 1000.0.1 key k value v fates -",
        ),
        (Step::Take(Said::Laid(ts(1200, 1, 1))), ""),
        (
            Step::Next(1000, 2),
            "ask r1: refresh a1 r1 [a,b) from 1000.0.1 at 1200.1.1 fates -",
        ),
        (Step::Take(Said::Newer(ts(1100, 0, 9))), ""),
        (Step::Next(1000, 2), "ask r1: end a1 r1 abort"),
        (Step::Take(Said::Ended), ""),
        (Step::Next(1000, 2), "send r1: resolve a1 r1 keys k aborted"),
        (Step::Next(1000, 2), "retried a2 newer 1100.0.9"),
        (
            Step::Next(1000, 3),
            "ask r1: read a2 r1 [a,b) at 1200.2.2 limit 1500 fates a1:aborted",
        ),
        (Step::Take(Said::Rows), ""),
        (
            Step::Next(1000, 3),
            "ask r1: put a2 r1 start 1000.0.1 anchor r1 at 1200.2.2 key k value v fates a1:aborted",
        ),
        (Step::Take(Said::Laid(ts(1200, 2, 2))), ""),
        (Step::Next(1000, 3), "ask r1: end a2 r1 commit 1200.2.2"),
    ];
    run(&rt, alloc, txn, &steps)
}

#[test]
fn a_pushed_commit_retries_above_the_push(rt: HostRuntime) -> Result<(), Stop> {
    let alloc = rt.alloc();
    let txn = began(alloc, Kind::Now, 1, &[(1, b'k')])?;
    let steps = [
        (
            Step::Next(1000, 2),
            "ask r1: read a1 r1 [a,b) at 1000.0.1 limit 1500 fates -",
        ),
        (Step::Take(Said::Rows), ""),
        (
            Step::Next(1000, 2),
            "ask r1: put a1 r1 start 1000.0.1 anchor r1 at 1000.0.1 key k value v fates -",
        ),
        (Step::Take(Said::Laid(ts(1000, 0, 1))), ""),
        (Step::Next(1000, 2), "ask r1: end a1 r1 commit 1000.0.1"),
        (Step::Take(Said::Pushed(ts(1100, 0, 9))), ""),
        (Step::Next(1000, 2), "ask r1: end a1 r1 abort"),
        (Step::Take(Said::Ended), ""),
        (Step::Next(1000, 2), "send r1: resolve a1 r1 keys k aborted"),
        (Step::Next(1000, 5), "retried a5 pushed 1100.0.9"),
        (
            Step::Next(1000, 6),
            "ask r1: read a5 r1 [a,b) at 1100.1.5 limit 1500 fates a1:aborted",
        ),
    ];
    run(&rt, alloc, txn, &steps)
}

#[test]
fn a_sixty_fifth_retry_is_refused(rt: HostRuntime) -> Result<(), Stop> {
    let alloc = rt.alloc();
    let txn = began(alloc, Kind::Now, 1, &[])?;
    let txn = retry_often(alloc, txn, 64)?;
    let steps = [
        (
            Step::Next(1000, 66),
            "ask r1: read a65 r1 [a,b) at 1200.64.65 limit 1500 fates -",
        ),
        (Step::Take(Said::Uncertain(ts(1300, 0, 9))), ""),
        (Step::Next(1000, 66), "refuse retries"),
    ];
    run(&rt, alloc, txn, &steps)
}
