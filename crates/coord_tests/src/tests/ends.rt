//! Refusals, timeouts and faults.

use super::replies::{Said, ts};
use super::scripts::FaultyScript;
use super::steps::{Step, Stop, began, run, start_with};
use mr_base::{Kind, ListOf, SqlState};

#[test]
fn an_aborted_commit_resolves_and_sends_no_abort(rt: HostRuntime) -> Result<(), Stop> {
    let alloc = rt.alloc();
    let txn = began(alloc, Kind::Now, 0, &[(1, b'k'), (2, b'm')])?;
    let steps = [
        (
            Step::Next(1000, 2),
            "ask r1: put a1 r1 start 1000.0.1 anchor r1 at 1000.0.1 key k value v fates -",
        ),
        (Step::Take(Said::Laid(ts(1000, 0, 1))), ""),
        (
            Step::Next(1000, 2),
            "ask r2: put a1 r2 start 1000.0.1 anchor r1 at 1000.0.1 key m value v fates -",
        ),
        (Step::Take(Said::Laid(ts(1000, 0, 1))), ""),
        (Step::Next(1000, 2), "ask r1: end a1 r1 commit 1000.0.1"),
        (Step::Take(Said::Aborted(9)), ""),
        (Step::Next(1000, 2), "send r1: resolve a1 r1 keys k aborted"),
        (Step::Next(1000, 2), "send r2: resolve a1 r2 keys m aborted"),
        (Step::Next(1000, 2), "refuse aborted a9"),
    ];
    run(&rt, alloc, txn, &steps)
}

/// What ends a transaction while its first request is outstanding, a read or a put.
#[test]
fn a_first_request_ends_in_each_way(rt: HostRuntime) -> Result<(), Stop> {
    let alloc = rt.alloc();
    let read = "ask r1: read a1 r1 [a,b) at 1000.0.1 limit 1500 fates -";
    let put = "ask r2: put a1 r2 start 1000.0.1 anchor r2 at 1000.0.1 key k value v fates -";
    let abort = "send r2: end a1 r2 abort";
    let reads = [
        (Step::Exhausted, "refuse nolease r1"),
        (Step::TimedOut(3), "refuse timeout m3"),
    ];
    for (ends, refused) in reads {
        let txn = began(alloc, Kind::Now, 1, &[(2, b'k')])?;
        let steps = [
            (Step::Next(1000, 2), read),
            (Step::WentOut, ""),
            (ends, ""),
            (Step::Next(1000, 2), refused),
        ];
        run(&rt, alloc, txn, &steps)?;
    }
    let puts = [
        (Step::Take(Said::NoQuorum), "refuse noquorum r2 6"),
        (Step::Exhausted, "refuse nolease r2"),
    ];
    for (ends, refused) in puts {
        let txn = began(alloc, Kind::Now, 0, &[(2, b'k')])?;
        let steps = [
            (Step::Next(1000, 2), put),
            (ends, ""),
            (Step::Next(1000, 2), refused),
        ];
        run(&rt, alloc, txn, &steps)?;
        let txn = began(alloc, Kind::Now, 0, &[(2, b'k')])?;
        let steps = [
            (Step::Next(1000, 2), put),
            (Step::WentOut, ""),
            (ends, ""),
            (Step::Next(1000, 2), abort),
            (Step::Next(1000, 2), refused),
        ];
        run(&rt, alloc, txn, &steps)?;
    }
    let txn = began(alloc, Kind::Now, 0, &[(2, b'k')])?;
    let steps = [
        (Step::Next(1000, 2), put),
        (Step::TimedOut(4), ""),
        (Step::Next(1000, 2), abort),
        (Step::Next(1000, 2), "refuse timeout m4"),
    ];
    run(&rt, alloc, txn, &steps)
}

/// What ends a transaction that pushes for a put, whether or not the put went out as a message.
#[test]
fn a_push_for_a_put_ends_in_each_way(rt: HostRuntime) -> Result<(), Stop> {
    let alloc = rt.alloc();
    let put = "ask r2: put a1 r2 start 1000.0.1 anchor r2 at 1000.0.1 key k value v fates -";
    let push = "ask r7: push a1 r7 other a9 writer 1000.0.1 start 900.0.9";
    let abort = "send r2: end a1 r2 abort";
    let cases = [
        (Step::Take(Said::Live(9)), "refuse conflict k a9"),
        (Step::Take(Said::NoQuorum), "refuse noquorum r7 6"),
        (Step::Exhausted, "refuse nolease r7"),
        (Step::TimedOut(8), "refuse timeout m8"),
    ];
    for (ends, refused) in cases {
        let txn = began(alloc, Kind::Now, 0, &[(2, b'k')])?;
        let steps = [
            (Step::Next(1000, 2), put),
            (Step::Take(Said::Intent(9)), ""),
            (Step::Next(1000, 2), push),
            (ends, ""),
            (Step::Next(1000, 2), refused),
        ];
        run(&rt, alloc, txn, &steps)?;
        let txn = began(alloc, Kind::Now, 0, &[(2, b'k')])?;
        let steps = [
            (Step::Next(1000, 2), put),
            (Step::WentOut, ""),
            (Step::Take(Said::Intent(9)), ""),
            (Step::Next(1000, 2), push),
            (Step::WentOut, ""),
            (ends, ""),
            (Step::Next(1000, 2), abort),
            (Step::Next(1000, 2), refused),
        ];
        run(&rt, alloc, txn, &steps)?;
    }
    Ok(())
}

/// What ends a transaction whose commit is outstanding, or the abort before a retry.
#[test]
fn an_end_ends_in_each_way(rt: HostRuntime) -> Result<(), Stop> {
    let alloc = rt.alloc();
    let put = "ask r2: put a1 r2 start 1000.0.1 anchor r2 at 1000.0.1 key k value v fates -";
    let commit = "ask r2: end a1 r2 commit 1000.0.1";
    let abort = "send r2: end a1 r2 abort";
    let cases = [
        (Step::Take(Said::NoQuorum), "refuse noquorum r2 6"),
        (Step::Exhausted, "refuse nolease r2"),
    ];
    for (ends, refused) in cases {
        let txn = began(alloc, Kind::Now, 0, &[(2, b'k')])?;
        let steps = [
            (Step::Next(1000, 2), put),
            (Step::Take(Said::Laid(ts(1000, 0, 1))), ""),
            (Step::Next(1000, 2), commit),
            (ends, ""),
            (Step::Next(1000, 2), abort),
            (Step::Next(1000, 2), refused),
        ];
        run(&rt, alloc, txn, &steps)?;
        let txn = began(alloc, Kind::Now, 0, &[(2, b'k')])?;
        let steps = [
            (Step::Next(1000, 2), put),
            (Step::Take(Said::Laid(ts(1000, 0, 1))), ""),
            (Step::Next(1000, 2), commit),
            (Step::Take(Said::Pushed(ts(1100, 0, 9))), ""),
            (Step::Next(1000, 2), "ask r2: end a1 r2 abort"),
            (ends, ""),
            (Step::Next(1000, 2), abort),
            (Step::Next(1000, 2), refused),
        ];
        run(&rt, alloc, txn, &steps)?;
    }
    let txn = began(alloc, Kind::Now, 0, &[(2, b'k')])?;
    let steps = [
        (Step::Next(1000, 2), put),
        (Step::Take(Said::Laid(ts(1000, 0, 1))), ""),
        (Step::Next(1000, 2), commit),
        (Step::TimedOut(5), ""),
        (Step::Next(1000, 2), "refuse 40003 m5"),
    ];
    run(&rt, alloc, txn, &steps)
}

#[test]
fn a_fault_waits_for_its_read_timestamp(rt: HostRuntime) -> Result<(), Stop> {
    let alloc = rt.alloc();
    let script = FaultyScript::new(alloc, ListOf::new(alloc), SqlState::S42601);
    let txn = start_with(alloc, Kind::Now, script)?;
    let steps = [
        (Step::Next(999, 2), "wait 1000"),
        (Step::Next(1000, 2), "fault 1000.0.1 42601"),
    ];
    run(&rt, alloc, txn, &steps)
}
