//! A log of three voters.

use mr_base::{Memory, NodeId, NodeSet, Ts};
use range_log::{AppendRefusal, Entry, Lease, RangeLog};
use std::alloc::Global;
use std::test::Fail;

const VOTERS: NodeSet = NodeSet(0b111);

fn first_lease() -> Lease {
    Lease {
        seq: 1,
        holder: NodeId(1),
        boot: 1,
        expiration: 9000,
        low: Ts::ZERO,
    }
}

fn close(wall: u64) -> Entry {
    Entry::Close(Ts {
        wall,
        logical: 0,
        owner: 0,
    })
}

/// Appends the closing of a wall to a log, for an appender that believes in a lease, while some nodes run.
fn append(
    log: &mut RangeLog,
    wall: u64,
    seq: u32,
    running: u64,
) -> Result<Result<u64, AppendRefusal>, Memory> {
    log.reserve(1)?;
    Ok(log.append(close(wall), seq, NodeSet(running)))
}

#[test]
fn a_majority_appends_under_the_last_lease(rt: HostRuntime) -> Result<(), Fail> {
    let alloc: Global = rt.alloc();
    let mut log = RangeLog::new(alloc, VOTERS, first_lease())?;
    // The wall that is closed, the lease that is believed in, the nodes that run, and the answer.
    let cases = [
        (7, 1, 0b011, Ok(2)),
        (8, 2, 0b000, Err(AppendRefusal::Stale { seq: 1 })),
        (
            8,
            1,
            0b001,
            Err(AppendRefusal::NoQuorum {
                down: NodeSet(0b110),
            }),
        ),
        (6, 1, 0b110, Ok(3)),
    ];
    for (wall, seq, running, answer) in cases {
        assert!(rt; append(&mut log, wall, seq, running)? == answer);
    }
    assert!(rt; log.voters() == VOTERS);
    let lease = log.lease();
    assert!(rt; lease.seq == 1 && lease.holder == NodeId(1) && lease.expiration == 9000);
    assert_eq!(rt; log.closed().wall, 7);
    assert_eq!(rt; log.len(), 3);
    assert!(rt; matches!(log.entry(3), Entry::Close(ts) if ts.wall == 6));
    Ok(())
}
