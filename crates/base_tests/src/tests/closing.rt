//! A range of five replicas through the calls, with walls in milliseconds.

use closed_ts::{by_closure, by_lease, next_target, target};
use mr_base::{NodeId, NodeSet, Reading, Settings, Ts};
use range_log::Lease;

fn at(wall: u64) -> Ts {
    Ts { wall, ..Ts::ZERO }
}

#[test]
fn a_replica_serves_by_its_lease_or_by_closure(rt: HostRuntime) {
    let lease = Lease {
        seq: 1,
        holder: NodeId(1),
        boot: 1,
        expiration: 9000,
        low: Ts::ZERO,
    };
    // The node, its boot, the wall read at, its limit, and whether lease and closure (at 9000) serve it.
    let cases = [
        (1, 1, 8999, None, true, true),
        (1, 1, 8000, Some(8500), true, true),
        (1, 1, 8600, Some(9100), false, false),
        (1, 2, 8000, Some(8500), false, true),
        (2, 1, 8000, None, false, true),
        (1, 1, 9000, None, false, false),
    ];
    for (node, boot, wall, limit, leased, closed) in cases {
        assert_eq!(rt;
            by_lease(&lease, NodeId(node), boot, at(wall), limit),
            leased
        );
        assert_eq!(rt; by_closure(at(9000), at(wall), limit), closed);
    }
}

#[test]
fn ranges_close_behind_or_ahead(rt: HostRuntime) {
    let settings = Settings {
        max_offset: 500,
        lease: 9000,
        lag: 3000,
        lead: 800,
        expire: 5000,
    };
    let cases = [(false, 5000, 2000), (false, 1000, 0), (true, 1000, 1800)];
    for (global, wall, closed) in cases {
        let clock = Reading { wall, logical: 7 };
        assert!(rt; target(global, clock, &settings) == at(closed));
    }
}

#[test]
fn replicas_are_asked_in_turn(rt: HostRuntime) {
    let replicas = [2, 5, 9, 1, 64].map(NodeId);
    let near = NodeSet::EMPTY.with(NodeId(9)).with(NodeId(1));
    let mut asked = NodeSet::EMPTY;
    for node in [9, 1, 5, 2, 64] {
        let next = next_target(&replicas, near, asked, NodeId(5));
        assert!(rt; next == Some(NodeId(node)));
        asked = asked.with(NodeId(node));
    }
    assert!(rt; next_target(&replicas, near, asked, NodeId(5)).is_none());
    assert!(rt;
        next_target(&replicas, NodeSet::EMPTY, NodeSet::EMPTY, NodeId(3)) == Some(NodeId(2))
    );
}
