//! Each kind of event is copied with ample memory. That a copy is the same event, its contract says.

use journal::{Event, copy_of_event};
use mr_base::{Bytes, Kind, MsgId, NodeId, RangeId, TxnId};
use std::test::Fail;

#[test]
fn an_event_with_a_text_is_copied(rt: HostRuntime) -> Result<(), Fail> {
    let alloc = rt.alloc();
    let events = [
        Event::Sql(Bytes::from_slice(alloc, b"ALTER DATABASE d DROP REGION a")?),
        Event::Txn {
            txn: TxnId(1),
            gateway: NodeId(1),
            kind: Kind::Now,
            list: Bytes::from_slice(alloc, b"SELECT * FROM t")?,
        },
    ];
    for event in &events {
        assert!(rt; copy_of_event(alloc, event).is_ok());
    }
    Ok(())
}

#[test]
fn an_event_of_nodes_and_messages_is_copied(rt: HostRuntime) {
    let node = NodeId(1);
    let range = RangeId(2);
    let id = MsgId(3);
    let events = [
        Event::Begin,
        Event::Tick {
            node: Some(node),
            ms: 1,
        },
        Event::Deliver { id },
        Event::Apply {
            node,
            range,
            count: 4,
        },
        Event::Drain,
        Event::Settle { ms: 5 },
        Event::Stop { node },
        Event::Start { node },
        Event::Drop { id },
        Event::Timeout { txn: TxnId(6) },
    ];
    for event in &events {
        assert!(rt; copy_of_event(rt.alloc(), event).is_ok());
    }
}

#[test]
fn an_event_of_a_range_or_to_be_shown_is_copied(rt: HostRuntime) {
    let node = NodeId(1);
    let range = RangeId(2);
    let events = [
        Event::LeaseAcquire { range, node },
        Event::LeaseTransfer { range, node },
        Event::LeaseExtend { range },
        Event::Close { range: Some(range) },
        Event::ShowRange { range },
        Event::ShowNode { node },
        Event::ShowFlight,
        Event::ShowFresh { node },
    ];
    for event in &events {
        assert!(rt; copy_of_event(rt.alloc(), event).is_ok());
    }
}
