//! Messages that are sent and taken.

ghost use Rattle.std.specs.Prelude.{◌≡◌};

use mr_base::{Body, Message, MsgId, NodeId, Reply, TxnId};
use msg_flight::Flight;
use std::test::Fail;

fn message(number: u64) -> Message
    ensures { result.id.0 ≡ number }
{
    Message {
        id: MsgId(number),
        from: NodeId(1),
        to: NodeId(2),
        clock: None,
        txn: TxnId(1),
        boot: 1,
        body: Body::Reply(Reply::Ended),
    }
}

#[test]
fn a_place_is_used_again(rt: HostRuntime) -> Result<(), Fail> {
    let mut flight = Flight::new(rt.alloc());
    assert_eq!(rt; flight.places(), 0);
    for number in 1..101 {
        assert_eq!(rt; flight.len(), 0);
        flight.send(message(number))?;
        assert!(rt;
            flight
                .take(MsgId(number))
                .is_some_and(|m| m.id == MsgId(number))
        );
    }
    assert_eq!(rt; flight.places(), 1);
    Ok(())
}

#[test]
fn messages_stand_by_their_numbers(rt: HostRuntime) -> Result<(), Fail> {
    let mut flight = Flight::new(rt.alloc());
    flight.send(message(3))?;
    flight.send(message(5))?;
    assert!(rt; flight.has(MsgId(5)));
    assert!(rt; flight.has(MsgId(3)));
    assert!(rt; flight.head() == Some(MsgId(3)));
    assert!(rt; flight.after(MsgId(3)) == Some(MsgId(5)));
    assert!(rt; flight.take(MsgId(4)).is_none());
    assert!(rt; flight.take(MsgId(3)).is_some());
    assert!(rt; flight.head() == Some(MsgId(5)));
    Ok(())
}
