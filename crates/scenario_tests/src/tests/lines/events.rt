//! What each line of an event says. An event stands in a function by the place of its line.

use super::{RUNNING, SETUP, STOPPED, read_behind};
use mr_base::{Kind, MsgId, NodeId, RangeId, TxnId};
use scenario::{Event, Line};
use std::alloc::Global;

/// The event of a line behind those of `head`.
fn event_behind(alloc: Global, head: &[u8], line: &[u8]) -> Option<Event> {
    match read_behind(alloc, false, head, line) {
        Ok(Line::Event(e)) => Some(e),
        _ => None,
    }
}

const EVENTS: [(&[u8], &[u8]); 27] = [
    (RUNNING, b"tick n2 3"),
    (RUNNING, b"tick all 3"),
    (RUNNING, b"settle 3"),
    (RUNNING, b"drain"),
    (RUNNING, b"deliver m5"),
    (RUNNING, b"drop m5"),
    (RUNNING, b"show flight"),
    (SETUP, b"begin"),
    (RUNNING, b"stop n2"),
    (RUNNING, b"show node n2"),
    (RUNNING, b"show fresh n2"),
    (STOPPED, b"start n1"),
    (RUNNING, b"apply n1 r1 9"),
    (RUNNING, b"lease acquire r1 n2"),
    (RUNNING, b"lease transfer r1 n2"),
    (RUNNING, b"lease extend r1"),
    (RUNNING, b"close r1"),
    (RUNNING, b"close all"),
    (RUNNING, b"show range r1"),
    (RUNNING, b"timeout t1"),
    (RUNNING, b"sql  USE d "),
    (RUNNING, b"txn t2 n2 now  x "),
    (RUNNING, b"txn t2 n2 ago 7 x"),
    (RUNNING, b"txn t2 n2 within 5 x"),
    (RUNNING, b"txn t2 n2 within 5 anyx"),
    (RUNNING, b"txn t2 n2 within 5 any"),
    (RUNNING, b"txn t2 n2 within 5 any any x"),
];

fn is_of_the_run(place: usize, e: &Event) -> bool {
    match place {
        0 => matches!(
            e,
            Event::Tick {
                node: Some(NodeId(2)),
                ms: 3
            }
        ),
        1 => matches!(e, Event::Tick { node: None, ms: 3 }),
        2 => matches!(e, Event::Settle { ms: 3 }),
        3 => matches!(e, Event::Drain),
        4 => matches!(e, Event::Deliver { id: MsgId(5) }),
        5 => matches!(e, Event::Drop { id: MsgId(5) }),
        6 => matches!(e, Event::ShowFlight),
        _ => matches!(e, Event::Begin),
    }
}

fn is_of_a_node(place: usize, e: &Event) -> bool {
    match place {
        8 => matches!(e, Event::Stop { node: NodeId(2) }),
        9 => matches!(e, Event::ShowNode { node: NodeId(2) }),
        10 => matches!(e, Event::ShowFresh { node: NodeId(2) }),
        _ => matches!(e, Event::Start { node: NodeId(1) }),
    }
}

fn is_of_a_range(place: usize, e: &Event) -> bool {
    match place {
        12 => matches!(
            e,
            Event::Apply {
                node: NodeId(1),
                range: RangeId(1),
                count: 9
            }
        ),
        13 => matches!(
            e,
            Event::LeaseAcquire {
                range: RangeId(1),
                node: NodeId(2)
            }
        ),
        14 => matches!(
            e,
            Event::LeaseTransfer {
                range: RangeId(1),
                node: NodeId(2)
            }
        ),
        15 => matches!(e, Event::LeaseExtend { range: RangeId(1) }),
        16 => matches!(
            e,
            Event::Close {
                range: Some(RangeId(1))
            }
        ),
        17 => matches!(e, Event::Close { range: None }),
        18 => matches!(e, Event::ShowRange { range: RangeId(1) }),
        _ => matches!(e, Event::Timeout { txn: TxnId(0) }),
    }
}

/// The list of a transaction's line, by its place.
fn list_of(place: usize) -> &'static [u8] {
    match place {
        21 => b" x ",
        22 | 23 => b"x",
        24 => b"anyx",
        25 => b"any",
        _ => b"any x",
    }
}

/// Whether a time is that of a transaction's line, by its place.
fn is_time(place: usize, kind: Kind) -> bool {
    match place {
        21 => matches!(kind, Kind::Now),
        22 => matches!(kind, Kind::Ago(7)),
        26 => matches!(kind, Kind::Within { ms: 5, any: true }),
        _ => matches!(kind, Kind::Within { ms: 5, any: false }),
    }
}

fn is_of_a_text(place: usize, e: &Event) -> bool {
    match e {
        Event::Sql(text) => place == 20 && text.as_slice() == b" USE d ".as_slice(),
        Event::Txn {
            txn: TxnId(1),
            gateway: NodeId(2),
            kind,
            list,
        } => is_time(place, *kind) && list.as_slice() == list_of(place),
        _ => false,
    }
}

/// Whether an event is what the line at this place says.
fn is_said(place: usize, e: &Event) -> bool {
    match place {
        0..=7 => is_of_the_run(place, e),
        8..=11 => is_of_a_node(place, e),
        12..=19 => is_of_a_range(place, e),
        _ => is_of_a_text(place, e),
    }
}

/// How many of the lines say their event, up to the first that doesn't.
fn said(alloc: Global) -> usize {
    for (place, (head, line)) in EVENTS.iter().enumerate() {
        let Some(e) = event_behind(alloc, head, line) else {
            return place;
        };
        if !is_said(place, &e) {
            return place;
        }
    }
    EVENTS.len()
}

#[test]
fn events_say(rt: HostRuntime) {
    assert_eq!(rt; said(rt.alloc()), EVENTS.len());
}
