//! The replies to gateways.

use super::{Family, START, bytes, sent, shown, stopped};
use journal::{JournalEntry, Shown};
use journal_text::Mode;
use mr_base::{AttemptId, Fate, Memory, MsgId, NodeId, RangeId, Reply};
use std::alloc::Global;
use std::test::Fail;

const REPLIES: [&[u8]; 15] = [
    b"sent m7 n4 n1 clock 1010.2 rows 2\n",
    b"sent m7 n4 n1 clock 1010.2 uncertain 0a 1000.0.1\n",
    b"sent m7 n4 n1 clock 1010.2 unknown 0a a2 start 1000.0.1 anchor r3\n",
    b"sent m7 n4 n1 clock 1010.2 laid 1000.0.1\n",
    b"sent m7 n4 n1 clock 1010.2 intent 0a a2 start 1000.0.1 anchor r3\n",
    b"sent m7 n4 n1 clock 1010.2 refreshed\n",
    b"sent m7 n4 n1 clock 1010.2 newer 1000.0.1\n",
    b"sent m7 n4 n1 clock 1010.2 fate a2 committed 1000.0.1\n",
    b"sent m7 n4 n1 clock 1010.2 live a2\n",
    b"sent m7 n4 n1 clock 1010.2 ended\n",
    b"sent m7 n4 n1 clock 1010.2 aborted a2\n",
    b"sent m7 n4 n1 clock 1010.2 pushed 1000.0.1\n",
    b"sent m7 n4 n1 clock 1010.2 notholder 1 n1 7000\n",
    b"sent m7 n4 n1 clock 1010.2 noquorum n2,n64\n",
    b"sent m8 n1 n4 clock - down\n",
];

/// What a read, a refresh or a put may be answered.
fn reply_to_read(alloc: Global, place: usize) -> Result<Reply, Memory> {
    let attempt = AttemptId(2);
    let anchor = RangeId(3);
    match place {
        1 => Ok(Reply::Uncertain {
            key: bytes(alloc, b"\x0a")?,
            ts: START,
        }),
        2 => Ok(Reply::Unknown {
            key: bytes(alloc, b"\x0a")?,
            attempt,
            start: START,
            anchor,
        }),
        3 => Ok(Reply::Laid { ts: START }),
        4 => Ok(Reply::Intent {
            key: bytes(alloc, b"\x0a")?,
            attempt,
            start: START,
            anchor,
        }),
        5 => Ok(Reply::Refreshed),
        _ => Ok(Reply::Newer { ts: START }),
    }
}

/// The other replies.
fn reply_to_push(place: usize) -> Reply {
    let attempt = AttemptId(2);
    match place {
        7 => Reply::Fate {
            attempt,
            fate: Fate::Committed(START),
        },
        8 => Reply::Live { attempt },
        9 => Reply::Ended,
        10 => Reply::Aborted { by: attempt },
        11 => Reply::Pushed { ts: START },
        12 => Reply::NotHolder {
            seq: 1,
            holder: NodeId(1),
            expiration: 7000,
        },
        _ => Reply::NoQuorum { down: stopped() },
    }
}

pub(super) fn replied(alloc: Global, place: usize) -> Result<JournalEntry, Memory> {
    match place {
        0 => Ok(sent(Shown::Rows { count: 2 })),
        1..=6 => Ok(sent(Shown::Reply(reply_to_read(alloc, place)?))),
        14 => Ok(JournalEntry::Sent {
            id: MsgId(8),
            from: NodeId(1),
            to: NodeId(4),
            clock: None,
            body: Shown::Reply(Reply::Down),
        }),
        _ => Ok(sent(Shown::Reply(reply_to_push(place)))),
    }
}

#[test]
fn replies_are_written(rt: HostRuntime) -> Result<(), Fail> {
    assert_eq!(rt;
        shown(rt.alloc(), Mode::Trace, Family::Replies, &REPLIES)?,
        REPLIES.len()
    );
    Ok(())
}
