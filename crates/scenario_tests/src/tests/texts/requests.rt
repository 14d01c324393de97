//! The requests of gateways.

use super::{Family, START, bytes, sent, shown, span};
use journal::{JournalEntry, Shown};
use journal_text::Mode;
use mr_base::{AttemptId, Bytes, Fate, Known, ListOf, Memory, RangeId, Request};
use std::alloc::Global;
use std::test::Fail;

/// The fates of two attempts.
fn fates(alloc: Global) -> Result<ListOf<Known>, Memory> {
    let mut fates = ListOf::new(alloc);
    fates.push(Known {
        attempt: AttemptId(2),
        fate: Fate::Aborted,
    })?;
    fates.push(Known {
        attempt: AttemptId(3),
        fate: Fate::Pushed(START),
    })?;
    Ok(fates)
}

fn keys(alloc: Global) -> Result<ListOf<Bytes>, Memory> {
    let mut keys = ListOf::new(alloc);
    keys.push(bytes(alloc, b"\x0a")?)?;
    keys.push(bytes(alloc, b"\xff")?)?;
    Ok(keys)
}

const REQUESTS: [&[u8]; 8] = [
    b"sent m7 n4 n1 clock 1010.2 read a1 r1 [008000000000000001,00800000000000000100) at 1000.0.1 limit - fates -\n",
    b"sent m7 n4 n1 clock 1010.2 refresh a1 r1 [008000000000000001,00800000000000000100) from 1000.0.1 at 1000.1.1 fates a2:aborted,a3:pushed:1000.0.1\n",
    b"sent m7 n4 n1 clock 1010.2 put a1 r1 start 1000.0.1 anchor r2 at 1000.0.1 key ab value - fates a2:aborted,a3:pushed:1000.0.1\n",
    b"sent m7 n4 n1 clock 1010.2 push a1 r1 other a2 reader 1000.0.1\n",
    b"sent m7 n4 n1 clock 1010.2 push a1 r1 other a2 writer 1000.0.1 start 1000.1.2\n",
    b"sent m7 n4 n1 clock 1010.2 end a1 r1 commit 1000.0.1\n",
    b"sent m7 n4 n1 clock 1010.2 end a1 r1 abort\n",
    b"sent m7 n4 n1 clock 1010.2 resolve a1 r1 keys 0a,ff committed 1000.0.1\n",
];

/// The requests that carry fates.
fn read_or_put(alloc: Global, place: usize) -> Result<Request, Memory> {
    let attempt = AttemptId(1);
    let range = RangeId(1);
    match place {
        0 => Ok(Request::Read {
            attempt,
            range,
            span: span(alloc)?,
            at: START,
            limit: None,
            fates: ListOf::new(alloc),
        }),
        1 => Ok(Request::Refresh {
            attempt,
            range,
            span: span(alloc)?,
            from: START,
            at: START.above(1),
            fates: fates(alloc)?,
        }),
        _ => Ok(Request::Put {
            attempt,
            range,
            start: START,
            anchor: RangeId(2),
            at: START,
            key: bytes(alloc, b"\xab")?,
            value: None,
            fates: fates(alloc)?,
        }),
    }
}

fn request(alloc: Global, place: usize) -> Result<Request, Memory> {
    let attempt = AttemptId(1);
    let range = RangeId(1);
    let other = AttemptId(2);
    match place {
        0..=2 => read_or_put(alloc, place),
        3 => Ok(Request::PushReader {
            attempt,
            range,
            other,
            at: START,
        }),
        4 => Ok(Request::PushWriter {
            attempt,
            range,
            other,
            start: START,
            other_start: START.above(2),
        }),
        5 => Ok(Request::Commit {
            attempt,
            range,
            at: START,
        }),
        6 => Ok(Request::Abort { attempt, range }),
        _ => Ok(Request::Resolve {
            attempt,
            range,
            keys: keys(alloc)?,
            fate: Fate::Committed(START),
        }),
    }
}

pub(super) fn asked(alloc: Global, place: usize) -> Result<JournalEntry, Memory> {
    Ok(sent(Shown::Request(request(alloc, place)?)))
}

#[test]
fn requests_are_written(rt: HostRuntime) -> Result<(), Fail> {
    assert_eq!(rt;
        shown(rt.alloc(), Mode::Trace, Family::Requests, &REQUESTS)?,
        REQUESTS.len()
    );
    Ok(())
}
