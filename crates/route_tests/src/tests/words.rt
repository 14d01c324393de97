//! Words of the cases.

ghost use Rattle.mr_base.specs.Nodes.{IsNode};

use mr_base::{AttemptId, Bytes, Fate, ListOf, Memory, NodeId, RangeId, Request, Span, Ts};
use std::alloc::Global;

/// The first word, and what follows.
pub fn word(line: &str) -> (&str, &str) {
    line.split_once(' ').unwrap_or((line, ""))
}

pub fn small(text: &str) -> u32 {
    text.parse::<u32>().unwrap_or(0)
}

/// The node of a number; 64 where there is none.
pub fn node_of(text: &str) -> NodeId
    ensures { IsNode result }
{
    let number = small(text);
    if number < 1 || number > 64 {
        return NodeId(64);
    }
    NodeId(number)
}

/// A request of attempt 5 to range 1.
pub fn request_of(alloc: Global, verb: &str) -> Result<Request, Memory> {
    let attempt = AttemptId(5);
    let range = RangeId(1);
    let at = Ts::ZERO;
    match verb {
        "read" => Ok(Request::Read {
            attempt,
            range,
            span: span(alloc)?,
            at,
            limit: None,
            fates: ListOf::new(alloc),
        }),
        "refresh" => Ok(Request::Refresh {
            attempt,
            range,
            span: span(alloc)?,
            from: at,
            at,
            fates: ListOf::new(alloc),
        }),
        "put" => Ok(Request::Put {
            attempt,
            range,
            start: at,
            anchor: range,
            at,
            key: Bytes::from_slice(alloc, b"a")?,
            value: None,
            fates: ListOf::new(alloc),
        }),
        "push-reader" => Ok(Request::PushReader {
            attempt,
            range,
            other: AttemptId(4),
            at,
        }),
        "push-writer" => Ok(Request::PushWriter {
            attempt,
            range,
            other: AttemptId(4),
            start: at,
            other_start: at,
        }),
        "commit" => Ok(Request::Commit { attempt, range, at }),
        "abort" => Ok(Request::Abort { attempt, range }),
        _ => Ok(Request::Resolve {
            attempt,
            range,
            keys: ListOf::new(alloc),
            fate: Fate::Aborted,
        }),
    }
}

fn span(alloc: Global) -> Result<Span, Memory> {
    Ok(Span {
        lo: Bytes::from_slice(alloc, b"a")?,
        hi: Bytes::from_slice(alloc, b"b")?,
    })
}
