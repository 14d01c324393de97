//! Each call that may want memory is made once with ample memory.

use mr_base::{
    Ask, AttemptId, Body, Bytes, CloneIn, Datum, Fate, FixedScript, Known, ListOf, Memory, Message,
    MsgId, Need, NodeId, NodeInfo, Pair, RangeId, Reply, Request, Script, Span, SqlState,
    StatementResult, Ts, TxnId, Verb, Write, is_utf8,
};
use std::alloc::Global;
use std::test::Fail;

fn key(alloc: Global) -> Result<Bytes, Memory> {
    Bytes::from_slice(alloc, b"k")
}

fn list_of<T: Drop>(alloc: Global, item: T) -> Result<ListOf<T>, Memory> {
    let mut items = ListOf::new(alloc);
    items.push(item)?;
    Ok(items)
}

fn is_copied<T: CloneIn>(alloc: Global, value: &T) -> bool {
    value.clone_in(alloc).is_ok()
}

#[test]
fn numbers_and_fates_are_copied(rt: HostRuntime) {
    let alloc = rt.alloc();
    let known = Known {
        attempt: AttemptId(1),
        fate: Fate::Aborted,
    };
    let copied = [
        is_copied(alloc, &known),
        is_copied(alloc, &RangeId(1)),
        is_copied(alloc, &MsgId(1)),
        is_copied(alloc, &1u32),
        is_copied(alloc, &1usize),
    ];
    for is_copy in copied {
        assert!(rt; is_copy);
    }
}

#[test]
fn what_holds_bytes_is_copied(rt: HostRuntime) -> Result<(), Fail> {
    let alloc = rt.alloc();
    let info = NodeInfo {
        id: NodeId(1),
        region: key(alloc)?,
        zone: key(alloc)?,
    };
    assert!(rt; is_copied(alloc, &info));
    let pair = Pair {
        key: key(alloc)?,
        value: key(alloc)?,
    };
    assert!(rt; is_copied(alloc, &pair));
    let write = Write {
        range: RangeId(1),
        key: key(alloc)?,
        value: None,
    };
    assert!(rt; is_copied(alloc, &write));
    Ok(())
}

#[test]
fn lists_are_copied(rt: HostRuntime) -> Result<(), Fail> {
    let alloc = rt.alloc();
    let pairs = list_of(alloc, (NodeId(1), Some(5u64)))?;
    assert!(rt; ListOf::copy_of(alloc, pairs.as_slice())?.len() == 1);
    let row = list_of(alloc, Datum::Text(key(alloc)?))?;
    assert!(rt; row.clone_in(alloc)? == row);
    let answer = StatementResult {
        verb: Verb::Select,
        count: 1,
        rows: list_of(alloc, row)?,
    };
    assert!(rt; is_copied(alloc, &answer));
    Ok(())
}

fn message(body: Body) -> Message {
    Message {
        id: MsgId(1),
        from: NodeId(1),
        to: NodeId(2),
        clock: None,
        txn: TxnId(1),
        boot: 1,
        body,
    }
}

#[test]
fn messages_are_copied(rt: HostRuntime) -> Result<(), Fail> {
    let alloc = rt.alloc();
    let request = Request::Resolve {
        attempt: AttemptId(1),
        range: RangeId(1),
        keys: list_of(alloc, key(alloc)?)?,
        fate: Fate::Aborted,
    };
    let reply = Reply::Uncertain {
        key: key(alloc)?,
        ts: Ts::ZERO,
    };
    assert!(rt; is_copied(alloc, &message(Body::Request(request))));
    assert!(rt; is_copied(alloc, &message(Body::Reply(reply))));
    Ok(())
}

#[test]
fn a_fixed_script_runs(rt: HostRuntime) -> Result<(), Fail> {
    let alloc = rt.alloc();
    let span = Span {
        lo: key(alloc)?,
        hi: key(alloc)?,
    };
    let ask = Ask {
        range: RangeId(1),
        span,
    };
    let mut script = FixedScript::new(alloc, list_of(alloc, ask)?, ListOf::new(alloc));
    for _ in 0..2 {
        let need = script.need()?;
        let Need::Ask(ask) = need else { break };
        script.feed(&ask, &[])?;
        assert!(rt; matches!(script.need()?, Need::Done));
        script.restart()?;
    }
    assert!(rt; matches!(script.need()?, Need::Ask(_)));
    Ok(())
}

#[test]
fn texts_are_written(rt: HostRuntime) -> Result<(), Fail> {
    let alloc = rt.alloc();
    let at = Ts::ZERO.above(3);
    let node = NodeId(64);
    let text = format!(in alloc; "{at} {node}")?;
    assert_eq!(rt; text.as_str(), "0.1.3 n64");
    let text = format!(in alloc; "{}", SqlState::S22P02)?;
    assert_eq!(rt; text.as_str(), "22P02");
    Ok(())
}

#[test]
fn texts_are_utf8(rt: HostRuntime) {
    let cases: [(&[u8], bool); 4] = [
        (b"", true),
        (b"M\xc3\xbcnchen", true),
        (b"M\xfcnchen", false),
        (b"\xc0\x80", false),
    ];
    for (bytes, is_text) in cases {
        assert!(rt; is_utf8(bytes) == is_text);
    }
}
