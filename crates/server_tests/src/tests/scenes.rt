//! A range's log with the server of one replica, and what is asked of it.

ghost use Rattle.std.specs.Prelude.{IfOk, IsSome, IsTrue, OnOk};
ghost use Rattle.mr_base.specs.Nodes.{IsNode};
ghost use Rattle.range_log.specs.Facts.{lease_of};
ghost use Rattle.range_server.specs.Leases.{HasAnswered};
ghost use Rattle.range_server.specs.Scene.{IsBeside, applied_by};
ghost use Rattle.server_tests.specs.Staged.{IsSaid, IsStaged};

use super::texts::{add, add_entry, add_refusal, add_reply, add_right};
use super::words::{
    bytes_of, fate_of, known_of, limit_of, nodes_of, number, small, span_of, state_of, ts_of, word,
};
use mr_base::{
    AttemptId, Bytes, ListOf, Memory, NodeId, NodeSet, RangeId, Reading, Request, Settings, Ts,
};
use range_log::{Entry, Lease, RangeLog};
use range_server::{Handled, LeaseRefusal, Server};
use std::alloc::Global;

/// Settings with small numbers.
const SETTINGS: Settings = Settings {
    max_offset: 5,
    lease: 100,
    lag: 30,
    lead: 8,
    expire: 50,
};

/// The voters of the range.
const VOTERS: NodeSet = NodeSet(7);

/// The first question of a block that isn't answered as the table says, with what it is answered; empty where all
/// are.
pub fn first_wrong(alloc: Global, block: &str) -> Result<String, Memory> {
    let mut log = log_of(alloc, block)?;
    if block.is_empty() {
        return Ok(String::new(alloc));
    }
    let mut server = server_of(alloc, block, &log)?;
    for line in block.lines() {
        if let Some((words, want)) = line.split_once(" -> ") {
            let got = ask(alloc, &mut server, &mut log, words)?;
            if got.as_str() != want {
                return wrong(alloc, words, got.as_str());
            }
        }
    }
    Ok(String::new(alloc))
}

fn wrong(alloc: Global, words: &str, got: &str) -> Result<String, Memory> {
    let mut text = said(alloc, words)?;
    add(&mut text, "->")?;
    add(&mut text, got)?;
    Ok(text)
}

/// A log that begins with a lease of node 1 at boot 1, to 1000, and goes on with the entries of the lines.
fn log_of(alloc: Global, block: &str) -> Result<RangeLog, Memory> {
    let first = Lease {
        seq: 1,
        holder: NodeId(1),
        boot: 1,
        expiration: 1000,
        low: Ts::ZERO,
    };
    let mut log = RangeLog::new(alloc, VOTERS, first)?;
    for line in block.lines() {
        if let Some(words) = line.strip_prefix("+ ") {
            let e = entry_of(alloc, words)?;
            let seq = log.lease().seq;
            log.reserve(1)?;
            if log.append(e, seq, VOTERS).is_err() {
                return Err(Memory);
            }
        }
    }
    Ok(log)
}

/// An entry of the words.
fn entry_of(alloc: Global, words: &str) -> Result<Entry, Memory> {
    let (verb, rest) = word(words);
    let (first, rest) = word(rest);
    let (second, third) = word(rest);
    let attempt = small(first);
    match verb {
        "lease" => {
            let (boot, rest) = word(third);
            let (end, low) = word(rest);
            Ok(Entry::Lease(Lease {
                seq: attempt,
                holder: NodeId(small(second)),
                boot: small(boot),
                expiration: number(end),
                low: ts_of(low, 0),
            }))
        }
        "put" => Ok(Entry::Put {
            attempt: AttemptId(attempt),
            start: ts_of(third, attempt),
            anchor: RangeId(1),
            ts: ts_of(third, attempt),
            key: bytes_of(alloc, second)?,
            value: Some(bytes_of(alloc, "x")?),
        }),
        "resolve" => Ok(Entry::Resolve {
            attempt: AttemptId(attempt),
            key: bytes_of(alloc, second)?,
            fate: fate_of(third, attempt),
        }),
        "record" => Ok(Entry::State {
            attempt: AttemptId(attempt),
            state: state_of(second, attempt),
        }),
        "load" => Ok(Entry::Load {
            ts: ts_of(third, 0),
            key: bytes_of(alloc, second)?,
            value: bytes_of(alloc, "y")?,
        }),
        _ => Ok(Entry::Close(ts_of(first, 0))),
    }
}

/// The server of the line `server NODE BOOT KIND APPLIED`.
fn server_of(alloc: Global, block: &str, log: &RangeLog) -> Result<Server, Memory>
    ensures { IfOk result (λ server. IsStaged server log.now) }
{
    for line in block.lines() {
        if let Some(words) = line.strip_prefix("server ") {
            let (node, rest) = word(words);
            let (boot, rest) = word(rest);
            let (kind, applied) = word(rest);
            return server_at(
                alloc,
                node_of(node),
                small(boot),
                kind == "global",
                number(applied),
                log,
            );
        }
    }
    Err(Memory)
}

/// One of the nodes 1 to 4.
fn node_of(text: &str) -> NodeId
    ensures { IsNode result }
{
    match text {
        "1" => NodeId(1),
        "2" => NodeId(2),
        "3" => NodeId(3),
        _ => NodeId(4),
    }
}

/// A server that has applied so many entries, or all of them.
fn server_at(
    alloc: Global,
    node: NodeId,
    boot: u32,
    global: bool,
    applied: u64,
    log: &RangeLog,
) -> Result<Server, Memory>
    requires { IsNode node }
    ensures { IfOk result (λ server. IsStaged server log.now) }
{
    let mut server = Server::new(alloc, node, boot, global)?;
    let upto = if applied < log.len() {
        applied
    } else {
        log.len()
    };
    server.apply_to(log, upto)?;
    Ok(server)
}

/// Whether the server can be asked: it has applied a lease, and all of the log or a lease of
/// another number than the log's last.
fn is_ready(server: &Server, log: &RangeLog) -> bool
    requires { IsStaged server.now log.now }
    ensures beside { IsTrue result → IsBeside server.now log.now.entries }
    ensures leased { IsTrue result → IsSome (lease_of (applied_by server.now log.now.entries)) }
{
    let Some(lease) = server.replica().lease() else {
        return false;
    };
    if server.replica().applied() == log.len() {
        return true;
    }
    lease.seq != log.lease().seq
}

/// What is asked in words, answered as text: the reply, by what right, and the entries that were appended.
fn ask(
    alloc: Global,
    server: &mut Server,
    log: &mut RangeLog,
    words: &str,
) -> Result<String, Memory>
    requires { IsStaged server.old log.old }
    ensures { OnOk result (IsStaged server.new log.new) }
{
    let (wall, rest) = word(words);
    let (running, rest) = word(rest);
    let (verb, rest) = word(rest);
    let clock = Reading {
        wall: number(wall),
        logical: 0,
    };
    if !is_ready(server, log) {
        return said(alloc, "not ready");
    }
    let before = log.len();
    let text = if is_of_leases(verb) {
        move_lease(alloc, server, log, verb, rest, clock, nodes_of(running))?
    } else {
        let request = request_of(alloc, verb, rest)?;
        ask_server(alloc, server, log, &request, clock, nodes_of(running))?
    };
    with_entries(alloc, text, log, before)
}

fn said(alloc: Global, word: &str) -> Result<String, Memory> {
    let mut text = String::new(alloc);
    add(&mut text, word)?;
    Ok(text)
}

fn is_of_leases(verb: &str) -> bool {
    verb == "acquire"
        || verb == "transfer"
        || verb == "extend"
        || verb == "close"
        || verb == "restart"
}

/// The text and the entries of the log from some on.
fn with_entries(
    alloc: Global,
    mut text: String,
    log: &RangeLog,
    before: u64,
) -> Result<String, Memory> {
    for i in before..log.len() {
        add_entry(alloc, &mut text, log.entry(i + 1))?;
    }
    Ok(text)
}

/// A request of the words.
fn request_of(alloc: Global, verb: &str, rest: &str) -> Result<Request, Memory> {
    let range = RangeId(1);
    let (first, rest) = word(rest);
    let (second, rest) = word(rest);
    let (third, rest) = word(rest);
    let (fourth, fifth) = word(rest);
    let number = small(first);
    let attempt = AttemptId(number);
    match verb {
        "read" => Ok(Request::Read {
            attempt,
            range,
            span: span_of(alloc, second)?,
            at: ts_of(third, number),
            limit: limit_of(fourth),
            fates: known_of(alloc, fifth)?,
        }),
        "refresh" => Ok(Request::Refresh {
            attempt,
            range,
            span: span_of(alloc, second)?,
            from: ts_of(third, number),
            at: ts_of(fourth, number),
            fates: known_of(alloc, fifth)?,
        }),
        "put" => Ok(Request::Put {
            attempt,
            range,
            start: ts_of(third, number),
            anchor: range,
            at: ts_of(third, number),
            key: bytes_of(alloc, second)?,
            value: Some(bytes_of(alloc, "x")?),
            fates: known_of(alloc, fourth)?,
        }),
        "pushr" => Ok(Request::PushReader {
            attempt,
            range,
            other: AttemptId(small(second)),
            at: ts_of(third, number),
        }),
        "pushw" => Ok(Request::PushWriter {
            attempt,
            range,
            other: AttemptId(small(second)),
            start: ts_of(third, number),
            other_start: ts_of(fourth, small(second)),
        }),
        "commit" => Ok(Request::Commit {
            attempt,
            range,
            at: ts_of(second, number),
        }),
        "abort" => Ok(Request::Abort { attempt, range }),
        _ => resolve_of(alloc, number, second, third),
    }
}

/// A resolve of the keys of a word, each of one letter.
fn resolve_of(alloc: Global, attempt: u32, keys: &str, fate: &str) -> Result<Request, Memory> {
    let mut list = ListOf::new(alloc);
    for byte in keys.as_bytes() {
        list.push(Bytes::from_slice(alloc, &[*byte])?)?;
    }
    Ok(Request::Resolve {
        attempt: AttemptId(attempt),
        range: RangeId(1),
        keys: list,
        fate: fate_of(fate, attempt),
    })
}

/// What a request is answered.
fn ask_server(
    alloc: Global,
    server: &mut Server,
    log: &mut RangeLog,
    request: &Request,
    clock: Reading,
    running: NodeSet,
) -> Result<String, Memory>
    requires staged { IsStaged server.old log.old }
    requires beside { IsBeside server.old log.old.entries }
    requires leased { IsSome (lease_of (applied_by server.old log.old.entries)) }
    ensures { OnOk result (IsStaged server.new log.new) }
{
    let handled = server.handle(alloc, request, clock, &SETTINGS, log, running)?;
    text_of(alloc, &handled)
}

fn text_of(alloc: Global, handled: &Handled) -> Result<String, Memory> {
    let mut text = String::new(alloc);
    match &handled.reply {
        Some(reply) => add_reply(alloc, &mut text, reply)?,
        None => add(&mut text, "none")?,
    }
    add_right(&mut text, handled.by)?;
    Ok(text)
}

/// What becomes of the lease, or of what is closed.
fn move_lease(
    alloc: Global,
    server: &mut Server,
    log: &mut RangeLog,
    verb: &str,
    rest: &str,
    clock: Reading,
    running: NodeSet,
) -> Result<String, Memory>
    requires staged { IsStaged server.old log.old }
    requires beside { IsBeside server.old log.old.entries }
    ensures { OnOk result (IsStaged server.new log.new) }
{
    match verb {
        "restart" => {
            server.restart(small(rest));
            said(alloc, "restarted")
        }
        "close" => close(alloc, server, log, clock, running),
        "acquire" => acquire(alloc, server, log, clock, running),
        "extend" => extend(alloc, server, log, clock, running),
        _ => {
            let (node, boot) = word(rest);
            transfer(
                alloc,
                server,
                log,
                node_of(node),
                small(boot),
                clock,
                running,
            )
        }
    }
}

fn close(
    alloc: Global,
    server: &mut Server,
    log: &mut RangeLog,
    clock: Reading,
    running: NodeSet,
) -> Result<String, Memory>
    requires staged { IsStaged server.old log.old }
    requires beside { IsBeside server.old log.old.entries }
    ensures { OnOk result (IsStaged server.new log.new) }
{
    let answer = server.close(clock, &SETTINGS, log, running);
    closed_text(alloc, answer)
}

fn acquire(
    alloc: Global,
    server: &mut Server,
    log: &mut RangeLog,
    clock: Reading,
    running: NodeSet,
) -> Result<String, Memory>
    requires staged { IsStaged server.old log.old }
    requires beside { IsBeside server.old log.old.entries }
    ensures { OnOk result (IsStaged server.new log.new) }
{
    let answer = server.acquire(clock, &SETTINGS, log, running);
    lease_text(alloc, answer)
}

fn extend(
    alloc: Global,
    server: &mut Server,
    log: &mut RangeLog,
    clock: Reading,
    running: NodeSet,
) -> Result<String, Memory>
    requires staged { IsStaged server.old log.old }
    requires beside { IsBeside server.old log.old.entries }
    ensures { OnOk result (IsStaged server.new log.new) }
{
    let answer = server.extend(clock, &SETTINGS, log, running);
    lease_text(alloc, answer)
}

fn transfer(
    alloc: Global,
    server: &mut Server,
    log: &mut RangeLog,
    to: NodeId,
    boot: u32,
    clock: Reading,
    running: NodeSet,
) -> Result<String, Memory>
    requires node { IsNode to }
    requires staged { IsStaged server.old log.old }
    requires beside { IsBeside server.old log.old.entries }
    ensures { OnOk result (IsStaged server.new log.new) }
{
    let answer = server.transfer(to, boot, clock, &SETTINGS, log, running);
    lease_text(alloc, answer)
}

fn lease_text(alloc: Global, lease: Result<Lease, LeaseRefusal>) -> Result<String, Memory>
    ensures { OnOk result (HasAnswered lease) }
{
    match lease {
        Ok(_) => said(alloc, "done"),
        Err(refusal) => refusal_text(alloc, refusal),
    }
}

fn closed_text(alloc: Global, closed: Result<Option<Ts>, LeaseRefusal>) -> Result<String, Memory>
    ensures { OnOk result (HasAnswered closed) }
{
    match closed {
        Ok(Some(_)) => said(alloc, "done"),
        Ok(None) => said(alloc, "nothing"),
        Err(refusal) => refusal_text(alloc, refusal),
    }
}

fn refusal_text(alloc: Global, refusal: LeaseRefusal) -> Result<String, Memory>
    ensures { OnOk result (IsSaid refusal) }
{
    if let LeaseRefusal::Memory = refusal {
        return Err(Memory);
    }
    let mut text = String::new(alloc);
    add_refusal(alloc, &mut text, refusal)?;
    Ok(text)
}
