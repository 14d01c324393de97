//! Answers and entries as text.

use mr_base::{Bytes, Fate, Memory, NodeSet, Pair, Reply, Ts};
use range_log::{Entry, Lease, TxnState};
use range_server::{LeaseRefusal, Right};
use std::alloc::Global;

/// Adds a word, after a blank where it isn't the first.
pub fn add(text: &mut String, word: &str) -> Result<(), Memory> {
    if !text.is_empty() {
        text.push_str(" ")?;
    }
    text.push_str(word)?;
    Ok(())
}

pub fn add_number(alloc: Global, text: &mut String, number: u64) -> Result<(), Memory> {
    let word = format!(in alloc; "{number}")?;
    add(text, word.as_str())
}

pub fn add_ts(alloc: Global, text: &mut String, ts: Ts) -> Result<(), Memory> {
    let word = format!(in alloc; "{ts}")?;
    add(text, word.as_str())
}

fn add_key(text: &mut String, key: &Bytes) -> Result<(), Memory> {
    for byte in key.as_slice() {
        add(text, letter(*byte))?;
    }
    Ok(())
}

/// The key or value of one letter; the tables use these.
fn letter(byte: u8) -> &'static str {
    match byte {
        b'a' => "a",
        b'b' => "b",
        b'c' => "c",
        b'x' => "x",
        b'y' => "y",
        _ => "?",
    }
}

fn add_pairs(text: &mut String, pairs: &[Pair]) -> Result<(), Memory> {
    for pair in pairs {
        add_key(text, &pair.key)?;
        add_key(text, &pair.value)?;
    }
    Ok(())
}

fn add_fate(alloc: Global, text: &mut String, fate: Fate) -> Result<(), Memory> {
    match fate {
        Fate::Committed(ts) => {
            add(text, "committed")?;
            add_ts(alloc, text, ts)
        }
        Fate::Aborted => add(text, "aborted"),
        Fate::Pushed(ts) => {
            add(text, "pushed")?;
            add_ts(alloc, text, ts)
        }
    }
}

fn add_nodes(text: &mut String, nodes: NodeSet) -> Result<(), Memory> {
    for (bit, name) in [(1u64, "n1"), (2, "n2"), (4, "n3"), (8, "n4")] {
        if nodes.0 & bit != 0 {
            add(text, name)?;
        }
    }
    Ok(())
}

/// What was answered.
pub fn add_reply(alloc: Global, text: &mut String, reply: &Reply) -> Result<(), Memory> {
    match reply {
        Reply::Rows { pairs } => {
            add(text, "rows")?;
            add_pairs(text, pairs.as_slice())
        }
        Reply::Uncertain { key, ts } => {
            add(text, "uncertain")?;
            add_key(text, key)?;
            add_ts(alloc, text, *ts)
        }
        Reply::Unknown { key, attempt, .. } => {
            add(text, "unknown")?;
            add_key(text, key)?;
            add_number(alloc, text, u64::from(attempt.0))
        }
        Reply::Laid { ts } => {
            add(text, "laid")?;
            add_ts(alloc, text, *ts)
        }
        Reply::Intent { key, attempt, .. } => {
            add(text, "intent")?;
            add_key(text, key)?;
            add_number(alloc, text, u64::from(attempt.0))
        }
        Reply::Newer { ts } => {
            add(text, "newer")?;
            add_ts(alloc, text, *ts)
        }
        Reply::Fate { attempt, fate } => {
            add(text, "fate")?;
            add_number(alloc, text, u64::from(attempt.0))?;
            add_fate(alloc, text, *fate)
        }
        other => add_short_reply(alloc, text, other),
    }
}

fn add_short_reply(alloc: Global, text: &mut String, reply: &Reply) -> Result<(), Memory> {
    match reply {
        Reply::Refreshed => add(text, "refreshed"),
        Reply::Live { attempt } => {
            add(text, "live")?;
            add_number(alloc, text, u64::from(attempt.0))
        }
        Reply::Ended => add(text, "ended"),
        Reply::Aborted { by } => {
            add(text, "aborted")?;
            add_number(alloc, text, u64::from(by.0))
        }
        Reply::Pushed { ts } => {
            add(text, "pushed")?;
            add_ts(alloc, text, *ts)
        }
        Reply::NotHolder { seq, .. } => {
            add(text, "notholder")?;
            add_number(alloc, text, u64::from(*seq))
        }
        Reply::NoQuorum { down } => {
            add(text, "noquorum")?;
            add_nodes(text, *down)
        }
        _ => add(text, "?"),
    }
}

pub fn add_right(text: &mut String, by: Option<Right>) -> Result<(), Memory> {
    match by {
        Some(Right::Lease) => add(text, "by lease"),
        Some(Right::Closure) => add(text, "by closure"),
        None => Ok(()),
    }
}

pub fn add_refusal(alloc: Global, text: &mut String, refusal: LeaseRefusal) -> Result<(), Memory> {
    match refusal {
        LeaseRefusal::Live { expiration } => {
            add(text, "live")?;
            add_number(alloc, text, expiration)
        }
        LeaseRefusal::NotVoter => add(text, "notvoter"),
        LeaseRefusal::NotHolder => add(text, "notholder"),
        LeaseRefusal::NoQuorum { down } => {
            add(text, "noquorum")?;
            add_nodes(text, down)
        }
        LeaseRefusal::Memory => add(text, "memory"),
    }
}

fn add_lease(alloc: Global, text: &mut String, lease: &Lease) -> Result<(), Memory> {
    add(text, "lease")?;
    add_number(alloc, text, u64::from(lease.seq))?;
    add_number(alloc, text, u64::from(lease.holder.0))?;
    add_number(alloc, text, u64::from(lease.boot))?;
    add_number(alloc, text, lease.expiration)?;
    add_ts(alloc, text, lease.low)
}

fn add_state(alloc: Global, text: &mut String, state: TxnState) -> Result<(), Memory> {
    match state {
        TxnState::Pending(ts) => {
            add(text, "pending")?;
            add_ts(alloc, text, ts)
        }
        TxnState::Committed(ts) => {
            add(text, "committed")?;
            add_ts(alloc, text, ts)
        }
        TxnState::Aborted(by) => {
            add(text, "aborted")?;
            add_number(alloc, text, u64::from(by.0))
        }
    }
}

/// An entry that was appended.
pub fn add_entry(alloc: Global, text: &mut String, e: &Entry) -> Result<(), Memory> {
    add(text, ";")?;
    match e {
        Entry::Lease(lease) => add_lease(alloc, text, lease),
        Entry::Put { attempt, ts, .. } => {
            add(text, "put")?;
            add_number(alloc, text, u64::from(attempt.0))?;
            add_ts(alloc, text, *ts)
        }
        Entry::Resolve { attempt, key, fate } => {
            add(text, "resolve")?;
            add_number(alloc, text, u64::from(attempt.0))?;
            add_key(text, key)?;
            add_fate(alloc, text, *fate)
        }
        Entry::State { attempt, state } => {
            add(text, "record")?;
            add_number(alloc, text, u64::from(attempt.0))?;
            add_state(alloc, text, *state)
        }
        Entry::Close(ts) => {
            add(text, "close")?;
            add_ts(alloc, text, *ts)
        }
        Entry::Load { .. } => add(text, "load"),
    }
}
