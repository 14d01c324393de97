//! Entries with keys and values of one byte, and what is asked of a replica that applied them.

use super::texts::{read_text, refresh_text, ts_text};
use mr_base::{AttemptId, Bytes, Fate, Known, Memory, RangeId, Span, Ts};
use mvcc_range::Replica;
use range_log::Entry;
use std::alloc::Global;

/// An entry.
#[derive(Clone, Copy)]
pub enum Step {
    Put {
        attempt: u32,
        key: u8,
        ts: Ts,
        value: Option<u8>,
    },
    Resolve {
        attempt: u32,
        key: u8,
        fate: Fate,
    },
    Load {
        key: u8,
        ts: Ts,
        value: u8,
    },
    Close(Ts),
}

/// What is asked of the keys from one byte up to and without another, for an attempt.
#[derive(Clone, Copy)]
pub enum Question {
    Read { at: Ts, limit: Option<u64> },
    Refresh { from: Ts, to: Ts },
    Lowest,
    /// Of the first key alone.
    Newest,
}

/// A question with its attempt and its keys.
#[derive(Clone, Copy)]
pub struct Asked {
    pub attempt: u32,
    pub lo: u8,
    pub hi: u8,
    pub question: Question,
}

/// When an attempt of these logs began, and the range of its record.
pub fn start_of(attempt: u32) -> Ts {
    Ts {
        wall: u64::from(attempt) + 100,
        logical: 0,
        owner: attempt,
    }
}

pub fn anchor_of(attempt: u32) -> RangeId {
    RangeId(attempt.saturating_add(10))
}

fn key_of(alloc: Global, key: u8) -> Result<Bytes, Memory> {
    Bytes::from_slice(alloc, &[key])
}

fn value_of(alloc: Global, value: Option<u8>) -> Result<Option<Bytes>, Memory> {
    match value {
        None => Ok(None),
        Some(byte) => Ok(Some(key_of(alloc, byte)?)),
    }
}

fn entry_of(alloc: Global, step: &Step) -> Result<Entry, Memory> {
    match *step {
        Step::Put {
            attempt,
            key,
            ts,
            value,
        } => Ok(Entry::Put {
            attempt: AttemptId(attempt),
            start: start_of(attempt),
            anchor: anchor_of(attempt),
            ts,
            key: key_of(alloc, key)?,
            value: value_of(alloc, value)?,
        }),
        Step::Resolve { attempt, key, fate } => Ok(Entry::Resolve {
            attempt: AttemptId(attempt),
            key: key_of(alloc, key)?,
            fate,
        }),
        Step::Load { key, ts, value } => Ok(Entry::Load {
            ts,
            key: key_of(alloc, key)?,
            value: key_of(alloc, value)?,
        }),
        Step::Close(ts) => Ok(Entry::Close(ts)),
    }
}

/// Applies an entry.
pub fn apply(alloc: Global, replica: &mut Replica, step: &Step) -> Result<(), Memory> {
    let entry = entry_of(alloc, step)?;
    replica.apply(&entry)
}

/// What a replica answers, as a text.
pub fn answer(
    alloc: Global,
    replica: &Replica,
    asked: &Asked,
    known: &[Known],
) -> Result<String, Memory> {
    let span = Span {
        lo: key_of(alloc, asked.lo)?,
        hi: key_of(alloc, asked.hi)?,
    };
    let attempt = AttemptId(asked.attempt);
    match asked.question {
        Question::Read { at, limit } => {
            read_text(
                alloc,
                &replica.read(alloc, attempt, &span, at, limit, known)?,
            )
        }
        Question::Refresh { from, to } => {
            refresh_text(
                alloc,
                &replica.refresh(alloc, attempt, &span, from, to, known)?,
            )
        }
        Question::Lowest => ts_text(alloc, replica.lowest_intent(&span, attempt)),
        Question::Newest => ts_text(alloc, replica.newest(&span.lo)),
    }
}
