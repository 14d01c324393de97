//! Words of the table.

use mr_base::{AttemptId, Bytes, Fate, Known, ListOf, Memory, NodeSet, Span, Ts};
use range_log::TxnState;
use std::alloc::Global;

/// The first word, and what follows.
pub fn word(line: &str) -> (&str, &str) {
    line.split_once(' ').unwrap_or((line, ""))
}

pub fn number(text: &str) -> u64 {
    text.parse::<u64>().unwrap_or(0)
}

pub fn small(text: &str) -> u32 {
    text.parse::<u32>().unwrap_or(0)
}

/// A timestamp `wall.logical.owner`, or a wall alone, which is owned by an attempt.
pub fn ts_of(text: &str, owner: u32) -> Ts {
    let Some((wall, rest)) = text.split_once('.') else {
        return Ts {
            wall: number(text),
            logical: 0,
            owner,
        };
    };
    let (logical, owner) = rest.split_once('.').unwrap_or((rest, ""));
    Ts {
        wall: number(wall),
        logical: number(logical),
        owner: small(owner),
    }
}

/// A limit; `-` is none.
pub fn limit_of(text: &str) -> Option<u64> {
    if text == "-" {
        None
    } else {
        Some(number(text))
    }
}

/// `c20` is committed at wall 20 by the attempt, `p20` pushed above it, and everything else aborted.
pub fn fate_of(text: &str, attempt: u32) -> Fate {
    if let Some(at) = text.strip_prefix('c') {
        return Fate::Committed(ts_of(at, attempt));
    }
    if let Some(at) = text.strip_prefix('p') {
        return Fate::Pushed(ts_of(at, attempt));
    }
    Fate::Aborted
}

/// `c20` is committed, `p20` pending, `a3` aborted by an attempt.
pub fn state_of(text: &str, attempt: u32) -> TxnState {
    if let Some(at) = text.strip_prefix('c') {
        return TxnState::Committed(ts_of(at, attempt));
    }
    if let Some(at) = text.strip_prefix('p') {
        return TxnState::Pending(ts_of(at, attempt));
    }
    TxnState::Aborted(AttemptId(small(text.strip_prefix('a').unwrap_or(""))))
}

/// The fate of an attempt, as `3:c20`; `-` is none.
pub fn known_of(alloc: Global, text: &str) -> Result<ListOf<Known>, Memory> {
    let mut known = ListOf::new(alloc);
    if let Some((attempt, fate)) = text.split_once(':') {
        let attempt = small(attempt);
        let fate = fate_of(fate, attempt);
        let attempt = AttemptId(attempt);
        known.push(Known { attempt, fate })?;
    }
    Ok(known)
}

pub fn bytes_of(alloc: Global, text: &str) -> Result<Bytes, Memory> {
    Bytes::from_slice(alloc, text.as_bytes())
}

/// The keys from one up to and without another, as `a-d`.
pub fn span_of(alloc: Global, text: &str) -> Result<Span, Memory> {
    let (lo, hi) = text.split_once('-').unwrap_or((text, ""));
    Ok(Span {
        lo: bytes_of(alloc, lo)?,
        hi: bytes_of(alloc, hi)?,
    })
}

/// The nodes of a word of digits; `-` is none.
pub fn nodes_of(text: &str) -> NodeSet {
    let mut bits = 0u64;
    for digit in text.as_bytes() {
        if *digit >= b'1' && *digit <= b'9' {
            bits |= 1u64 << (*digit - b'1');
        }
    }
    NodeSet(bits)
}
