//! A table of logs and questions in words. `log` begins a log; the lines after it are its entries:
//!
//!     put ATTEMPT KEY TS VALUE          a value `-` deletes
//!     commit ATTEMPT KEY TS             the intent is resolved as committed
//!     abort ATTEMPT KEY
//!     load KEY TS VALUE
//!     close TS
//!
//! and questions with their answers behind ` -> `, each of a span of keys written as its two ends:
//!
//!     read ATTEMPT SPAN TS LIMIT FATES  a limit `-` is none; fates as 1c20 committed, 1a aborted, 1p20 pushed
//!     refresh ATTEMPT SPAN TS TS FATES
//!     lowest ATTEMPT SPAN
//!     newest ATTEMPT SPAN
//!
//! A timestamp without dots is a wall, owned by the attempt.

use super::steps::{Asked, Question, Step};
use mr_base::{AttemptId, Fate, Known, Memory, Ts};
use std::alloc::Global;

/// The first word, and what follows.
fn word(line: &str) -> (&str, &str) {
    match line.split_once(' ') {
        Some(parts) => parts,
        None => (line, ""),
    }
}

fn number(text: &str) -> u64 {
    text.parse::<u64>().unwrap_or(0)
}

fn attempt_of(text: &str) -> u32 {
    text.parse::<u32>().unwrap_or(0)
}

fn byte(text: &str) -> u8 {
    text.as_bytes().first().copied().unwrap_or(0)
}

fn second_byte(text: &str) -> u8 {
    text.as_bytes().get(1).copied().unwrap_or(0)
}

fn ts_of(text: &str, owner: u32) -> Ts {
    let Some((wall, rest)) = text.split_once('.') else {
        return Ts {
            wall: number(text),
            logical: 0,
            owner,
        };
    };
    let (logical, owner) = rest.split_once('.').unwrap_or((rest, ""));
    Ts {
        wall: number(wall),
        logical: number(logical),
        owner: attempt_of(owner),
    }
}

/// An entry.
pub fn step_of(line: &str) -> Option<Step> {
    let (verb, rest) = word(line);
    let (first, rest) = word(rest);
    let (second, rest) = word(rest);
    let (third, fourth) = word(rest);
    let attempt = attempt_of(first);
    let key = byte(second);
    match verb {
        "put" => Some(Step::Put {
            attempt,
            key,
            ts: ts_of(third, attempt),
            value: Some(byte(fourth)).filter(|v| *v != b'-'),
        }),
        "commit" => Some(Step::Resolve {
            attempt,
            key,
            fate: Fate::Committed(ts_of(third, attempt)),
        }),
        "abort" => Some(Step::Resolve {
            attempt,
            key,
            fate: Fate::Aborted,
        }),
        "load" => Some(Step::Load {
            key: byte(first),
            ts: ts_of(second, 0),
            value: byte(third),
        }),
        "close" => Some(Step::Close(ts_of(first, 0))),
        _ => None,
    }
}

fn known_of(text: &str) -> Option<Known> {
    if let Some((attempt, ts)) = text.split_once('c') {
        return Some(fate_of(attempt, Fate::Committed(ts_of(ts, attempt_of(attempt)))));
    }
    if let Some((attempt, ts)) = text.split_once('p') {
        return Some(fate_of(attempt, Fate::Pushed(ts_of(ts, 0))));
    }
    let (attempt, _) = text.split_once('a')?;
    Some(fate_of(attempt, Fate::Aborted))
}

fn fate_of(attempt: &str, fate: Fate) -> Known {
    Known {
        attempt: AttemptId(attempt_of(attempt)),
        fate,
    }
}

/// The fates at the end of a question.
fn fates_of(alloc: Global, text: &str) -> Result<Vec<Known>, Memory> {
    let mut known = Vec::new(alloc);
    for word in text.split(' ') {
        if let Some(fate) = known_of(word) {
            known.push(fate)?;
        }
    }
    Ok(known)
}

/// A question, with its fates.
pub fn question_of(alloc: Global, line: &str) -> Result<Option<(Asked, Vec<Known>)>, Memory> {
    let (verb, rest) = word(line);
    let (first, rest) = word(rest);
    let (second, rest) = word(rest);
    let (third, rest) = word(rest);
    let (fourth, fates) = word(rest);
    let attempt = attempt_of(first);
    let at = ts_of(third, attempt);
    let question = match verb {
        "read" => Question::Read {
            at,
            limit: fourth.parse::<u64>().ok(),
        },
        "refresh" => Question::Refresh {
            from: at,
            to: ts_of(fourth, attempt),
        },
        "lowest" => Question::Lowest,
        "newest" => Question::Newest,
        _ => return Ok(None),
    };
    let asked = Asked {
        attempt,
        lo: byte(second),
        hi: second_byte(second),
        question,
    };
    Ok(Some((asked, fates_of(alloc, fates)?)))
}
