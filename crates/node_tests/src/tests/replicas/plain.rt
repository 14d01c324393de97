//! The answers by their definitions: each step of a log is gone through for each key and timestamp.

use super::steps::{Asked, Question, Step, anchor_of, start_of};
use mr_base::{Fate, Known, Memory, Ts};
use std::alloc::Global;

/// Walls up to which drawn timestamps go, and owners.
pub const WALLS: u64 = 7;

pub const OWNERS: u32 = 4;

/// An intent that stands: its attempt, timestamp and value.
type Standing = (u32, Ts, Option<u8>);

/// A log with the fates that a request carries, as its attempt sees it.
#[derive(Clone, Copy)]
pub struct Plain<'a> {
    pub steps: &'a [Step],
    pub known: &'a [Known],
    pub attempt: u32,
}

/// All timestamps of drawn logs, rising: eight walls, and five owners at each.
pub fn all_times(alloc: Global) -> Result<Vec<Ts>, Memory> {
    let mut times = Vec::new(alloc);
    for wall in 0..8 {
        for owner in 0..5 {
            times.push(Ts {
                wall,
                logical: 0,
                owner,
            })?;
        }
    }
    Ok(times)
}

/// The intent at a key after so many steps: the last put there, unless its attempt was resolved there since.
fn standing(steps: &[Step], count: usize, at: u8) -> Option<Standing> {
    let mut last: Option<Standing> = None;
    for step in steps.iter().take(count) {
        match *step {
            Step::Put {
                attempt,
                key,
                ts,
                value,
            } if key == at => last = Some((attempt, ts, value)),
            Step::Resolve { attempt, key, .. } if key == at => {
                last = last.filter(|put| put.0 != attempt);
            }
            _ => {}
        }
    }
    last
}

impl<'a> Plain<'a> {
    fn intent(&self, key: u8) -> Option<Standing> {
        standing(self.steps, self.steps.len(), key)
    }

    fn fate(&self, attempt: u32) -> Option<Fate> {
        let mut fate = None;
        for k in self.known {
            if k.attempt.0 == attempt {
                fate = Some(k.fate);
            }
        }
        fate
    }

    /// What a step makes a version of a key and timestamp, if it does.
    fn made(&self, place: usize, step: &Step, at: u8, when: Ts) -> Option<Option<u8>> {
        match *step {
            Step::Load { key, ts, value } if key == at && ts == when => Some(Some(value)),
            Step::Resolve {
                attempt,
                key,
                fate: Fate::Committed(ts),
            } if key == at && ts == when => standing(self.steps, place, at)
                .filter(|put| put.0 == attempt)
                .map(|put| put.2),
            _ => None,
        }
    }

    /// The value of the version of a key and timestamp, the last that was made.
    fn version(&self, key: u8, ts: Ts) -> Option<Option<u8>> {
        let mut last = None;
        for (place, step) in self.steps.iter().enumerate() {
            if let Some(value) = self.made(place, step, key, ts) {
                last = Some(value);
            }
        }
        last
    }

    /// Another's intent that a read at a timestamp looks at.
    fn others(&self, key: u8, at: Ts, limit: Option<u64>) -> Option<Standing> {
        let (attempt, ts, value) = self.intent(key)?;
        let near = match limit {
            Some(wall) => ts.wall <= wall,
            None => false,
        };
        if attempt != self.attempt && (ts <= at || near) {
            Some((attempt, ts, value))
        } else {
            None
        }
    }

    /// The attempt of an intent that is in the way.
    fn unknown(&self, key: u8, at: Ts, limit: Option<u64>) -> Option<u32> {
        let (attempt, _, _) = self.others(key, at, limit)?;
        match self.fate(attempt) {
            Some(Fate::Committed(_)) | Some(Fate::Aborted) => None,
            Some(Fate::Pushed(ts)) if ts >= at => None,
            _ => Some(attempt),
        }
    }

    /// What is seen as a version of a key and timestamp.
    fn seen(&self, key: u8, when: Ts, at: Ts, limit: Option<u64>) -> Option<Option<u8>> {
        if let Some(value) = self.version(key, when) {
            return Some(value);
        }
        let (attempt, _, value) = self.others(key, at, limit)?;
        match self.fate(attempt) {
            Some(Fate::Committed(ts)) if ts == when => Some(value),
            _ => None,
        }
    }
}

fn unknown_text(alloc: Global, key: u8, attempt: u32) -> Result<String, Memory> {
    let key = char::from(key);
    let start = start_of(attempt);
    let anchor = anchor_of(attempt);
    Ok(format!(in alloc; "unknown {key} a{attempt} {start} {anchor}")?)
}

fn ts_text(alloc: Global, ts: Option<Ts>) -> Result<String, Memory> {
    match ts {
        None => Ok(format!(in alloc; "none")?),
        Some(ts) => Ok(format!(in alloc; "{ts}")?),
    }
}

/// The least timestamp above one, up to a wall, at which something is seen of a key.
fn uncertain(plain: &Plain, times: &[Ts], key: u8, at: Ts, limit: Option<u64>) -> Option<Ts> {
    let wall = limit?;
    for ts in times {
        if *ts > at && ts.wall <= wall && plain.seen(key, *ts, at, limit).is_some() {
            return Some(*ts);
        }
    }
    None
}

/// The value of the greatest timestamp below one at which something is seen of a key.
fn newest(plain: &Plain, times: &[Ts], key: u8, at: Ts, limit: Option<u64>) -> Option<u8> {
    let mut last = None;
    for ts in times {
        if *ts < at {
            if let Some(value) = plain.seen(key, *ts, at, limit) {
                last = value;
            }
        }
    }
    last
}

fn read(
    alloc: Global,
    plain: &Plain,
    times: &[Ts],
    asked: &Asked,
    at: Ts,
    limit: Option<u64>,
) -> Result<String, Memory> {
    let mut text = String::new(alloc);
    text.push_str("rows")?;
    for key in asked.lo..asked.hi {
        if let Some(attempt) = plain.unknown(key, at, limit) {
            return unknown_text(alloc, key, attempt);
        }
        let letter = char::from(key);
        if let Some(ts) = uncertain(plain, times, key, at, limit) {
            return Ok(format!(in alloc; "uncertain {letter} {ts}")?);
        }
        if let Some(value) = newest(plain, times, key, at, limit) {
            text.push(' ')?;
            text.push(letter)?;
            text.push('=')?;
            text.push(char::from(value))?;
        }
    }
    Ok(text)
}

fn refresh(
    alloc: Global,
    plain: &Plain,
    times: &[Ts],
    asked: &Asked,
    from: Ts,
    to: Ts,
) -> Result<String, Memory> {
    for key in asked.lo..asked.hi {
        if let Some(attempt) = plain.unknown(key, to, None) {
            return unknown_text(alloc, key, attempt);
        }
    }
    for ts in times {
        let between = from < *ts && *ts < to;
        if between && (asked.lo..asked.hi).any(|key| plain.seen(key, *ts, to, None).is_some()) {
            return Ok(format!(in alloc; "newer {ts}")?);
        }
    }
    Ok(format!(in alloc; "done")?)
}

fn lowest(plain: &Plain, asked: &Asked) -> Option<Ts> {
    let mut least: Option<Ts> = None;
    for key in asked.lo..asked.hi {
        if let Some((attempt, ts, _)) = plain.intent(key) {
            if attempt != asked.attempt && least.is_none_or(|l| ts < l) {
                least = Some(ts);
            }
        }
    }
    least
}

fn newest_ts(plain: &Plain, times: &[Ts], key: u8) -> Option<Ts> {
    let mut last = None;
    for ts in times {
        if plain.version(key, *ts).is_some() {
            last = Some(*ts);
        }
    }
    last
}

/// What the definitions answer, as a text.
pub fn answer(alloc: Global, plain: &Plain, times: &[Ts], asked: &Asked) -> Result<String, Memory> {
    match asked.question {
        Question::Read { at, limit } => read(alloc, plain, times, asked, at, limit),
        Question::Refresh { from, to } => refresh(alloc, plain, times, asked, from, to),
        Question::Lowest => ts_text(alloc, lowest(plain, asked)),
        Question::Newest => ts_text(alloc, newest_ts(plain, times, asked.lo)),
    }
}
