//! Answers as texts.

use mr_base::{AttemptId, Bytes, Memory, RangeId, Ts};
use mvcc_range::{ReadAnswer, RefreshAnswer};
use std::alloc::Global;

fn push_bytes(text: &mut String, bytes: &Bytes) -> Result<(), Memory> {
    for byte in bytes.as_slice() {
        text.push(char::from(*byte))?;
    }
    Ok(())
}

fn bytes_text(alloc: Global, bytes: &Bytes) -> Result<String, Memory> {
    let mut text = String::new(alloc);
    push_bytes(&mut text, bytes)?;
    Ok(text)
}

fn unknown_text(
    alloc: Global,
    key: &Bytes,
    attempt: AttemptId,
    start: Ts,
    anchor: RangeId,
) -> Result<String, Memory> {
    let key = bytes_text(alloc, key)?;
    Ok(format!(in alloc; "unknown {key} {attempt} {start} {anchor}")?)
}

pub fn read_text(alloc: Global, answer: &ReadAnswer) -> Result<String, Memory> {
    match answer {
        ReadAnswer::Rows(rows) => {
            let mut text = String::new(alloc);
            text.push_str("rows")?;
            for row in rows.as_slice() {
                text.push(' ')?;
                push_bytes(&mut text, &row.key)?;
                text.push('=')?;
                push_bytes(&mut text, &row.value)?;
            }
            Ok(text)
        }
        ReadAnswer::Uncertain { key, ts } => {
            let key = bytes_text(alloc, key)?;
            Ok(format!(in alloc; "uncertain {key} {ts}")?)
        }
        ReadAnswer::Unknown {
            key,
            attempt,
            start,
            anchor,
        } => unknown_text(alloc, key, *attempt, *start, *anchor),
    }
}

pub fn refresh_text(alloc: Global, answer: &RefreshAnswer) -> Result<String, Memory> {
    match answer {
        RefreshAnswer::Done => Ok(format!(in alloc; "done")?),
        RefreshAnswer::NewerWrite { ts } => Ok(format!(in alloc; "newer {ts}")?),
        RefreshAnswer::Unknown {
            key,
            attempt,
            start,
            anchor,
        } => unknown_text(alloc, key, *attempt, *start, *anchor),
    }
}

pub fn ts_text(alloc: Global, ts: Option<Ts>) -> Result<String, Memory> {
    match ts {
        None => Ok(format!(in alloc; "none")?),
        Some(ts) => Ok(format!(in alloc; "{ts}")?),
    }
}
