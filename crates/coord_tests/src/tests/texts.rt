//! Moves as one line of text each: a request as a trace shows it.

use mr_base::{Bytes, Fate, Known, ListOf, Memory, RangeId, Request, Span};
use range_log::RetryCause;
use std::alloc::Global;
use txn_coord::{Move, Refusal};

fn bytes_text(alloc: Global, bytes: &Bytes) -> Result<String, Memory> {
    let mut text = String::new(alloc);
    for byte in bytes.as_slice() {
        text.push(char::from(*byte))?;
    }
    Ok(text)
}

fn span_text(alloc: Global, span: &Span) -> Result<String, Memory> {
    let lo = bytes_text(alloc, &span.lo)?;
    let hi = bytes_text(alloc, &span.hi)?;
    Ok(format!(in alloc; "[{lo},{hi})")?)
}

fn fate_text(alloc: Global, fate: Fate) -> Result<String, Memory> {
    match fate {
        Fate::Committed(ts) => Ok(format!(in alloc; "committed:{ts}")?),
        Fate::Aborted => Ok(format!(in alloc; "aborted")?),
        Fate::Pushed(ts) => Ok(format!(in alloc; "pushed:{ts}")?),
    }
}

fn fates_text(alloc: Global, fates: &ListOf<Known>) -> Result<String, Memory> {
    let mut text = String::new(alloc);
    for known in fates.as_slice() {
        let attempt = known.attempt;
        let fate = fate_text(alloc, known.fate)?;
        let word = format!(in alloc; " {attempt}:{fate}")?;
        text.push_str(word.as_str())?;
    }
    if fates.is_empty() {
        text.push_str(" -")?;
    }
    Ok(text)
}

fn limit_text(alloc: Global, limit: Option<u64>) -> Result<String, Memory> {
    match limit {
        None => Ok(format!(in alloc; "-")?),
        Some(wall) => Ok(format!(in alloc; "{wall}")?),
    }
}

fn value_text(alloc: Global, value: &Option<Bytes>) -> Result<String, Memory> {
    match value {
        None => Ok(format!(in alloc; "-")?),
        Some(bytes) => bytes_text(alloc, bytes),
    }
}

fn keys_text(alloc: Global, keys: &ListOf<Bytes>) -> Result<String, Memory> {
    let mut text = String::new(alloc);
    for key in keys.as_slice() {
        let key = bytes_text(alloc, key)?;
        let word = format!(in alloc; " {key}")?;
        text.push_str(word.as_str())?;
    }
    Ok(text)
}

/// The request with all its fields.
fn request_text(alloc: Global, request: &Request) -> Result<String, Memory> {
    match request {
        Request::Read {
            attempt,
            range,
            span,
            at,
            limit,
            fates,
        } => {
            let span = span_text(alloc, span)?;
            let limit = limit_text(alloc, *limit)?;
            let fates = fates_text(alloc, fates)?;
            Ok(format!(in alloc;
                "read {attempt} {range} {span} at {at} limit {limit} fates{fates}"
            )?)
        }
        Request::Refresh {
            attempt,
            range,
            span,
            from,
            at,
            fates,
        } => {
            let span = span_text(alloc, span)?;
            let fates = fates_text(alloc, fates)?;
            Ok(format!(in alloc;
                "refresh {attempt} {range} {span} from {from} at {at} fates{fates}"
            )?)
        }
        Request::Put {
            attempt,
            range,
            start,
            anchor,
            at,
            key,
            value,
            fates,
        } => {
            let key = bytes_text(alloc, key)?;
            let value = value_text(alloc, value)?;
            let fates = fates_text(alloc, fates)?;
            let head = format!(in alloc;
                "put {attempt} {range} start {start} anchor {anchor} at {at}"
            )?;
            Ok(format!(in alloc; "{head} key {key} value {value} fates{fates}")?)
        }
        _ => decisions_text(alloc, request),
    }
}

fn decisions_text(alloc: Global, request: &Request) -> Result<String, Memory> {
    match request {
        Request::PushReader {
            attempt,
            range,
            other,
            at,
        } => Ok(format!(in alloc; "push {attempt} {range} other {other} reader {at}")?),
        Request::PushWriter {
            attempt,
            range,
            other,
            start,
            other_start,
        } => {
            Ok(format!(in alloc;
                "push {attempt} {range} other {other} writer {start} start {other_start}"
            )?)
        }
        Request::Commit { attempt, range, at } => {
            Ok(format!(in alloc; "end {attempt} {range} commit {at}")?)
        }
        Request::Abort { attempt, range } => Ok(format!(in alloc; "end {attempt} {range} abort")?),
        Request::Resolve {
            attempt,
            range,
            keys,
            fate,
        } => {
            let keys = keys_text(alloc, keys)?;
            let fate = fate_text(alloc, *fate)?;
            Ok(format!(in alloc; "resolve {attempt} {range} keys{keys} {fate}")?)
        }
        _ => Ok(String::new(alloc)),
    }
}

fn cause_text(alloc: Global, cause: &RetryCause) -> Result<String, Memory> {
    match cause {
        RetryCause::Uncertain { key, ts } => {
            let key = bytes_text(alloc, key)?;
            Ok(format!(in alloc; "uncertain {key} {ts}")?)
        }
        RetryCause::NewerWrite { ts } => Ok(format!(in alloc; "newer {ts}")?),
        RetryCause::Pushed { ts } => Ok(format!(in alloc; "pushed {ts}")?),
    }
}

fn refusal_text(alloc: Global, why: &Refusal) -> Result<String, Memory> {
    match why {
        Refusal::Conflict { key, other } => {
            let key = bytes_text(alloc, key)?;
            Ok(format!(in alloc; "conflict {key} {other}")?)
        }
        Refusal::Aborted { by } => Ok(format!(in alloc; "aborted {by}")?),
        Refusal::Retries => Ok(format!(in alloc; "retries")?),
        Refusal::NoLease { range } => Ok(format!(in alloc; "nolease {range}")?),
        Refusal::NoQuorum { range, down } => {
            let down = down.0;
            Ok(format!(in alloc; "noquorum {range} {down}")?)
        }
        Refusal::Ambiguous { request } => Ok(format!(in alloc; "40003 {request}")?),
        Refusal::Timeout { request } => Ok(format!(in alloc; "timeout {request}")?),
        Refusal::Schema { ts } => Ok(format!(in alloc; "schema {ts}")?),
        Refusal::Stale { range } => Ok(format!(in alloc; "stale {range}")?),
    }
}

fn to_range(
    alloc: Global,
    verb: &str,
    range: RangeId,
    request: &Request,
) -> Result<String, Memory> {
    let request = request_text(alloc, request)?;
    Ok(format!(in alloc; "{verb} {range}: {request}")?)
}

/// What the transaction does next, as a line.
pub fn move_text(alloc: Global, next: &Move) -> Result<String, Memory> {
    match next {
        Move::Ask { range, request } => to_range(alloc, "ask", *range, request),
        Move::Send { range, request } => to_range(alloc, "send", *range, request),
        Move::Retried { attempt, cause } => {
            let cause = cause_text(alloc, cause)?;
            Ok(format!(in alloc; "retried {attempt} {cause}")?)
        }
        Move::Wait { until } => Ok(format!(in alloc; "wait {until}")?),
        Move::Ack { ts } => Ok(format!(in alloc; "ack {ts}")?),
        Move::Fault { ts, state } => Ok(format!(in alloc; "fault {ts} {state}")?),
        Move::Refuse(why) => {
            let why = refusal_text(alloc, why)?;
            Ok(format!(in alloc; "refuse {why}")?)
        }
    }
}
