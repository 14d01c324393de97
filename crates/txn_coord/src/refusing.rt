//! How a transaction ends refused, and how it is tried again.

ghost use Rattle.std.specs.Prelude.{◌≡◌, ◌+◌, ◌<◌, ◌^◌, IfOk, OnOk};
ghost use Rattle.txn_coord.specs.Refusing.{exhausted_at, goes_to, refused, refused_decided, retried, retried_above, retry_due, retry_read, sent_out, timed_out_at};

use crate::moves::Refusal;
use crate::progress::{Course, Progress};
use mr_base::{AttemptId, ListOf, Memory, MsgId, RangeId, Ts};
use range_log::RetryCause;
use std::alloc::Global;

/// How many times a transaction is tried again at most. Source: this project's profile.
pub const RETRY_LIMIT: u32 = 64;

/// Nothing is outstanding any more, and the transaction is at this.
pub fn go_to(t: &mut Progress, course: Course)
    ensures { t.new ≡ goes_to course t.old }
{
    t.asked = None;
    t.course = course;
}

/// The transaction ends refused. Where a put of the attempt was laid, or was sent as a message, one abort
/// goes to the anchor.
pub fn refuse(t: &mut Progress, why: Refusal)
    ensures { t.new ≡ refused why t.old }
{
    let abort = if t.put_out { t.anchor } else { None };
    go_to(t, Course::Refused { why, abort });
}

/// The transaction ends refused, and its attempt is decided or may be.
pub fn refuse_decided(t: &mut Progress, why: Refusal)
    ensures { t.new ≡ refused_decided why t.old }
{
    go_to(t, Course::Refused { why, abort: None });
}

/// The transaction is to be tried again, unless it was 64 times. Where a put was laid, the abort of that
/// attempt is awaited first.
pub fn retry_for(t: &mut Progress, cause: RetryCause)
    ensures { t.new ≡ retry_due cause t.old }
{
    if t.retries >= RETRY_LIMIT {
        refuse(t, Refusal::Retries);
        return;
    }
    if t.laid.is_empty() {
        go_to(t, Course::Retrying { cause });
        return;
    }
    go_to(t, Course::Aborting { cause });
}

/// The timestamp above which a transaction is tried again.
fn retried_above(t: &Progress, cause: &RetryCause) -> Ts
    ensures { result ≡ retried_above cause.now t.now }
{
    match cause {
        RetryCause::Uncertain { ts, .. } => *ts,
        RetryCause::NewerWrite { .. } => t.at,
        RetryCause::Pushed { ts } => *ts,
    }
}

/// The timestamp at which a fresh attempt reads; a sum that passes its type is want of memory.
fn retry_read(t: &Progress, cause: &RetryCause, fresh: AttemptId) -> Result<Ts, Memory>
    ensures { IfOk result (λ ts. ts ≡ retry_read cause.now t.now fresh) }
{
    let above = retried_above(t, cause).later(t.read);
    if above.logical == u64::MAX {
        return Err(Memory);
    }
    Ok(above.above(fresh.0))
}

/// A new attempt begins, which knows what the old one learned.
pub fn begin_attempt(
    alloc: Global,
    t: &mut Progress,
    cause: &RetryCause,
    fresh: AttemptId,
) -> Result<(), Memory>
    requires { t.old.retries < 64 }
    ensures { OnOk result (t.new ≡ retried cause.now t.old fresh) }
{
    let read = retry_read(t, cause, fresh)?;
    t.attempt = fresh;
    t.read = read;
    t.at = read;
    t.retries += 1;
    t.served = ListOf::new(alloc);
    t.again = 0;
    t.anchor = None;
    t.laid = ListOf::new(alloc);
    t.resolved = 0;
    t.put_out = false;
    go_to(t, Course::Reading);
    Ok(())
}

/// The request that is outstanding went out as a message.
pub fn went_out(t: &mut Progress)
    ensures { t.new ≡ sent_out t.old }
{
    if let Course::Laying = t.course {
        t.put_out = true;
    }
}

/// All replicas of the range were asked in vain.
pub fn exhaust(t: &mut Progress, range: RangeId)
    ensures { t.new ≡ exhausted_at range t.old }
{
    refuse(t, Refusal::NoLease { range });
}

/// No reply came in time.
pub fn time_out(t: &mut Progress, request: MsgId)
    ensures { t.new ≡ timed_out_at request t.old }
{
    if let Course::Committing = t.course {
        refuse_decided(t, Refusal::Ambiguous { request });
        return;
    }
    went_out(t);
    refuse(t, Refusal::Timeout { request });
}
