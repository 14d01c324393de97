//! How records change: pushes, commits and aborts.

ghost use Rattle.std.specs.Prelude.{◌≡◌, IfOk, Some};
ghost use Rattle.range_log.specs.Facts.{lease_of};
ghost use Rattle.range_rules.specs.Records.{IsCommitted, IsGivenUp, IsPushed};
ghost use Rattle.range_server.specs.Records.{Changes, IsMet, Settles, SettlesBy, committed_at, given_up, may_abort_at, met_by_writer, pushed_by_reader, pushed_by_writer, told, written};
ghost use Rattle.range_server.specs.Scene.{IsBeside, applied_by, scene};
ghost use Rattle.range_server.specs.Steps.{IsStep, IsWriting};

use crate::standing::{Moment, Standing, not_holder, refusal};
use mr_base::{AttemptId, Fate, Memory, Reply, Ts};
use range_log::{Entry, Lease, RangeLog, TxnState};

/// What becomes of an attempt, given its record: the state that is written, if any, and the reply.
#[derive(Drop)]
pub struct Outcome {
    pub state: Option<TxnState>,
    pub reply: Reply,
}

impl Standing {
    /// A reader at a timestamp pushes another attempt.
    pub fn push_reader(
        &mut self,
        lease: &Lease,
        other: AttemptId,
        at: Ts,
        now: Moment,
        log: &mut RangeLog,
    ) -> Result<Reply, Memory>
        requires has { lease_of (applied_by self.old log.old.entries) ≡ Some lease.now }
        requires beside { IsBeside self.old log.old.entries }
        ensures { IfOk result (λ reply. IsStep
            (SettlesBy (scene self.old log.old now) other (pushed_by_reader other at) reply)
            (Changes other (λ was state. IsPushed was at state)) log.old log.new self.old self.new) }
    {
        let outcome = push_by_reader(other, at, self.replica.state_of(other));
        self.settle(lease, other, outcome, now, log)
    }

    /// A writer pushes another attempt, which may be aborted by what the clock shows.
    pub fn push_writer(
        &mut self,
        lease: &Lease,
        attempt: AttemptId,
        other: AttemptId,
        start: Ts,
        other_start: Ts,
        now: Moment,
        log: &mut RangeLog,
    ) -> Result<Reply, Memory>
        requires has { lease_of (applied_by self.old log.old.entries) ≡ Some lease.now }
        requires beside { IsBeside self.old log.old.entries }
        ensures { IfOk result (λ reply. IsStep
            (SettlesBy (scene self.old log.old now) other
            (pushed_by_writer attempt other (may_abort_at now start other_start)) reply)
            (Changes other (IsMet now attempt start other_start)) log.old log.new self.old self.new) }
    {
        let may_abort = may_abort(start, other_start, now)?;
        let outcome = push_by_writer(attempt, other, may_abort, self.replica.state_of(other));
        self.settle(lease, other, outcome, now, log)
    }

    /// The attempt commits at a timestamp.
    pub fn commit(
        &mut self,
        lease: &Lease,
        attempt: AttemptId,
        at: Ts,
        now: Moment,
        log: &mut RangeLog,
    ) -> Result<Reply, Memory>
        requires has { lease_of (applied_by self.old log.old.entries) ≡ Some lease.now }
        requires beside { IsBeside self.old log.old.entries }
        ensures { IfOk result (λ reply. IsStep
            (SettlesBy (scene self.old log.old now) attempt (committed_at at) reply)
            (Changes attempt (λ was state. IsCommitted was at state)) log.old log.new self.old self.new) }
    {
        let outcome = commit(at, self.replica.state_of(attempt));
        self.settle(lease, attempt, outcome, now, log)
    }

    /// The attempt aborts itself.
    pub fn abort(
        &mut self,
        lease: &Lease,
        attempt: AttemptId,
        now: Moment,
        log: &mut RangeLog,
    ) -> Result<Reply, Memory>
        requires has { lease_of (applied_by self.old log.old.entries) ≡ Some lease.now }
        requires beside { IsBeside self.old log.old.entries }
        ensures { IfOk result (λ reply. IsStep
            (SettlesBy (scene self.old log.old now) attempt (given_up attempt) reply)
            (Changes attempt (λ was state. IsGivenUp attempt was state)) log.old log.new self.old self.new) }
    {
        let outcome = abort(attempt, self.replica.state_of(attempt));
        self.settle(lease, attempt, outcome, now, log)
    }

    /// Writes the state of an outcome, if any, as the record of an attempt, and gives the outcome's reply; or
    /// gives the reply that says why it can't.
    fn settle(
        &mut self,
        lease: &Lease,
        attempt: AttemptId,
        outcome: Outcome,
        now: Moment,
        log: &mut RangeLog,
    ) -> Result<Reply, Memory>
        requires has { lease_of (applied_by self.old log.old.entries) ≡ Some lease.now }
        requires beside { IsBeside self.old log.old.entries }
        ensures { IfOk result (λ reply. IsStep
            (Settles (scene self.old log.old now) attempt outcome reply)
            (IsWriting (scene self.old log.old now) attempt outcome) log.old log.new self.old self.new) }
    {
        if !self.is_named_by(lease) {
            return Ok(not_holder(lease));
        }
        let Outcome { state, reply } = outcome;
        let Some(state) = state else {
            return Ok(reply);
        };
        if let Some(refusal) = refusal(lease, now.running, log) {
            return Ok(refusal);
        }
        self.append(Entry::State { attempt, state }, lease, now.running, log)?;
        Ok(reply)
    }
}

/// A reader at a timestamp pushes another attempt, whose record was this.
pub fn push_by_reader(other: AttemptId, at: Ts, was: Option<TxnState>) -> Outcome
    ensures { result ≡ pushed_by_reader other at was }
{
    match was {
        Some(TxnState::Committed(ts)) => told(fate(other, Fate::Committed(ts))),
        Some(TxnState::Aborted(_)) => told(fate(other, Fate::Aborted)),
        Some(TxnState::Pending(ts)) => pushed(other, at.later(ts)),
        None => pushed(other, at.later(Ts::ZERO)),
    }
}

/// A writer pushes another attempt, whose record was this. It may abort it, or not.
pub fn push_by_writer(
    attempt: AttemptId,
    other: AttemptId,
    may_abort: bool,
    was: Option<TxnState>,
) -> Outcome
    ensures { result ≡ pushed_by_writer attempt other may_abort was }
{
    match was {
        Some(TxnState::Committed(ts)) => told(fate(other, Fate::Committed(ts))),
        Some(TxnState::Aborted(_)) => told(fate(other, Fate::Aborted)),
        Some(TxnState::Pending(ts)) => met(attempt, other, may_abort, ts),
        None => met(attempt, other, may_abort, Ts::ZERO),
    }
}

/// The attempt commits at a timestamp; its record was this.
pub fn commit(at: Ts, was: Option<TxnState>) -> Outcome
    ensures { result ≡ committed_at at was }
{
    match was {
        Some(TxnState::Committed(_)) => told(Reply::Ended),
        Some(TxnState::Aborted(by)) => told(Reply::Aborted { by }),
        Some(TxnState::Pending(ts)) => {
            if ts < at {
                written(TxnState::Committed(at), Reply::Ended)
            } else {
                told(Reply::Pushed { ts })
            }
        }
        None => written(TxnState::Committed(at), Reply::Ended),
    }
}

/// The attempt aborts itself; its record was this.
pub fn abort(attempt: AttemptId, was: Option<TxnState>) -> Outcome
    ensures { result ≡ given_up attempt was }
{
    match was {
        Some(TxnState::Committed(_)) => told(Reply::Ended),
        Some(TxnState::Aborted(_)) => told(Reply::Ended),
        Some(TxnState::Pending(_)) => written(TxnState::Aborted(attempt), Reply::Ended),
        None => written(TxnState::Aborted(attempt), Reply::Ended),
    }
}

/// Whether a writer may abort the other attempt: that began later, or is expired.
pub fn may_abort(start: Ts, other_start: Ts, now: Moment) -> Result<bool, Memory>
    ensures { IfOk result (λ may. may ≡ may_abort_at now start other_start) }
{
    if start < other_start {
        return Ok(true);
    }
    let Some(end) = other_start.wall.checked_add(now.settings.expire) else {
        return Err(Memory);
    };
    Ok(end < now.clock.wall)
}

/// A reader's push of an undecided attempt.
fn pushed(other: AttemptId, above: Ts) -> Outcome
    ensures { result ≡ written (TxnState.Pending above) (Reply.Fate other (Fate.Pushed above)) }
{
    written(TxnState::Pending(above), fate(other, Fate::Pushed(above)))
}

/// A writer's push of an undecided attempt.
fn met(attempt: AttemptId, other: AttemptId, may_abort: bool, above: Ts) -> Outcome
    ensures { result ≡ met_by_writer attempt other may_abort above }
{
    if may_abort {
        written(TxnState::Aborted(attempt), fate(other, Fate::Aborted))
    } else {
        written(TxnState::Pending(above), Reply::Live { attempt: other })
    }
}

fn fate(attempt: AttemptId, fate: Fate) -> Reply
    ensures { result ≡ Reply.Fate attempt fate }
{
    Reply::Fate { attempt, fate }
}

fn told(reply: Reply) -> Outcome
    ensures { result ≡ told reply }
{
    Outcome { state: None, reply }
}

fn written(state: TxnState, reply: Reply) -> Outcome
    ensures { result ≡ written state reply }
{
    Outcome {
        state: Some(state),
        reply,
    }
}
