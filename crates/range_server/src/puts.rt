//! Where intents are laid.

ghost use Rattle.std.specs.Prelude.{◌≡◌, ℕ, List, Option, IfOk, OnOk, Some, true};
ghost use Rattle.mr_base.specs.declared.messages.Known.{Known};
ghost use Rattle.mr_base.specs.declared.timestamps.Ts.{Ts};
ghost use Rattle.mvcc_range.specs.Follows.{Follows};
ghost use Rattle.mvcc_range.specs.declared.key_state.Intent.{Intent};
ghost use Rattle.range_log.specs.Appends.{has_majority};
ghost use Rattle.range_log.specs.Facts.{lease_of};
ghost use Rattle.range_log.specs.declared.entries.Entry.{Entry};
ghost use Rattle.range_rules.specs.Holding.{Names};
ghost use Rattle.range_server.specs.Puts.{IsPuts, PutGives, ahead_of, put_asked, read_at};
ghost use Rattle.range_server.specs.Scene.{IsBeside, applied_by, scene};
ghost use Rattle.range_server.specs.Steps.{IsAppended, IsStep};
ghost use Rattle.range_server.specs.Ways.{IsFloor, IsMoved, IsWay, last_fate, with_newest};
ghost use Rattle.ts_cache.specs.Meeting.{point_of};

use crate::leases::ahead_of;
use crate::standing::{Moment, Standing, not_holder, refusal};
use mr_base::{AttemptId, Bytes, CloneIn, Fate, Known, Memory, Reply, Span, Ts};
use mvcc_range::{Intent, Replica};
use range_log::{Entry, Lease, RangeLog};
use std::alloc::Global;

/// What stands at the key of a put.
#[derive(Clone, Copy)]
pub enum Way {
    /// No intent of another attempt.
    Clear,
    /// Another's intent, which this fate decides.
    Settled { other: AttemptId, fate: Fate },
    /// Another's intent of which no deciding fate is known.
    Blocked(Intent),
}

impl Standing {
    /// Lays an intent at a key where it is asked or above what stands in its way, after the resolve of another's
    /// where a fate decides that; or gives the reply that says why not.
    pub fn put(
        &mut self,
        alloc: Global,
        lease: &Lease,
        asked: Intent,
        key: &Bytes,
        value: &Option<Bytes>,
        known: &[Known],
        now: Moment,
        log: &mut RangeLog,
    ) -> Result<Reply, Memory>
        requires has { lease_of (applied_by self.old log.old.entries) ≡ Some lease.now }
        requires beside { IsBeside self.old log.old.entries }
        ensures { IfOk result (λ reply. IsStep
            (PutGives (scene self.old log.old now) (put_asked asked key.now value.now known.now) reply)
            (IsPuts (scene self.old log.old now) (put_asked asked key.now value.now known.now))
            log.old log.new self.old self.new) }
    {
        if !self.is_named_by(lease) {
            return Ok(not_holder(lease));
        }
        match way_of(&self.replica, asked.attempt, key, known) {
            Way::Blocked(intent) => blocked(alloc, key, intent),
            Way::Clear => self.lay(alloc, lease, asked, key, value, now, log),
            Way::Settled { other, fate } => {
                self.lay_over(alloc, lease, other, fate, asked, key, value, now, log)
            }
        }
    }

    /// Lays the intent where no other attempt's stands.
    fn lay(
        &mut self,
        alloc: Global,
        lease: &Lease,
        asked: Intent,
        key: &Bytes,
        value: &Option<Bytes>,
        now: Moment,
        log: &mut RangeLog,
    ) -> Result<Reply, Memory>
        requires has { lease_of (applied_by self.old log.old.entries) ≡ Some lease.now }
        requires beside { IsBeside self.old log.old.entries }
        requires names { Names lease.now self.old.node self.old.boot }
        ensures { IfOk result (λ reply. (known : List Known)
            → IsWay (applied_by self.old log.old.entries) (put_asked asked key.now value.now known) Way.Clear
            → IsStep (PutGives (scene self.old log.old now) (put_asked asked key.now value.now known) reply)
            (IsPuts (scene self.old log.old now) (put_asked asked key.now value.now known))
            log.old log.new self.old self.new) }
    {
        if let Some(refusal) = refusal(lease, now.running, log) {
            return Ok(refusal);
        }
        let ts = self.append_put(alloc, lease, asked, key, value, now, log)?;
        Ok(Reply::Laid { ts })
    }

    /// Lays the intent after another attempt's was resolved.
    fn lay_over(
        &mut self,
        alloc: Global,
        lease: &Lease,
        other: AttemptId,
        fate: Fate,
        asked: Intent,
        key: &Bytes,
        value: &Option<Bytes>,
        now: Moment,
        log: &mut RangeLog,
    ) -> Result<Reply, Memory>
        requires has { lease_of (applied_by self.old log.old.entries) ≡ Some lease.now }
        requires beside { IsBeside self.old log.old.entries }
        requires names { Names lease.now self.old.node self.old.boot }
        ensures { IfOk result (λ reply. (known : List Known)
            → IsWay (applied_by self.old log.old.entries) (put_asked asked key.now value.now known) (Way.Settled other fate)
            → IsStep (PutGives (scene self.old log.old now) (put_asked asked key.now value.now known) reply)
            (IsPuts (scene self.old log.old now) (put_asked asked key.now value.now known))
            log.old log.new self.old self.new) }
    {
        if let Some(refusal) = refusal(lease, now.running, log) {
            return Ok(refusal);
        }
        self.append_resolve(alloc, lease, other, key, fate, now, log)?;
        let ts = self.append_put(alloc, lease, asked, key, value, now, log)?;
        Ok(Reply::Laid { ts })
    }

    /// Appends the resolve of an attempt's intent.
    pub fn append_resolve(
        &mut self,
        alloc: Global,
        lease: &Lease,
        attempt: AttemptId,
        key: &Bytes,
        fate: Fate,
        now: Moment,
        log: &mut RangeLog,
    ) -> Result<(), Memory>
        requires last { lease_of log.old.entries ≡ Some lease.now }
        requires majority { has_majority log.old.voters now.running ≡ true }
        requires follows { Follows self.old.replica log.old.entries }
        ensures { OnOk result (IsAppended (Entry.Resolve attempt key.now fate) log.old log.new self.old self.new) }
    {
        let key = key.clone_in(alloc)?;
        let resolve = Entry::Resolve { attempt, key, fate };
        self.append(resolve, lease, now.running, log)
    }

    /// Appends the put where no other attempt's intent stands, and gives its timestamp.
    fn append_put(
        &mut self,
        alloc: Global,
        lease: &Lease,
        asked: Intent,
        key: &Bytes,
        value: &Option<Bytes>,
        now: Moment,
        log: &mut RangeLog,
    ) -> Result<Ts, Memory>
        requires last { lease_of log.old.entries ≡ Some lease.now }
        requires majority { has_majority log.old.voters now.running ≡ true }
        requires follows { Follows self.old.replica log.old.entries }
        ensures appended { IfOk result (λ ts. IsAppended (Entry.Put asked.attempt asked.start asked.anchor ts key.now value.now)
            log.old log.new self.old self.new) }
        ensures moved { IfOk result (λ ts. (f : Ts)
            × IsFloor (read_at self.old.cache key.now) self.old.is_global (ahead_of now) key.now log.old.entries f
            × IsMoved asked.ts f asked.attempt ts) }
    {
        let floor = self.floor(alloc, key, now)?;
        let ts = place(asked.ts, floor, asked.attempt)?;
        let put = Entry::Put {
            attempt: asked.attempt,
            start: asked.start,
            anchor: asked.anchor,
            ts,
            key: key.clone_in(alloc)?,
            value: value.clone_in(alloc)?,
        };
        self.append(put, lease, now.running, log)?;
        Ok(ts)
    }

    /// The greatest timestamp that stands in the way of a put at a key.
    fn floor(&self, alloc: Global, key: &Bytes, now: Moment) -> Result<Ts, Memory>
        ensures { IfOk result (λ f. (entries : List Entry) → Follows self.now.replica entries
            → IsFloor (read_at self.now.cache key.now) self.now.is_global (ahead_of now) key.now entries f) }
    {
        let point = point_of(alloc, key)?;
        let read = self.cache.high(&point).later(self.replica.closed());
        let floor = later_of(read, self.replica.newest(key));
        if !self.is_global {
            return Ok(floor);
        }
        let wall = ahead_of(now.clock.wall, now.settings.lead)?;
        Ok(floor.later(Ts { wall, ..Ts::ZERO }))
    }
}

/// What stands at the key of a put by an attempt that knows these fates.
fn way_of(replica: &Replica, attempt: AttemptId, key: &Bytes, known: &[Known]) -> Way
    ensures { (entries : List Entry) → Follows replica.now entries → (asked : Intent) (value : Option (List ℕ))
        → asked.attempt ≡ attempt → IsWay entries (put_asked asked key.now value known.now) result }
{
    let Some(intent) = replica.intent(key) else {
        return Way::Clear;
    };
    if intent.attempt == attempt {
        return Way::Clear;
    }
    match fate_of(known, intent.attempt) {
        Some(Fate::Committed(ts)) => Way::Settled {
            other: intent.attempt,
            fate: Fate::Committed(ts),
        },
        Some(Fate::Aborted) => Way::Settled {
            other: intent.attempt,
            fate: Fate::Aborted,
        },
        Some(Fate::Pushed(_)) => Way::Blocked(intent),
        None => Way::Blocked(intent),
    }
}

/// The fate of an attempt that a list tells: of several the last.
fn fate_of(known: &[Known], attempt: AttemptId) -> Option<Fate>
    ensures { result ≡ last_fate attempt known.now }
{
    known.iter().fold(None, |found, k| {
        if k.attempt == attempt {
            Some(k.fate)
        } else {
            found
        }
    })
}

/// The reply that names the intent in the way.
fn blocked(alloc: Global, key: &Bytes, intent: Intent) -> Result<Reply, Memory>
    ensures { IfOk result (λ reply. reply ≡ Reply.Intent key.now intent.attempt intent.start intent.anchor) }
{
    let key = key.clone_in(alloc)?;
    Ok(Reply::Intent {
        key,
        attempt: intent.attempt,
        start: intent.start,
        anchor: intent.anchor,
    })
}

/// The timestamp of a put that is asked at one timestamp, where the other is the greatest in its way.
fn place(asked: Ts, floor: Ts, attempt: AttemptId) -> Result<Ts, Memory>
    ensures { IfOk result (λ ts. IsMoved asked floor attempt ts) }
{
    if !asked.is_below(floor) {
        return Ok(asked);
    }
    if floor.logical == u64::MAX {
        return Err(Memory);
    }
    Ok(floor.above(attempt.0))
}

/// The greater of a timestamp and another, where there is one.
fn later_of(floor: Ts, newest: Option<Ts>) -> Ts
    ensures { result ≡ with_newest floor newest }
{
    match newest {
        Some(ts) => floor.later(ts),
        None => floor,
    }
}

/// The span of one key.
fn point_of(alloc: Global, key: &Bytes) -> Result<Span, Memory>
    ensures { IfOk result (λ span. span ≡ point_of key.now) }
{
    let mut end = key.clone_in(alloc)?.into_vec();
    end.push(0)?;
    Ok(Span {
        lo: key.clone_in(alloc)?,
        hi: Bytes::from_vec(end),
    })
}
