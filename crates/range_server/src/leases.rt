//! How leases are taken, handed on and extended, and how timestamps are closed.

ghost use Rattle.std.specs.Prelude.{◌≡◌, ◌≤◌, ◌<◌, ◌+◌, ◌^◌, ◌∷◌, [], List, IfOk, OnOk, Some, MatchOption, true, false, max, length};
ghost use Rattle.mr_base.specs.Nodes.{IsNode};
ghost use Rattle.mvcc_range.specs.Follows.{Follows};
ghost use Rattle.range_log.specs.Appends.{has_majority, stopped_of};
ghost use Rattle.range_log.specs.Facts.{first_entries, lease_of};
ghost use Rattle.range_log.specs.declared.entries.Entry.{Entry};
ghost use Rattle.range_log.specs.declared.entries.Entry.TheVariants as entry;
ghost use Rattle.range_rules.specs.Added.{added_to};
ghost use Rattle.range_server.specs.Applying.{applied_past, seen_after};
ghost use Rattle.range_server.specs.Closing.{Closes};
ghost use Rattle.range_server.specs.Leases.{Acquires, AppendsLease, Extends, HasAnswered, HasRefused, IsHeldAs, Transfers};
ghost use Rattle.range_server.specs.Scene.{IsBeside, applied_by, scene};
ghost use Rattle.range_server.specs.Seen.{nothing_above};
ghost use Rattle.range_server.specs.declared.standing.Moment.{Moment};

use crate::standing::{Moment, Standing, has_majority, is_same, stopped_of};
use closed_ts::target;
use mr_base::{Memory, NodeId, NodeSet, Ts};
use range_log::{AppendRefusal, Entry, Lease, RangeLog};

/// Why a lease doesn't move, or a timestamp isn't closed.
#[derive(Clone, Copy)]
pub enum LeaseRefusal {
    /// The present lease isn't expired.
    Live { expiration: u64 },
    NotVoter,
    NotHolder,
    /// No majority of the voters runs; these are stopped.
    NoQuorum { down: NodeSet },
    Memory,
}

impl From<Memory> for LeaseRefusal {
    ghost use Rattle.std.specs.Prelude.{◌≡◌};
    ghost use Rattle.range_server.specs.declared.leases.LeaseRefusal.TheVariants as refusals;

    ghost from_gives = { λ _ f. f ≡ refusals.Memory };

    fn from(_m: Memory) -> LeaseRefusal {
        LeaseRefusal::Memory
    }
}

impl Standing {
    /// Takes the log's last lease where that is expired, as a voter.
    pub fn acquire(&mut self, now: Moment, log: &mut RangeLog) -> Result<Lease, LeaseRefusal>
        requires node { IsNode self.old.node }
        requires beside { IsBeside self.old log.old.entries }
        ensures answer { Acquires (scene self.old log.old now) result log.new.entries }
        ensures server { IfOk result (λ lease.
            self.new ≡ record self.old { replica = self.new.replica; cache = nothing_above lease.low }) }
        ensures applied { OnOk result (Follows self.new.replica log.new.entries) }
        ensures refused { HasRefused result → self.new ≡ self.old }
        ensures beside { HasAnswered result → IsBeside self.new log.new.entries }
        ensures voters { HasAnswered result → log.new.voters ≡ log.old.voters }
    {
        if !log.voters().has(self.node) {
            return Err(LeaseRefusal::NotVoter);
        }
        let last = log.lease();
        if now.clock.wall <= last.expiration {
            let expiration = last.expiration;
            return Err(LeaseRefusal::Live { expiration });
        }
        let end = Ts {
            wall: last.expiration,
            ..Ts::ZERO
        };
        let lease = Lease {
            seq: after(last.seq)?,
            holder: self.node,
            boot: self.boot,
            expiration: ahead_of(now.clock.wall, now.settings.lease)?,
            low: end.later(last.low),
        };
        append_lease(lease, last, now.running, log)?;
        self.apply_to(log, log.len())?;
        Ok(lease)
    }

    /// Hands the lease on to a voter at its boot, where the server holds it. Nothing is written below what was
    /// read under it.
    pub fn transfer(
        &mut self,
        to: NodeId,
        boot: u32,
        now: Moment,
        log: &mut RangeLog,
    ) -> Result<Lease, LeaseRefusal>
        requires node { IsNode to }
        requires beside { IsBeside self.old log.old.entries }
        ensures answer { Transfers (scene self.old log.old now) to boot result log.new.entries }
        ensures server { IfOk result (λ lease. self.new ≡ record self.old {
          replica = self.new.replica;
          cache = seen_after self.old.node self.old.boot (entry.Lease lease ∷ []) self.old.cache;
        }) }
        ensures applied { OnOk result (Follows self.new.replica log.new.entries) }
        ensures refused { HasRefused result → self.new ≡ self.old }
        ensures beside { HasAnswered result → IsBeside self.new log.new.entries }
        ensures voters { HasAnswered result → log.new.voters ≡ log.old.voters }
    {
        let last = self.held(log)?;
        if !log.voters().has(to) {
            return Err(LeaseRefusal::NotVoter);
        }
        let lease = Lease {
            seq: after(last.seq)?,
            holder: to,
            boot,
            expiration: ahead_of(now.clock.wall, now.settings.lease)?,
            low: self.cache.top(),
        };
        append_lease(lease, last, now.running, log)?;
        self.apply(&Entry::Lease(lease))?;
        Ok(lease)
    }

    /// Extends the lease, where the server holds it, which keeps what was read under it.
    pub fn extend(&mut self, now: Moment, log: &mut RangeLog) -> Result<Lease, LeaseRefusal>
        requires beside { IsBeside self.old log.old.entries }
        ensures answer { Extends (scene self.old log.old now) result log.new.entries }
        ensures server { OnOk result (self.new ≡ record self.old { replica = self.new.replica }) }
        ensures applied { OnOk result (Follows self.new.replica log.new.entries) }
        ensures refused { HasRefused result → self.new ≡ self.old }
        ensures beside { HasAnswered result → IsBeside self.new log.new.entries }
        ensures voters { HasAnswered result → log.new.voters ≡ log.old.voters }
    {
        let last = self.held(log)?;
        let lease = Lease {
            seq: after(last.seq)?,
            expiration: later_wall(
                ahead_of(now.clock.wall, now.settings.lease)?,
                last.expiration,
            ),
            ..last
        };
        append_lease(lease, last, now.running, log)?;
        self.replica.apply(&Entry::Lease(lease))?;
        Ok(lease)
    }

    /// Closes a timestamp, where the server holds the lease and that isn't closed yet.
    pub fn close(&mut self, now: Moment, log: &mut RangeLog) -> Result<Option<Ts>, LeaseRefusal>
        requires beside { IsBeside self.old log.old.entries }
        ensures answer { Closes (scene self.old log.old now) result log.new.entries }
        ensures server { OnOk result (self.new ≡ record self.old { replica = self.new.replica }) }
        ensures applied { OnOk result (self.new.replica.applied ≡ applied_past
            (added_to log.old.entries log.new.entries) self.old.replica.applied log.new.entries) }
        ensures refused { HasRefused result → self.new ≡ self.old }
        ensures beside { HasAnswered result → IsBeside self.new log.new.entries }
        ensures voters { HasAnswered result → log.new.voters ≡ log.old.voters }
    {
        let last = self.held(log)?;
        if let Some(down) = without_quorum(now.running, log) {
            return Err(LeaseRefusal::NoQuorum { down });
        }
        ahead_of(now.clock.wall, now.settings.lead)?;
        let ts = target(self.is_global, now.clock, &now.settings);
        if !log.closed().is_below(ts) {
            return Ok(None);
        }
        self.append(Entry::Close(ts), &last, now.running, log)?;
        Ok(Some(ts))
    }

    /// Applies the log's entries up to so many. A lease that names the server begins anew what is read under it.
    pub fn apply_to(&mut self, log: &RangeLog, upto: u64) -> Result<(), Memory>
        requires follows { Follows self.old.replica (applied_by self.old log.now.entries) }
        requires from { self.old.replica.applied ≤ upto }
        requires within { upto ≤ length log.now.entries }
        ensures follows { OnOk result (Follows self.new.replica (first_entries upto log.now.entries)) }
        ensures server { OnOk result (self.new ≡ record self.old {
          replica = self.new.replica;
          cache = seen_after self.old.node self.old.boot
              (added_to (applied_by self.old log.now.entries) (first_entries upto log.now.entries)) self.old.cache;
        }) }
    {
        let applied = self.replica.applied();
        for i in applied..upto {
            self.apply(log.entry(i + 1))?;
        }
        Ok(())
    }

    /// Applies the next entry.
    fn apply(&mut self, e: &Entry) -> Result<(), Memory>
        ensures follows { OnOk result ((entries : List Entry)
            → Follows self.old.replica entries → Follows self.new.replica (e.now ∷ entries)) }
        ensures server { OnOk result (self.new ≡ record self.old {
          replica = self.new.replica;
          cache = seen_after self.old.node self.old.boot (e.now ∷ []) self.old.cache;
        }) }
    {
        self.replica.apply(e)?;
        let Entry::Lease(lease) = e else {
            return Ok(());
        };
        if self.is_named_by(lease) {
            self.cache.begin(lease.low);
        }
        Ok(())
    }

    /// The lease by which the server holds its range.
    fn held(&self, log: &RangeLog) -> Result<Lease, LeaseRefusal>
        requires { Follows self.now.replica (applied_by self.now log.now.entries) }
        ensures { (now : Moment) → IsHeldAs (scene self.now log.now now) result }
    {
        let Some(lease) = self.replica.lease() else {
            return Err(LeaseRefusal::NotHolder);
        };
        if !self.is_named_by(&lease) {
            return Err(LeaseRefusal::NotHolder);
        }
        if !is_same(&lease, &log.lease()) {
            return Err(LeaseRefusal::NotHolder);
        }
        Ok(lease)
    }
}

/// Appends a lease after the log's last.
fn append_lease(
    lease: Lease,
    last: Lease,
    running: NodeSet,
    log: &mut RangeLog,
) -> Result<(), LeaseRefusal>
    requires { lease_of log.old.entries ≡ Some last }
    ensures { AppendsLease lease running log.old log.new result }
{
    log.reserve(1)?;
    match log.append(Entry::Lease(lease), last.seq, running) {
        Ok(_) => Ok(()),
        Err(AppendRefusal::NoQuorum { down }) => Err(LeaseRefusal::NoQuorum { down }),
        Err(AppendRefusal::Stale { .. }) => unreachable!(),
    }
}

/// The voters that are stopped, where no majority runs.
fn without_quorum(running: NodeSet, log: &RangeLog) -> Option<NodeSet>
    ensures { MatchOption result (has_majority log.now.voters running ≡ true)
        (λ down. (has_majority log.now.voters running ≡ false) × (down ≡ stopped_of log.now.voters running)) }
{
    if has_majority(log.voters(), running) {
        return None;
    }
    Some(stopped_of(log.voters(), running))
}

/// The greater of two walls.
fn later_wall(a: u64, b: u64) -> u64
    ensures { result ≡ max a b }
{
    if a < b { b } else { a }
}

/// The next sequence.
fn after(seq: u32) -> Result<u32, Memory>
    ensures { IfOk result (λ next. next ≡ seq + 1) }
{
    match seq.checked_add(1) {
        Some(next) => Ok(next),
        None => Err(Memory),
    }
}

/// The wall of the clock and a duration.
pub fn ahead_of(wall: u64, duration: u64) -> Result<u64, Memory>
    ensures { IfOk result (λ sum. (sum ≡ wall + duration) × (sum < 2 ^ 64)) }
{
    match wall.checked_add(duration) {
        Some(sum) => Ok(sum),
        None => Err(Memory),
    }
}
