//! How intents are resolved.

ghost use Rattle.std.specs.Prelude.{◌≡◌, OnOk, Some, length, true};
ghost use Rattle.mvcc_range.specs.Follows.{Follows};
ghost use Rattle.range_log.specs.Appends.{has_majority};
ghost use Rattle.range_log.specs.Facts.{lease_of};
ghost use Rattle.range_server.specs.Resolves.{AreResolved, IsResolveOf};
ghost use Rattle.range_server.specs.Resolving.{AreResolvedTo, IsResolvedAt};
ghost use Rattle.range_server.specs.Scene.{IsBeside, applied_by, scene};
ghost use Rattle.range_server.specs.Steps.{IsStep};

use crate::standing::{Moment, Standing, refusal};
use mr_base::{AttemptId, Bytes, Fate, Memory};
use range_log::{Lease, RangeLog};
use std::alloc::Global;

impl Standing {
    /// Resolves the intents of an attempt at these keys, where the server can append.
    pub fn resolve(
        &mut self,
        alloc: Global,
        lease: &Lease,
        attempt: AttemptId,
        keys: &[Bytes],
        fate: Fate,
        now: Moment,
        log: &mut RangeLog,
    ) -> Result<(), Memory>
        requires has { lease_of (applied_by self.old log.old.entries) ≡ Some lease.now }
        requires beside { IsBeside self.old log.old.entries }
        ensures { OnOk result (IsStep
            (AreResolved (scene self.old log.old now) attempt keys.now log.new.entries)
            (IsResolveOf attempt keys.now fate) log.old log.new self.old self.new) }
    {
        if !self.is_named_by(lease) {
            return Ok(());
        }
        if let Some(_refusal) = refusal(lease, now.running, log) {
            return Ok(());
        }
        self.resolve_each(alloc, lease, attempt, keys, fate, now, log)
    }

    /// Resolves the intents of an attempt at these keys, one after the other.
    fn resolve_each(
        &mut self,
        alloc: Global,
        lease: &Lease,
        attempt: AttemptId,
        keys: &[Bytes],
        fate: Fate,
        now: Moment,
        log: &mut RangeLog,
    ) -> Result<(), Memory>
        requires last { lease_of log.old.entries ≡ Some lease.now }
        requires majority { has_majority log.old.voters now.running ≡ true }
        requires follows { Follows self.old.replica log.old.entries }
        ensures { OnOk result (AreResolvedTo attempt keys.now (length keys.now) fate log.old log.new self.old self.new) }
    {
        for key in keys {
            self.resolve_at(alloc, lease, attempt, key, fate, now, log)?;
        }
        Ok(())
    }

    /// Resolves the intent of an attempt at a key, if it stands there.
    fn resolve_at(
        &mut self,
        alloc: Global,
        lease: &Lease,
        attempt: AttemptId,
        key: &Bytes,
        fate: Fate,
        now: Moment,
        log: &mut RangeLog,
    ) -> Result<(), Memory>
        requires last { lease_of log.old.entries ≡ Some lease.now }
        requires majority { has_majority log.old.voters now.running ≡ true }
        requires follows { Follows self.old.replica log.old.entries }
        ensures { OnOk result (IsResolvedAt attempt key.now fate log.old log.new self.old self.new) }
    {
        let Some(intent) = self.replica.intent(key) else {
            return Ok(());
        };
        if intent.attempt == attempt {
            return self.append_resolve(alloc, lease, attempt, key, fate, now, log);
        }
        Ok(())
    }
}
