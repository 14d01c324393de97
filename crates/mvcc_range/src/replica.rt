//! A replica: what it keeps of the entries of a range's log that it applied.

ghost use Rattle.std.specs.Prelude.{◌≡◌, ◌∷◌, [], List, IfOk, OnOk, OnErr, length};
ghost use Rattle.mvcc_range.specs.Follows.{Follows};
ghost use Rattle.mvcc_range.specs.KeyFacts.{intent_of, state_at};
ghost use Rattle.mvcc_range.specs.Lookups.{IsIntentAt, IsLowestIntent, IsNewestTs, IsStateOf};
ghost use Rattle.mvcc_range.specs.ReadAnswers.{IsReadAnswer, IsRefreshAnswer};
ghost use Rattle.range_log.specs.Facts.{closed_of, lease_of};
ghost use Rattle.range_log.specs.declared.entries.Entry.{Entry};

use crate::answers::{ReadAnswer, RefreshAnswer};
use crate::facts::Facts;
use crate::key_state::{Intent, KeyState};
use crate::lowest::lowest_of;
use crate::read_view::ReadView;
use crate::reads::read_keys;
use crate::refreshes::refresh_keys;
use mr_base::{AttemptId, Bytes, Known, Memory, Span, Ts};
use range_log::{Entry, Lease, TxnState};
use std::alloc::Global;
use std::collections::BTreeMap;
use std::marker::Model;

/// What follows from the entries that were applied: versions, intents, records, the last lease and what was
/// closed. The entries themselves aren't kept. (Intents, versions and records: Taft et al., SIGMOD 2020.)
#[derive(Drop)]
pub struct Replica {
    alloc: Global,
    facts: Facts,
    applied: u64,
}

impl Model for Replica {
    ghost use Rattle.mvcc_range.specs.Follows.{ReplicaValue};

    ghost Value = { ReplicaValue };

    ghost view = { λ r. record {
      keys = r.facts.keys.entries;
      states = r.facts.states.entries;
      lease = r.facts.lease;
      closed = r.facts.closed;
      applied = r.applied;
    } };
}

impl Replica {
    /// A replica that has applied no entry.
    pub fn new(alloc: Global) -> Replica
        ensures { Follows result [] }
    {
        Replica {
            alloc,
            facts: Facts::new(alloc),
            applied: 0,
        }
    }

    /// Applies the next entry of the log. After want of memory nothing has changed; more entries than can be
    /// counted are want of memory too.
    pub fn apply(&mut self, e: &Entry) -> Result<(), Memory>
        ensures ok { OnOk result ((entries : List Entry) → Follows self.old entries → Follows self.new (e.now ∷ entries)) }
        ensures err { OnErr result (self.new ≡ self.old) }
    {
        if self.applied == u64::MAX {
            return Err(Memory);
        }
        self.facts.take(self.alloc, e)?;
        self.applied += 1;
        Ok(())
    }

    /// The last lease that was applied; none where none was.
    pub fn lease(&self) -> Option<Lease>
        ensures { (entries : List Entry) → Follows self.now entries → result ≡ lease_of entries }
    {
        self.facts.lease
    }

    /// What a read by an attempt gives of the keys of a span, at a timestamp, with an uncertainty limit or none
    /// (a wall in milliseconds), and with the fates that it carries of other attempts: the rows, or the first
    /// obstacle in key order.
    pub fn read(
        &self,
        alloc: Global,
        reader: AttemptId,
        span: &Span,
        at: Ts,
        limit: Option<u64>,
        known: &[Known],
    ) -> Result<ReadAnswer, Memory>
        ensures { IfOk result (λ answer. (entries : List Entry) → Follows self.now entries
            → IsReadAnswer entries
            (record { attempt = reader; span = span.now; at = at; limit = limit; known = known.now }) answer) }
    {
        let read = ReadView {
            attempt: reader,
            span,
            at,
            limit,
            known,
        };
        read_keys(&self.facts.keys, alloc, &read)
    }

    /// Whether what an attempt read of a span at a timestamp reads the same at a later one, with the fates that
    /// it carries of other attempts: else the first intent that no fate settles, or the least newer write.
    pub fn refresh(
        &self,
        alloc: Global,
        reader: AttemptId,
        span: &Span,
        from: Ts,
        to: Ts,
        known: &[Known],
    ) -> Result<RefreshAnswer, Memory>
        ensures { IfOk result (λ answer. (entries : List Entry) → Follows self.now entries
            → IsRefreshAnswer entries
            (record { attempt = reader; span = span.now; from = from; to = to; known = known.now }) answer) }
    {
        let later = ReadView {
            attempt: reader,
            span,
            at: to,
            limit: None,
            known,
        };
        refresh_keys(&self.facts.keys, alloc, from, &later)
    }

    /// The timestamp of the newest version of a key; none where it has no version.
    pub fn newest(&self, key: &Bytes) -> Option<Ts>
        ensures { (entries : List Entry) → Follows self.now entries → IsNewestTs entries key.now result }
    {
        let Some(state) = self.facts.keys.get(key) else {
            return None;
        };
        state.newest()
    }

    /// The least timestamp of an intent in a span that isn't the reader's; none where there is none.
    pub fn lowest_intent(&self, span: &Span, reader: AttemptId) -> Option<Ts>
        ensures { (entries : List Entry) → Follows self.now entries
            → IsLowestIntent entries span.now reader result }
    {
        lowest_of(&self.facts.keys, span, reader)
    }

    /// The intent that stands at a key; none where none does.
    pub fn intent(&self, key: &Bytes) -> Option<Intent>
        ensures { (entries : List Entry) → Follows self.now entries → IsIntentAt entries key.now result }
    {
        intent_in(&self.facts.keys, key)
    }

    /// The record of an attempt; none where it has none.
    pub fn state_of(&self, a: AttemptId) -> Option<TxnState>
        ensures { (entries : List Entry) → Follows self.now entries → IsStateOf entries a result }
    {
        self.facts.states.get(&a).copied()
    }

    /// The greatest timestamp that was closed, the least of all where none was.
    pub fn closed(&self) -> Ts
        ensures { (entries : List Entry) → Follows self.now entries → result ≡ closed_of entries }
    {
        self.facts.closed
    }

    /// How many entries were applied.
    pub fn applied(&self) -> u64
        ensures { (entries : List Entry) → Follows self.now entries → result ≡ length entries }
    {
        self.applied
    }
}

/// The intent that is kept at a key.
fn intent_in(keys: &BTreeMap<Bytes, KeyState>, key: &Bytes) -> Option<Intent>
    ensures { result ≡ intent_of (state_at key.now keys.now.entries).intent }
{
    match keys.get(key) {
        Some(state) => state.intent(),
        None => None,
    }
}
