//! A bounded cache of the timestamps of reads.

ghost use Rattle.std.specs.Prelude.{◌≡◌, ◌≤◌, ◌<◌, ◌+◌, ◌++◌, ◌∷◌, [], List, IfOk, OnOk, OnErr, length, vec_len, vec_capacity};
ghost use Rattle.mr_base.specs.Timestamps.{later};
ghost use Rattle.ts_cache.specs.Cached.{added, high_of, top_of};
ghost use Rattle.ts_cache.specs.Held.{AreApart};
ghost use Rattle.ts_cache.specs.Indexed.{IsIndexed};
ghost use Rattle.ts_cache.specs.declared.held.HeldSpan.{HeldSpan};

use crate::held::{HeldSpan, renew};
use crate::index::Index;
use mr_base::{CloneIn, Memory, Span, Ts};
use std::alloc::Global;
use std::marker::Model;

/// The spans of keys that were read, each with the greatest timestamp at which it was. It holds so many spans at
/// most; where the oldest has to go, its timestamp counts for each key from then on.
#[derive(Drop)]
pub struct TsCache {
    alloc: Global,
    low: Ts,
    capacity: usize,
    held: Vec<HeldSpan>,
    index: Index,
}

impl Model for TsCache {
    ghost use Rattle.ts_cache.specs.Value.{CacheValue};

    ghost Value = { CacheValue };

    ghost use Rattle.ts_cache.specs.Indexed.{IsSound};

    ghost view = { λ c. record { low = c.low; held = c.held.items; capacity = c.capacity } };

    ghost invariant = { λ c. IsSound c.index.points.entries c.index.wide.items c.held.items c.capacity };
}

impl TsCache {
    /// A cache that holds no span yet, and at most so many: each key may have been read at `low`.
    pub fn new(alloc: Global, low: Ts, capacity: u32) -> Result<TsCache, Memory>
        requires { 1 ≤ capacity }
        ensures { IfOk result (λ c. c ≡ record { low = low; held = []; capacity = capacity }) }
    {
        Ok(TsCache {
            alloc,
            low,
            capacity: capacity as usize,
            held: Vec::new(alloc),
            index: Index::new(alloc),
        })
    }

    /// The span was read at this timestamp, and is the youngest from now on. After want of memory nothing has
    /// changed.
    pub fn add(&mut self, s: &Span, ts: Ts) -> Result<(), Memory>
        ensures added { OnOk result (self.new ≡ added self.old s.now ts) }
        ensures err { OnErr result (self.new ≡ self.old) }
    {
        if renew(&mut self.held, s, ts) {
            self.index.renew(s, ts);
            return Ok(());
        }
        let span = s.clone_in(self.alloc)?;
        self.held.reserve(1)?;
        self.index.insert(self.alloc, s, ts)?;
        if self.held.len() < self.capacity {
            self.held.push_reserved(HeldSpan { span, ts });
            return Ok(());
        }
        self.low = drop_oldest(&mut self.held, &mut self.index, self.low);
        self.held.push_reserved(HeldSpan { span, ts });
        Ok(())
    }

    /// The greatest timestamp at which a key of the span may have been read: `low`, or that of a span that is
    /// held and has a key in common with it.
    pub fn high(&self, s: &Span) -> Ts
        ensures { result ≡ high_of self.now s.now }
    {
        self.index.high(self.low, s)
    }

    /// The timestamp that counts for each key.
    pub fn low(&self) -> Ts
        ensures low { result ≡ self.now.low }
        ensures apart { AreApart self.now.held }
        ensures within { length self.now.held ≤ self.now.capacity }
    {
        self.low
    }

    /// The greatest timestamp at which anything may have been read.
    pub fn top(&self) -> Ts
        ensures { result ≡ top_of self.now }
    {
        self.held.iter().fold(self.low, |top, h| top.later(h.ts))
    }
}

/// Drops the oldest span, and gives the greater of a timestamp and its.
fn drop_oldest(held: &mut Vec<HeldSpan>, index: &mut Index, low: Ts) -> Ts
    requires { 0 < length held.old.items }
    ensures dropped { (oldest : HeldSpan) (rest : List HeldSpan) → held.old.items ≡ oldest ∷ rest
        → (held.new.items ≡ rest) × (result ≡ later low oldest.ts) }
    ensures indexed { (oldest : HeldSpan) (rest more : List HeldSpan) → held.old.items ≡ oldest ∷ rest
        → IsIndexed index.old.points.entries index.old.wide.items (oldest ∷ (rest ++ more))
        → IsIndexed index.new.points.entries index.new.wide.items (rest ++ more) }
    ensures len { vec_len held.new + 1 ≡ vec_len held.old }
    ensures capacity { vec_capacity held.new ≡ vec_capacity held.old }
{
    let oldest = held.remove(0);
    index.remove(&oldest);
    low.later(oldest.ts)
}
