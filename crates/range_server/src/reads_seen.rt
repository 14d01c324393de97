//! What was read under a lease, of which nothing is kept before the first read.

ghost use Rattle.std.specs.Prelude.{◌≡◌, [], OnOk};
ghost use Rattle.ts_cache.specs.Cached.{added, high_of, top_of};

use mr_base::{Memory, Span, Ts};
use std::alloc::Global;
use std::marker::Model;
use ts_cache::TsCache;

/// How many spans a cache holds at most. Source: this project's profile.
pub const CAPACITY: u32 = 1024;

/// The reads that were served under a lease, as a cache of timestamps, which takes memory from the first read on.
#[derive(Drop)]
pub struct ReadsSeen {
    alloc: Global,
    low: Ts,
    kept: Option<TsCache>,
}

impl Model for ReadsSeen {
    ghost use Rattle.ts_cache.specs.Value.{CacheValue};

    ghost Value = { CacheValue };

    ghost use Rattle.range_server.specs.Seen.{seen};

    ghost view = { λ s. seen s.low s.kept };
}

impl ReadsSeen {
    ghost use Rattle.range_server.specs.Seen.{nothing_above};

    /// Nothing was read above this timestamp.
    pub fn new(alloc: Global, low: Ts) -> ReadsSeen
        ensures { result ≡ nothing_above low }
    {
        ReadsSeen {
            alloc,
            low,
            kept: None,
        }
    }

    /// Nothing was read above this timestamp, from now on.
    pub fn begin(&mut self, low: Ts)
        ensures { self.new ≡ nothing_above low }
    {
        self.low = low;
        self.kept = None;
    }

    /// A span was read at a timestamp. After want of memory nothing has changed.
    pub fn add(&mut self, span: &Span, at: Ts) -> Result<(), Memory>
        ensures { OnOk result (self.new ≡ added self.old span.now at) }
    {
        if let Some(cache) = &mut self.kept {
            cache.add(span, at)?;
            return Ok(());
        }
        let mut cache = TsCache::new(self.alloc, self.low, CAPACITY)?;
        cache.add(span, at)?;
        self.kept = Some(cache);
        Ok(())
    }

    /// The greatest timestamp at which a key of the span may have been read.
    pub fn high(&self, span: &Span) -> Ts
        ensures { result ≡ high_of self.now span.now }
    {
        match &self.kept {
            Some(cache) => cache.high(span),
            None => self.low,
        }
    }

    /// The greatest timestamp at which anything may have been read.
    pub fn top(&self) -> Ts
        ensures { result ≡ top_of self.now }
    {
        match &self.kept {
            Some(cache) => cache.top(),
            None => self.low,
        }
    }
}
