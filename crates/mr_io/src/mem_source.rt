//! Sources that read from memory.

ghost use Rattle.std.specs.Prelude.{◌≡◌, ◌↔◌, ◌<◌, ◌≤◌, [], ◌++◌, Some, IfOk, IsOk, IsErr, OnErr, length, take, drop, min};
ghost use Rattle.std.specs.Io.KnownBytes.{IsAtEnd, prepend_known};
ghost use Rattle.mr_io.specs.Faults.{CountsFault, last_count};
ghost use Rattle.mr_io.specs.InMemory.{NextIsListed, after_failed_read, after_read};

use crate::calls::Calls;
use crate::faults::Failed;
use crate::source::Source;
use mr_base::{Bytes, Memory};
use std::alloc::Global;
use std::marker::Model;

/// A source over bytes in memory that never fails.
#[derive(Drop)]
pub struct WholeSource {
    bytes: Bytes,
    at: usize,
}

impl Model for WholeSource {
    ghost use Rattle.std.specs.Prelude.{ℕ, List, ◌≤◌, drop, length};

    ghost Value = { List ℕ };

    ghost view = { λ s. drop s.at s.bytes };

    ghost invariant = { λ s. s.at ≤ length s.bytes };
}

impl WholeSource {
    /// A source that gives a copy of these bytes.
    pub fn new(alloc: Global, bytes: &[u8]) -> Result<WholeSource, Memory>
        ensures { IfOk result (λ source. source ≡ bytes.now) }
    {
        Ok(WholeSource {
            bytes: Bytes::from_slice(alloc, bytes)?,
            at: 0,
        })
    }
}

impl Source for WholeSource {
    ghost use Rattle.std.specs.Prelude.{Some};
    ghost use Rattle.mr_io.specs.Faults.{last_count};

    ghost left = { λ s. Some s };

    ghost faults = { λ s. 0 };

    ghost most_faults = { last_count };

    fn read(&mut self, buf: &mut [u8]) -> Result<usize, Failed>
        ensures succeeds { IsOk result }
        ensures count { IfOk result (λ n. n ≡ min (length self.old) (length buf.old)) }
        ensures bytes { IfOk result (λ n. buf.new ≡ take n self.old ++ drop n buf.old) }
        ensures left { IfOk result (λ n. self.new ≡ drop n self.old) }
    {
        let n = copy_front(&self.bytes.as_slice()[self.at..], buf);
        self.at += n;
        Ok(n)
    }
}

/// A source over bytes in memory whose calls fail where their numbers, counted from 1, are listed.
#[derive(Drop)]
pub struct MemSource {
    content: WholeSource,
    calls: Calls,
}

impl Model for MemSource {
    ghost use Rattle.mr_io.specs.InMemory.{MemReads};

    ghost Value = { MemReads };

    ghost view = { λ s. record { left = s.content; failing = s.calls.failing; calls = s.calls.made; faults = s.calls.faults } };
}

impl MemSource {
    /// A source that gives a copy of these bytes, and whose listed calls fail.
    pub fn new(alloc: Global, bytes: &[u8], failing: &[u32]) -> Result<MemSource, Memory>
        ensures { IfOk result (λ source. source ≡ record { left = bytes.now; failing = failing.now; calls = 0; faults = 0 }) }
    {
        let content = WholeSource::new(alloc, bytes)?;
        let calls = Calls::new(alloc, failing)?;
        Ok(MemSource { content, calls })
    }
}

impl Source for MemSource {
    ghost use Rattle.std.specs.Prelude.{Some};
    ghost use Rattle.mr_io.specs.Faults.{last_count};

    ghost left = { λ s. Some s.left };

    ghost faults = { λ s. s.faults };

    ghost most_faults = { last_count };

    fn read(&mut self, buf: &mut [u8]) -> Result<usize, Failed>
        ensures listed { IsErr result ↔ NextIsListed self.old.failing self.old.calls }
        ensures failed { OnErr result (self.new ≡ after_failed_read self.old) }
        ensures count { IfOk result (λ n. n ≡ min (length self.old.left) (length buf.old)) }
        ensures bytes { IfOk result (λ n. buf.new ≡ take n self.old.left ++ drop n buf.old) }
        ensures left { IfOk result (λ n. self.new ≡ after_read self.old n) }
        ensures never_falls { self.old.faults ≤ self.new.faults }
    {
        if self.calls.next_fails() {
            return Err(self.calls.fail());
        }
        self.content.read(buf)
    }
}

/// Copies as many bytes as both have into the front of `to`, and answers how many.
fn copy_front(from: &[u8], to: &mut [u8]) -> usize
    ensures count { result ≡ min (length from.now) (length to.old) }
    ensures bytes { to.new ≡ take result from.now ++ drop result to.old }
{
    let n = from.len().min(to.len());
    to[..n].copy_from_slice(&from[..n]);
    n
}
