//! Sinks that write to memory, or only count.

ghost use Rattle.std.specs.Prelude.{◌≡◌, ◌↔◌, ◌+◌, ◌<◌, ◌≤◌, ◌⊎◌, [], ◌++◌, IfOk, IsOk, IsErr, OnErr, length, take, min};
ghost use Rattle.mr_io.specs.Faults.{last_count};
ghost use Rattle.mr_io.specs.InMemory.{FindsNoRoom, NextIsListed, after_failed_write, after_write};

use crate::calls::Calls;
use crate::faults::Failed;
use crate::sink::Sink;
use mr_base::Memory;
use std::alloc::Global;
use std::marker::Model;

/// A sink over memory for a fixed number of bytes, whose calls fail where their numbers, counted from 1,
/// are listed, and where a piece finds no room.
#[derive(Drop)]
pub struct MemSink {
    buffer: Vec<u8>,
    len: usize,
    calls: Calls,
}

impl Model for MemSink {
    ghost use Rattle.std.specs.Prelude.{◌-◌, ◌≤◌, length, take};
    ghost use Rattle.mr_io.specs.InMemory.{MemWrites};

    ghost Value = { MemWrites };

    ghost view = { λ s. record { written = take s.len s.buffer.items; room = length s.buffer.items - s.len; failing = s.calls.failing; calls = s.calls.made; faults = s.calls.faults } };

    ghost invariant = { λ s. s.len ≤ length s.buffer.items };
}

impl MemSink {
    /// A sink with room for this many bytes, whose listed calls fail. No later call takes memory.
    pub fn new(alloc: Global, room: usize, failing: &[u32]) -> Result<MemSink, Memory>
        ensures { IfOk result (λ sink. sink ≡ record { written = []; room = room; failing = failing.now; calls = 0; faults = 0 }) }
    {
        let buffer = vec![in alloc; 0; room]?;
        let calls = Calls::new(alloc, failing)?;
        Ok(MemSink {
            buffer,
            len: 0,
            calls,
        })
    }

    /// What was written.
    pub fn written(&self) -> &[u8]
        ensures { result.now ≡ self.now.written }
    {
        &self.buffer[..self.len]
    }
}

impl Sink for MemSink {
    ghost use Rattle.std.specs.Prelude.{Some};
    ghost use Rattle.mr_io.specs.Faults.{last_count};

    ghost written = { λ s. Some s.written };

    ghost faults = { λ s. s.faults };

    ghost most_faults = { last_count };

    fn write(&mut self, buf: &[u8]) -> Result<usize, Failed>
        ensures refused { IsErr result ↔ (NextIsListed self.old.failing self.old.calls ⊎ FindsNoRoom self.old buf.now) }
        ensures failed { OnErr result (self.new ≡ after_failed_write self.old) }
        ensures count { IfOk result (λ n. n ≡ min (length buf.now) self.old.room) }
        ensures took { IfOk result (λ n. self.new ≡ after_write self.old (take n buf.now)) }
        ensures never_falls { self.old.faults ≤ self.new.faults }
    {
        let is_listed = self.calls.next_fails();
        let is_full = self.len == self.buffer.len() && !buf.is_empty();
        if is_listed || is_full {
            return Err(self.calls.fail());
        }
        let n = put_at(self.buffer.as_mut_slice(), self.len, buf);
        self.len += n;
        Ok(n)
    }
}

/// Writes as much of the piece as fits from `at` on, and answers how many bytes that were.
fn put_at(buffer: &mut [u8], at: usize, piece: &[u8]) -> usize
    requires { at ≤ length buffer.old }
    ensures count { at + result ≡ min (at + length piece.now) (length buffer.old) }
    ensures bytes { take (at + result) buffer.new ≡ take at buffer.old ++ take result piece.now }
{
    let n = piece.len().min(buffer.len() - at);
    buffer[at..at + n].copy_from_slice(&piece[..n]);
    n
}

/// A sink that keeps the number of bytes alone, and never fails.
#[derive(Drop)]
pub struct CountSink {
    count: u64,
}

impl Model for CountSink {
    ghost use Rattle.std.specs.Prelude.{ℕ};

    ghost Value = { ℕ };

    ghost view = { λ s. s.count };
}

impl CountSink {
    /// A sink to which nothing was written.
    pub fn new() -> CountSink
        ensures { result ≡ 0 }
    {
        CountSink { count: 0 }
    }

    /// How many bytes were written, at most the greatest u64.
    pub fn count(&self) -> u64
        ensures { result ≡ self.now }
    {
        self.count
    }
}

impl Sink for CountSink {
    ghost use Rattle.std.specs.Prelude.{None};
    ghost use Rattle.mr_io.specs.Faults.{last_count};

    ghost written = { λ s. None };

    ghost faults = { λ s. 0 };

    ghost most_faults = { last_count };

    fn write(&mut self, buf: &[u8]) -> Result<usize, Failed>
        ensures succeeds { IsOk result }
        ensures count { IfOk result (λ n. n ≡ length buf.now) }
        ensures counted { self.new ≡ min (self.old + length buf.now) last_count }
    {
        self.count = self.count.saturating_add(buf.len() as u64);
        Ok(buf.len())
    }
}
