//! Pieces through memory with ample memory, and the adapters over a reader and a writer that fail.

ghost use Rattle.std.specs.Prelude.{◌≤◌, IfOk};

use mr_base::Memory;
use mr_io::{
    CountSink, Failed, MemSink, MemSource, Sink, Source, StdSink, StdSource, WholeSource, write_all,
};
use std::alloc::Global;
use std::io::{self, ErrorKind, Read, Write};
use std::test::Fail;

/// What a call of the other side answers: this many bytes, or an error.
#[derive(Clone, Copy)]
enum Turn {
    Bytes(usize),
    Error,
}

/// A reader and writer that answers its turns one after the other, then 0 bytes.
#[derive(Drop)]
struct Turns {
    turns: [Turn; 3],
    made: usize,
}

impl Turns {
    fn new(turns: [Turn; 3]) -> Turns {
        Turns { turns, made: 0 }
    }

    /// How many bytes of `most` the next turn gives or takes.
    fn next(&mut self, most: usize) -> io::Result<usize>
        ensures { IfOk result (λ n. n ≤ most) }
    {
        let turn = self.turns.get(self.made).copied();
        self.made = self.made.saturating_add(1);
        match turn {
            Some(Turn::Bytes(n)) => Ok(n.min(most)),
            Some(Turn::Error) => Err(io::Error::from(ErrorKind::Interrupted)),
            None => Ok(0),
        }
    }
}

impl Read for Turns {
    fn read(&mut self, buf: &mut [u8]) -> io::Result<usize> {
        self.next(buf.len())
    }
}

impl Write for Turns {
    fn write(&mut self, buf: &[u8]) -> io::Result<usize> {
        self.next(buf.len())
    }

    fn flush(&mut self) -> io::Result<()> {
        Ok(())
    }
}

/// Reads the source to its end in pieces of two bytes, and writes them on; a failed read is made again.
fn copy<S: Source, K: Sink>(source: &mut S, sink: &mut K) -> Result<(), Failed> {
    let mut buf = [0u8; 2];
    for _ in 0..100u32 {
        match source.read(&mut buf) {
            Err(Failed) => {}
            Ok(0) => break,
            Ok(n) => write_all(sink, &buf[..n])?,
        }
    }
    Ok(())
}

/// Whether all bytes pass, and these are written, where these calls fail and there is this much room.
fn passes(
    alloc: Global,
    bytes: &[u8],
    failing: (&[u32], &[u32]),
    room: usize,
    written: &[u8],
) -> Result<bool, Memory> {
    let mut source = MemSource::new(alloc, bytes, failing.0)?;
    let mut sink = MemSink::new(alloc, room, failing.1)?;
    let all = copy(&mut source, &mut sink).is_ok();
    Ok(all == (written.len() == bytes.len()) && sink.written() == written)
}

#[test]
fn pieces_pass_through_memory(rt: HostRuntime) -> Result<(), Fail> {
    let alloc = rt.alloc();
    assert!(rt; passes(alloc, b"", (&[], &[]), 0, b"")?);
    assert!(rt; passes(alloc, b"abcde", (&[], &[]), 5, b"abcde")?);
    assert!(rt; passes(alloc, b"abcde", (&[1, 3, 3], &[]), 9, b"abcde")?);
    assert!(rt; passes(alloc, b"abcde", (&[], &[2]), 5, b"ab")?);
    assert!(rt; passes(alloc, b"abcde", (&[], &[]), 3, b"abc")?);
    let mut counted = CountSink::new();
    let copied = copy(&mut WholeSource::new(alloc, b"abcde")?, &mut counted);
    assert!(rt; copied.is_ok() && counted.count() == 5);
    Ok(())
}

#[test]
fn adapters_make_one_call_each(rt: HostRuntime) {
    let turns = [Turn::Error, Turn::Bytes(3), Turn::Bytes(0)];
    // What each call on five bytes answers, and how many calls were made behind it.
    let mut reader = Turns::new(turns);
    let mut source = StdSource::new(&mut reader);
    let mut buf = [0u8; 5];
    for answer in [Err(Failed), Ok(3), Ok(0)] {
        assert!(rt; source.read(&mut buf) == answer);
    }
    assert_eq!(rt; reader.made, 3);
    let mut writer = Turns::new(turns);
    let mut sink = StdSink::new(&mut writer);
    for answer in [Err(Failed), Ok(3), Err(Failed)] {
        assert!(rt; sink.write(b"abcde") == answer);
    }
    assert!(rt; sink.write(b"") == Ok(0));
    assert_eq!(rt; writer.made, 4);
}
