//! Scenarios with their reports, over sources and sinks in memory.

ghost use Rattle.std.specs.Prelude.{◌≡◌};

use crate::top::top;
use mr_io::{Failed, MemSink, MemSource, Source};
use std::alloc::Global;
use std::test::Fail;

/// The report of a scenario that is read with these failing calls: the bytes written and the status.
fn report(
    alloc: Global,
    scenario: &[u8],
    reads: &[u32],
    writes: &[u32],
) -> Result<(Vec<u8>, u8), Fail> {
    let mut words = Vec::new(alloc);
    words.push(String::from_str(alloc, "run")?)?;
    let mut source = MemSource::new(alloc, scenario, reads)?;
    let mut sink = MemSink::new(alloc, 4096, writes)?;
    let outcome = top(alloc, words.as_slice(), &mut source, &mut sink);
    Ok((sink.written().to_vec(alloc)?, outcome.status))
}

/// A source that gives at most a line a call.
#[derive(Drop)]
struct LineByLine {
    content: MemSource,
    /// The lengths of the lines that are left, the last one first.
    lengths: Vec<usize>,
}

impl Source for LineByLine {
    ghost use Rattle.std.specs.Prelude.{Some};
    ghost use Rattle.mr_io.specs.Faults.{last_count};

    ghost left = { λ s. Some s.content.left };

    ghost faults = { λ s. s.content.faults };

    ghost most_faults = { last_count };

    fn read(&mut self, buf: &mut [u8]) -> Result<usize, Failed> {
        let line = self.lengths.pop().unwrap_or(1).max(1);
        let end = line.min(buf.len());
        self.content.read(&mut buf[..end])
    }
}

/// A source that gives the scenario at most a line a call, and whose listed calls fail.
fn line_by_line(alloc: Global, scenario: &[u8], failing: &[u32]) -> Result<LineByLine, Fail> {
    let mut lengths = Vec::new(alloc);
    for line in scenario.split_inclusive(|b| *b == b'\n').rev() {
        lengths.push(line.len())?;
    }
    let content = MemSource::new(alloc, scenario, failing)?;
    Ok(LineByLine { content, lengths })
}

const SCENARIO: &[u8] = b"cluster
node n1 us-east a 1000
sql CREATE DATABASE d
sql CREATE TABLE t (id INT PRIMARY KEY)
begin
txn t1 n1 now INSERT INTO t (id) VALUES (1)
txn t2 n1 now SELECT * FROM t
txn t3 n1 now INSERT INTO t (id) VALUES (1)
";

const REPORT: &[u8] = b"ack t1 1000.0.1
= insert 1
ack t2 1000.1.2
= select 1
  1
fault t3 1000.2.3 23505
";

/// Comments, of 16,777,216 bytes in all.
fn largest_scenario(alloc: Global) -> Result<Vec<u8>, Fail> {
    let mut scenario = Vec::new(alloc);
    for _ in 0..1_048_576u32 {
        scenario.extend_from_slice(b"# of 16 bytes..\n")?;
    }
    Ok(scenario)
}

/// Whether this is the report of the first so many bytes of the scenario: a line that was cut off may be
/// a fault, and what was written before is a part of the whole report.
fn is_report_of(alloc: Global, count: usize, written: &[u8], status: u8) -> Result<bool, Fail> {
    let lines = SCENARIO.iter().take(count).filter(|b| **b == b'\n').count();
    let fault = format!(in alloc; "! S1 line {}\n", lines.saturating_add(1))?;
    Ok(match (status, written.strip_suffix(fault.as_bytes())) {
        (0, None) => REPORT.starts_with(written),
        (1, Some(front)) => REPORT.starts_with(front),
        _ => false,
    })
}

#[test]
fn reports_are_written(rt: HostRuntime) -> Result<(), Fail> {
    let alloc = rt.alloc();
    let none: [u32; 0] = [];
    let first: [u32; 1] = [1];
    let cases: [(&[u8], &[u32], &[u8], u8); 7] = [
        (SCENARIO, none.as_slice(), REPORT, 0),
        (b"", none.as_slice(), b"", 0),
        (
            b"# a comment\r\n\ncluster\ntick all 1",
            none.as_slice(),
            b"! S1 line 4\n",
            1,
        ),
        (
            b"cluster\r\nnode n1 us-east a 1000\nsql CREATE DATABASE d\nsql CREATE TABLE t (id INT PRIMARY KEY)\nbegin\ntick all 1\n",
            none.as_slice(),
            b"! S1 line 6\n",
            1,
        ),
        (b"cluster\ncluster\n", none.as_slice(), b"! S1 line 2\n", 1),
        (b"cluster\r", none.as_slice(), b"! S1 line 1\n", 1),
        (SCENARIO, first.as_slice(), b"", 3),
    ];
    for (scenario, reads, written, status) in cases {
        let (bytes, answered) = report(alloc, scenario, reads, none.as_slice())?;
        assert!(rt; bytes.as_slice() == written);
        assert!(rt; answered == status);
    }
    let (bytes, answered) = report(alloc, SCENARIO, none.as_slice(), [2].as_slice())?;
    assert!(rt; bytes.as_slice() == b"ack t1 1000.0.1\n= insert 1\n".as_slice());
    assert!(rt; answered == 4);
    Ok(())
}

#[test]
fn a_scenario_may_be_cut_anywhere(rt: HostRuntime) -> Result<(), Fail> {
    let alloc = rt.alloc();
    let none: [u32; 0] = [];
    for count in 0..SCENARIO.len() {
        let (bytes, status) = report(alloc, &SCENARIO[..count], none.as_slice(), none.as_slice())?;
        assert!(rt; is_report_of(alloc, count, bytes.as_slice(), status)?);
    }
    Ok(())
}

#[test]
fn one_byte_more_than_the_largest_is_too_large(rt: HostRuntime) -> Result<(), Fail> {
    let alloc = rt.alloc();
    let none: [u32; 0] = [];
    let mut scenario = largest_scenario(alloc)?;
    let (bytes, status) = report(alloc, scenario.as_slice(), none.as_slice(), none.as_slice())?;
    assert!(rt; bytes.is_empty() && status == 0);
    scenario.push(b'#')?;
    let (bytes, status) = report(alloc, scenario.as_slice(), none.as_slice(), none.as_slice())?;
    assert!(rt; bytes.as_slice() == b"! size\n".as_slice() && status == 7);
    Ok(())
}

#[test]
fn a_line_is_answered_before_more_is_asked_for(rt: HostRuntime) -> Result<(), Fail> {
    let alloc = rt.alloc();
    let none: [u32; 0] = [];
    let mut words = Vec::new(alloc);
    words.push(String::from_str(alloc, "run")?)?;
    let mut source = line_by_line(alloc, SCENARIO, [7].as_slice())?;
    let mut sink = MemSink::new(alloc, 4096, none.as_slice())?;
    let outcome = top(alloc, words.as_slice(), &mut source, &mut sink);
    assert!(rt; sink.written() == b"ack t1 1000.0.1\n= insert 1\n".as_slice());
    assert!(rt; outcome.status == 3);
    Ok(())
}
