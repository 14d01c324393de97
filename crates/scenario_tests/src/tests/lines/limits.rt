//! How long lines may be, and how many lines, nodes and regions a scenario may have.

use super::{OneOfEach, RUNNING, SETUP, STOPPED, fault_behind, number_of, read_all};
use mr_base::Memory;
use scenario::Scenario;
use std::alloc::Global;
use std::test::Fail;

/// The word and then blanks, so many bytes long.
fn long_line(alloc: Global, word: &[u8], length: usize) -> Result<Vec<u8>, Memory> {
    let mut line = Vec::from_slice(alloc, word)?;
    for _ in word.len()..length {
        line.push(b' ')?;
    }
    Ok(line)
}

/// How the word with blanks behind it is answered as a line of so many bytes.
fn long_fault(alloc: Global, length: usize, head: &[u8], word: &[u8]) -> Result<u8, Memory> {
    let line = long_line(alloc, word, length)?;
    Ok(fault_behind(alloc, head, line.as_slice()))
}

const LONG_LINES: [(usize, &[u8], &[u8], u8); 20] = [
    (4096, RUNNING, b"sql", 0),
    (4096, RUNNING, b"#", 0),
    (4096, RUNNING, b"grain", 1),
    (4096, RUNNING, b"drain", 2),
    (4096, RUNNING, b"txn t2 n1 ago 3600001", 3),
    (4096, b"", b"sql", 5),
    (4096, SETUP, b"txn t2 n1 now", 6),
    (4096, RUNNING, b"txn t2 n9 now", 4),
    (4096, RUNNING, b"txn t1 n1 now", 7),
    (4096, STOPPED, b"txn t2 n1 now", 9),
    (4097, RUNNING, b"sql", 10),
    (4097, RUNNING, b"#", 10),
    (4097, RUNNING, b"grain", 10),
    (4097, RUNNING, b"drain", 10),
    (4097, RUNNING, b"txn t2 n1 ago 3600001", 10),
    (4097, b"", b"sql", 10),
    (4097, SETUP, b"txn t2 n1 now", 10),
    (4097, RUNNING, b"txn t2 n9 now", 10),
    (4097, RUNNING, b"txn t1 n1 now", 10),
    (4097, STOPPED, b"txn t2 n1 now", 10),
];

/// How many of these lines are answered by the fault beside them, up to the first that isn't.
fn long_answered(alloc: Global) -> Result<usize, Memory> {
    for (i, (length, head, word, fault)) in LONG_LINES.iter().enumerate() {
        if long_fault(alloc, *length, head, word)? != *fault {
            return Ok(i);
        }
    }
    Ok(LONG_LINES.len())
}

#[test]
fn lines_have_4096_bytes(rt: HostRuntime) -> Result<(), Fail> {
    assert_eq!(rt; long_answered(rt.alloc())?, LONG_LINES.len());
    Ok(())
}

/// Reads 199,995 lines of one kind.
fn drain(scenario: &mut Scenario) -> bool {
    for _ in 0..199_995 {
        if scenario.read_line(b"drain", &OneOfEach).is_err() {
            return false;
        }
    }
    true
}

/// How many of the lines are answered by the fault beside them, one after the other, up to the first that
/// isn't.
fn answered_in_turn(scenario: &mut Scenario, lines: &[(&[u8], u8)]) -> usize {
    for (i, (line, fault)) in lines.iter().enumerate() {
        if number_of(scenario.read_line(line, &OneOfEach)) != *fault {
            return i;
        }
    }
    lines.len()
}

/// One line too many, some of them with a second fault. A comment counts for nothing.
const ONE_TOO_MANY: [(&[u8], u8); 12] = [
    (b"drain", 11),
    (b"grain", 11),
    (b"drain x", 11),
    (b"tick all 3600001", 11),
    (b"cluster", 11),
    (b"begin", 11),
    (b"stop n9", 11),
    (b"txn t1 n1 now x", 11),
    (b"deliver m6", 11),
    (b"start n1", 11),
    (b"timeout t2", 11),
    (b"#", 0),
];

/// Reads 200,000 lines that count and some that don't, and answers whether all are fine.
fn fill(scenario: &mut Scenario) -> bool {
    read_all(scenario, RUNNING) && drain(scenario) && read_all(scenario, b"\n# end")
}

#[test]
fn lines_are_200000(rt: HostRuntime) -> Result<(), Fail> {
    let mut scenario = Scenario::new(rt.alloc(), false);
    assert!(rt; fill(&mut scenario));
    assert_eq!(rt;
        answered_in_turn(&mut scenario, &ONE_TOO_MANY),
        ONE_TOO_MANY.len()
    );
    let long = long_line(rt.alloc(), b"drain", 4097)?;
    assert_eq!(rt;
        answered_in_turn(&mut scenario, &[(long.as_slice(), 10)]),
        1
    );
    Ok(())
}

/// A `cluster` line and nodes, one in each region that a letter names.
fn nodes(alloc: Global, letters: &[u8]) -> Result<String, Memory> {
    let mut lines = String::new(alloc);
    lines.push_str("cluster")?;
    for (i, letter) in letters.iter().enumerate() {
        let k = i + 1;
        let region = char::from(*letter);
        let node = format!(in alloc; "\nnode n{k} {region} z 1")?;
        lines.push_str(node.as_str())?;
    }
    Ok(lines)
}

const MOST_NODES: [(&[u8], &[u8], u8); 4] = [
    (b"abcdefghijklmnop", b"node n17 q z 1", 3),
    (b"abcdefghijklmnop", b"node n17 p z 1", 0),
    (
        b"aaaaaaaaaaaaaaaaaaaaaaaaaaaaaaaabbbbbbbbbbbbbbbbbbbbbbbbbbbbbbb",
        b"node n64 c z 1",
        0,
    ),
    (
        b"aaaaaaaaaaaaaaaaaaaaaaaaaaaaaaaabbbbbbbbbbbbbbbbbbbbbbbbbbbbbbbb",
        b"node n65 c z 1",
        3,
    ),
];

/// How many of these lines are answered by the fault beside them, up to the first that isn't.
fn nodes_answered(alloc: Global) -> Result<usize, Memory> {
    for (i, (letters, line, fault)) in MOST_NODES.iter().enumerate() {
        let head = nodes(alloc, letters)?;
        if fault_behind(alloc, head.as_bytes(), line) != *fault {
            return Ok(i);
        }
    }
    Ok(MOST_NODES.len())
}

#[test]
fn regions_are_16_and_nodes_64(rt: HostRuntime) -> Result<(), Fail> {
    assert_eq!(rt; nodes_answered(rt.alloc())?, MOST_NODES.len());
    Ok(())
}
