//! Each fault, and which of two faults goes first.

use super::{RUNNING, SETUP, STOPPED, answered, number_of, read_behind};
use std::alloc::Global;

const WORDS_AND_FORMS: [(&[u8], &[u8], u8); 31] = [
    (RUNNING, b"", 0),
    (RUNNING, b"# any \xff", 0),
    (RUNNING, b" begin", 1),
    (RUNNING, b" ", 1),
    (RUNNING, b"Begin", 1),
    (RUNNING, b"\xff", 1),
    (RUNNING, b"begin\r", 1),
    (RUNNING, b"drain", 0),
    (RUNNING, b"drain ", 2),
    (RUNNING, b"drain x", 2),
    (RUNNING, b"sql", 2),
    (RUNNING, b"sql ", 0),
    (RUNNING, b"sql  x ", 0),
    (RUNNING, b"sql \xff", 2),
    (RUNNING, b"settle", 2),
    (RUNNING, b"settle 5 ", 2),
    (RUNNING, b"settle  5", 2),
    (RUNNING, b"settle 05", 2),
    (RUNNING, b"settle 0", 0),
    (RUNNING, b"settle -1", 2),
    (RUNNING, b"settle 5x", 2),
    (RUNNING, b"settle 12345678901234567", 2),
    (RUNNING, b"settle 1234567890123456", 3),
    (RUNNING, b"deliver 5", 2),
    (RUNNING, b"deliver m", 2),
    (RUNNING, b"deliver m05", 2),
    (RUNNING, b"deliver m5", 0),
    (RUNNING, b"close ALL", 2),
    (RUNNING, b"lease renew r1", 2),
    (RUNNING, b"show clock", 2),
    (RUNNING, b"show flight x", 2),
];

#[test]
fn first_words_and_forms(rt: HostRuntime) {
    assert_eq!(rt;
        answered(rt.alloc(), &WORDS_AND_FORMS),
        WORDS_AND_FORMS.len()
    );
}

const NODE_LINES: [(&[u8], &[u8], u8); 15] = [
    (SETUP, b"node n3 a-1 b-2 1", 0),
    (SETUP, b"node n3 A b 1", 2),
    (SETUP, b"node n3 1a b 1", 2),
    (SETUP, b"node n3 a_1 b 1", 2),
    (SETUP, b"node n3 a  1", 2),
    (SETUP, b"node n3 a b", 2),
    (SETUP, b"node n3 abcdefghijklmnopqrstuvwxyz012345 b 1", 0),
    (SETUP, b"node n3 abcdefghijklmnopqrstuvwxyz0123456 b 1", 2),
    (SETUP, b"node n3 a b 0", 3),
    (SETUP, b"node n3 a b 9007199254740991", 0),
    (SETUP, b"node n3 a b 9007199254740992", 3),
    (SETUP, b"node n2 a b 1", 3),
    (SETUP, b"node n4 a b 1", 3),
    (SETUP, b"node n0 a b 1", 3),
    (SETUP, b"cluster", 5),
];

#[test]
fn lines_of_nodes(rt: HostRuntime) {
    assert_eq!(rt; answered(rt.alloc(), &NODE_LINES), NODE_LINES.len());
}

const NOTHING: &[u8] = b"# nothing yet";

const FIRST_LINES: [(&[u8], &[u8], u8); 8] = [
    (
        NOTHING,
        b"cluster max_offset 1 lease 2 lag 3 lead 4 expire 5",
        0,
    ),
    (NOTHING, b"cluster lag 3 expire 3600000", 0),
    (NOTHING, b"cluster lag 3 lease 2", 2),
    (NOTHING, b"cluster lag 3 lag 3", 2),
    (NOTHING, b"cluster lag", 2),
    (NOTHING, b"cluster ", 2),
    (NOTHING, b"cluster expire 3600001", 3),
    (NOTHING, b"begin", 5),
];

#[test]
fn first_lines(rt: HostRuntime) {
    assert_eq!(rt; answered(rt.alloc(), &FIRST_LINES), FIRST_LINES.len());
}

const TRANSACTIONS: [(&[u8], &[u8], u8); 18] = [
    (RUNNING, b"txn t2 n1 now", 2),
    (RUNNING, b"txn t2 n1 now ", 0),
    (RUNNING, b"txn t2 n1 soon x", 2),
    (RUNNING, b"txn tX n1 now x", 2),
    (RUNNING, b"txn t-2 n1 now x", 2),
    (RUNNING, b"txn t_2 n1 now x", 0),
    (RUNNING, b"txn t2 n1 ago 5", 2),
    (RUNNING, b"txn t2 n1 ago 3600000 x", 0),
    (RUNNING, b"txn t2 n1 ago 3600001 x", 3),
    (RUNNING, b"txn t2 n1 within 5", 2),
    (RUNNING, b"txn t2 n1 within 5 any", 0),
    (RUNNING, b"txn t2 n1 within 5 any ", 0),
    (RUNNING, b"txn t2 n1 within 3600001 any x", 3),
    (RUNNING, b"txn t2 n3 now x", 4),
    (RUNNING, b"txn t1 n1 now x", 7),
    (RUNNING, b"timeout t1", 0),
    (RUNNING, b"timeout t2", 12),
    (RUNNING, b"timeout t1 ", 2),
];

#[test]
fn forms_of_transactions(rt: HostRuntime) {
    assert_eq!(rt; answered(rt.alloc(), &TRANSACTIONS), TRANSACTIONS.len());
}

const NODES_AND_RANGES: [(&[u8], &[u8], u8); 25] = [
    (RUNNING, b"tick n2 3600000", 0),
    (RUNNING, b"tick all 3600001", 3),
    (RUNNING, b"tick n3 5", 4),
    (RUNNING, b"tick n0 5", 4),
    (RUNNING, b"tick n4294967297 5", 4),
    (RUNNING, b"apply n1 r1 9999999999999999", 0),
    (RUNNING, b"apply n2 r1 1", 9),
    (RUNNING, b"apply n1 r2 1", 4),
    (RUNNING, b"apply n1 r4294967297 1", 4),
    (RUNNING, b"lease acquire r1 n2", 0),
    (RUNNING, b"lease transfer r0 n2", 4),
    (RUNNING, b"lease extend r1", 0),
    (RUNNING, b"close r1", 0),
    (RUNNING, b"close all", 0),
    (RUNNING, b"stop n1", 0),
    (RUNNING, b"start n1", 9),
    (RUNNING, b"show range r1", 0),
    (RUNNING, b"show node n3", 4),
    (RUNNING, b"show fresh n2", 0),
    (RUNNING, b"show flight", 0),
    (RUNNING, b"deliver m6", 8),
    (RUNNING, b"drop m0", 8),
    (RUNNING, b"drop m5", 0),
    (RUNNING, b"node n3 a b 1", 6),
    (RUNNING, b"begin", 6),
];

#[test]
fn faults_by_nodes_and_ranges(rt: HostRuntime) {
    assert_eq!(rt;
        answered(rt.alloc(), &NODES_AND_RANGES),
        NODES_AND_RANGES.len()
    );
}

const STOPS_AND_CLOCKS: [(&[u8], &[u8], u8); 16] = [
    (STOPPED, b"txn t2 n1 now x", 9),
    (STOPPED, b"txn t2 n2 now x", 0),
    (STOPPED, b"apply n1 r1 1", 9),
    (STOPPED, b"stop n1", 9),
    (STOPPED, b"lease acquire r1 n1", 9),
    (STOPPED, b"lease transfer r1 n1", 9),
    (STOPPED, b"show fresh n1", 9),
    (STOPPED, b"show node n1", 0),
    (STOPPED, b"start n1", 0),
    (STOPPED, b"start n2", 9),
    (STOPPED, b"tick n1 1", 0),
    (STOPPED, b"tick n1 2", 3),
    (STOPPED, b"tick n2 2", 0),
    (STOPPED, b"tick all 1", 0),
    (STOPPED, b"tick all 2", 3),
    (STOPPED, b"settle 2", 3),
];

#[test]
fn faults_by_stops_and_clocks(rt: HostRuntime) {
    assert_eq!(rt;
        answered(rt.alloc(), &STOPS_AND_CLOCKS),
        STOPS_AND_CLOCKS.len()
    );
}

const TICKED: &[u8] = b"cluster
node n1 us-east a 9007199254740980
node n2 us-west b 1000
begin
tick n1 5
tick n2 100
tick all 3
stop n1
settle 2
start n1";

const TICKS: [(&[u8], &[u8], u8); 2] = [(TICKED, b"tick all 1", 0), (TICKED, b"tick n1 2", 3)];

#[test]
fn clocks_add_up(rt: HostRuntime) {
    assert_eq!(rt; answered(rt.alloc(), &TICKS), TICKS.len());
}

const TWO_FAULTS: [(&[u8], &[u8], u8); 25] = [
    (RUNNING, b"grain \xff", 1),
    (RUNNING, b"tick n9 3600001 x", 2),
    (b"", b"node n1 a", 2),
    (b"", b"grain", 1),
    (SETUP, b"drain x", 2),
    (b"", b"node n2 a b 1", 3),
    (SETUP, b"cluster lease 3600001", 3),
    (SETUP, b"settle 3600001", 3),
    (RUNNING, b"node n4 a b 1", 3),
    (RUNNING, b"tick n9 3600001", 3),
    (RUNNING, b"txn t1 n1 ago 3600001 x", 3),
    (STOPPED, b"txn t2 n1 ago 3600001 x", 3),
    (b"", b"begin", 5),
    (b"", b"sql x", 5),
    (b"", b"stop n9", 5),
    (b"", b"deliver m1", 5),
    (b"", b"timeout t1", 5),
    (b"cluster", b"sql x", 6),
    (SETUP, b"stop n9", 6),
    (SETUP, b"deliver m1", 6),
    (SETUP, b"start n1", 6),
    (SETUP, b"timeout t1", 6),
    (RUNNING, b"txn t1 n9 now x", 4),
    (STOPPED, b"lease acquire r9 n1", 4),
    (STOPPED, b"txn t1 n1 now x", 7),
];

#[test]
fn of_two_faults_the_first(rt: HostRuntime) {
    assert_eq!(rt; answered(rt.alloc(), &TWO_FAULTS), TWO_FAULTS.len());
}

const IN_ZONES: [(&[u8], u8); 10] = [
    (b"begin", 6),
    (b"begin x", 2),
    (b"drain", 6),
    (b"show fresh n9", 6),
    (b"timeout t1", 6),
    (b"drop m5", 6),
    (b"txn t1 n1 within 5 any x", 6),
    (b"tick all 3600001", 3),
    (b"sql x", 0),
    (b"node n3 a b 1", 0),
];

/// How many of the lines are answered so where ranges are all that the scenario is read for.
fn answered_in_zones(alloc: Global, lines: &[(&[u8], u8)]) -> usize {
    for (i, (line, fault)) in lines.iter().enumerate() {
        if number_of(read_behind(alloc, true, SETUP, line)) != *fault {
            return i;
        }
    }
    lines.len()
}

#[test]
fn in_zones_nothing_begins(rt: HostRuntime) {
    assert_eq!(rt; answered_in_zones(rt.alloc(), &IN_ZONES), IN_ZONES.len());
}
