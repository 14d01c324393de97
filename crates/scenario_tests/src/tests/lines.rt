//! The lines of a scenario: what each form says, each fault, which of two faults goes first, and the limits.

mod events;
mod faults;
mod forms;
mod limits;
mod names;

use mr_base::{MsgId, NodeId, RangeId, TxnId};
use scenario::{Line, LineFault, Scenario, World};
use std::alloc::Global;

/// A world with message 5 in flight, the live range 1, a replica of it at node 1, and the first
/// transaction waiting for message 5. A second range was made and is retired.
struct OneOfEach;

impl World for OneOfEach {
    ghost use Rattle.std.specs.Prelude.{[], ◌∷◌};

    ghost flight = { λ w. record { 0 = 5 } ∷ [] };

    ghost made = { λ w. 2 };

    ghost live_ranges = { λ w. record { 0 = 1 } ∷ [] };

    ghost replicas = { λ w. (record { 0 = 1 }, record { 0 = 1 }) ∷ [] };

    ghost awaited = { λ w. (record { 0 = 0 }, record { 0 = 5 }) ∷ [] };

    fn in_flight(&self, m: MsgId) -> bool {
        m == MsgId(5)
    }

    fn ranges(&self) -> u32 {
        2
    }

    fn live(&self, r: RangeId) -> bool {
        r == RangeId(1)
    }

    fn has_replica(&self, n: NodeId, r: RangeId) -> bool {
        n == NodeId(1) && r == RangeId(1)
    }

    fn awaits(&self, t: TxnId) -> Option<MsgId> {
        if t == TxnId(0) { Some(MsgId(5)) } else { None }
    }
}

const SETUP: &[u8] = b"cluster
node n1 us-east a 1000
node n2 us-west b 1000";

const RUNNING: &[u8] = b"cluster
node n1 us-east a 1000
node n2 us-west b 1000
begin
txn t1 n1 now x";

const STOPPED: &[u8] = b"cluster
node n1 us-east a 9007199254740990
node n2 us-west b 1000
begin
txn t1 n1 now x
stop n1";

/// Reads lines, and answers whether all are fine.
fn read_all(scenario: &mut Scenario, lines: &[u8]) -> bool {
    for line in lines.split(|b| *b == b'\n') {
        if scenario.read_line(line, &OneOfEach).is_err() {
            return false;
        }
    }
    true
}

/// Reads the lines of `head`, which are fine, and answers how `line` is read behind them.
fn read_behind(
    alloc: Global,
    zones_only: bool,
    head: &[u8],
    line: &[u8],
) -> Result<Line, LineFault> {
    let mut scenario = Scenario::new(alloc, zones_only);
    if !read_all(&mut scenario, head) {
        return Err(LineFault::S(99));
    }
    scenario.read_line(line, &OneOfEach)
}

/// The number of a fault, or 0.
fn number_of(read: Result<Line, LineFault>) -> u8 {
    match read {
        Ok(_) => 0,
        Err(LineFault::S(k)) => k,
        Err(LineFault::Memory) => 100,
    }
}

/// The fault of a line behind the lines of `head`, or 0.
fn fault_behind(alloc: Global, head: &[u8], line: &[u8]) -> u8 {
    number_of(read_behind(alloc, false, head, line))
}

/// How many of the lines, each behind the lines that come with it, are answered by the fault beside them,
/// up to the first that isn't.
fn answered(alloc: Global, lines: &[(&[u8], &[u8], u8)]) -> usize {
    for (i, (head, line, fault)) in lines.iter().enumerate() {
        if fault_behind(alloc, head, line) != *fault {
            return i;
        }
    }
    lines.len()
}
