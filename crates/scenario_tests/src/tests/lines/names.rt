//! The names of transactions.

use super::{RUNNING, read_all};
use mr_base::TxnId;
use scenario::Scenario;

/// Whether the transaction of a name is the second one, and is found by its number too.
fn is_second(scenario: &Scenario, name: &[u8]) -> bool {
    match scenario.txn(name) {
        Some(txn) => txn == TxnId(1) && scenario.name(txn) == name,
        None => false,
    }
}

/// A scenario in which the second transaction was refused and then read.
fn refused_first(scenario: &mut Scenario) -> bool {
    let refused = read_all(scenario, RUNNING) && !read_all(scenario, b"txn t2 n9 now x");
    let unknown = scenario.txn(b"t2").is_none();
    refused && unknown && read_all(scenario, b"txn t2 n1 now x")
}

#[test]
fn a_refused_line_does_not_count(rt: HostRuntime) {
    let mut scenario = Scenario::new(rt.alloc(), false);
    assert!(rt; refused_first(&mut scenario));
    assert!(rt; is_second(&scenario, b"t2") && scenario.names().len() == 2);
}
