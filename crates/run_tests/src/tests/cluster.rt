//! The journal of a cluster of one node beside its lines written out by hand, and its answers beside those of the
//! plain program.

use journal::{Event, JournalEntry, standard_settings};
use journal_text::{Mode, text_of};
use mr_base::{Bytes, Kind, ListOf, NodeId, RowList, SqlState, StatementResult, TxnId, Verb};
use one_node::Cluster;
use region_sql::{OneColumnStatement, one_column_statement};
use sql_eval::{OneColumnExecution, execute_one_column};
use std::alloc::Global;
use std::test::Fail;

const NAMES: [&[u8]; 3] = [b"t1", b"t2", b"t3"];

/// The texts of the transactions, which are lines 6 to 8 of the scenario.
const LISTS: [&[u8]; 3] = [
    b"INSERT INTO t (id) VALUES (1)",
    b"SELECT * FROM t",
    b"INSERT INTO t (id) VALUES (1)",
];

/// The trace from `begin` on, which is line 5, where the node's clock stands at 1000.
const TRACE: &[u8] = b"event 5
append r1 1 lease 1 n1 boot 1 expires 7000 low 0.0.0
event 6
begin t1 a1 n1 start 1000.0.1 limit 1500
serve a1 n1 r1 [008000000000000001,00800000000000000100) at 1000.0.1 limit 1500 log 1 by lease fates -
append r1 2 put a1 start 1000.0.1 anchor r1 at 1000.0.1 key 008000000000000001 value 010000000000000001
append r1 3 record a1 committed 1000.0.1
append r1 4 resolve a1 key 008000000000000001 committed 1000.0.1
ack t1 1000.0.1
= insert 1
event 7
begin t2 a2 n1 start 1000.1.2 limit 1500
serve a2 n1 r1 [00,01) at 1000.1.2 limit 1500 log 4 by lease fates -
ack t2 1000.1.2
= select 1
  1
event 8
begin t3 a3 n1 start 1000.2.3 limit 1500
serve a3 n1 r1 [008000000000000001,00800000000000000100) at 1000.2.3 limit 1500 log 4 by lease fates -
fault t3 1000.2.3 23505
";

/// A cluster that has begun, whose node's clock stands at 1000.
fn begun(alloc: Global) -> Result<Cluster, Fail> {
    let mut cluster = Cluster::new(alloc, standard_settings(), 1000);
    cluster.step(5, &Event::Begin)?;
    Ok(cluster)
}

/// Runs a transaction of this text, where the cluster has begun.
fn run(alloc: Global, cluster: &mut Cluster, k: u32, list: &[u8]) -> Result<(), Fail> {
    if cluster.journal().is_empty() || one_column_statement(list).is_none() {
        return Err(Fail::from("no line of the cluster"));
    }
    let event = Event::Txn {
        txn: TxnId(k),
        gateway: NodeId(1),
        kind: Kind::Now,
        list: Bytes::from_slice(alloc, list)?,
    };
    cluster.step(k.saturating_add(6), &event)?;
    Ok(())
}

fn names(alloc: Global) -> Result<Vec<Bytes>, Fail> {
    let mut names = Vec::new(alloc);
    for name in NAMES {
        names.push(Bytes::from_slice(alloc, name)?)?;
    }
    Ok(names)
}

fn trace_of(alloc: Global, journal: &[JournalEntry]) -> Result<Vec<u8>, Fail> {
    let names = names(alloc)?;
    let mut trace = Vec::new(alloc);
    for entry in journal {
        let text = text_of(alloc, names.as_slice(), entry, Mode::Trace)?;
        trace.extend_from_slice(text.as_slice())?;
    }
    Ok(trace)
}

#[test]
fn the_first_journal_is_the_one_written_by_hand(rt: HostRuntime) -> Result<(), Fail> {
    let alloc = rt.alloc();
    let mut cluster = begun(alloc)?;
    for (k, list) in (0..).zip(LISTS) {
        run(alloc, &mut cluster, k, list)?;
    }
    let trace = trace_of(alloc, cluster.journal())?;
    assert!(rt; trace.as_slice() == TRACE);
    assert!(rt; cluster.journal().len() == 17);
    Ok(())
}

/// Every third statement is a SELECT. The ids come again, so that an INSERT may meet a row that is there.
fn statement(k: u32) -> OneColumnStatement {
    if k % 3 == 2 {
        OneColumnStatement::SelectAll
    } else {
        OneColumnStatement::Insert(i64::from(k.wrapping_mul(k) % 89))
    }
}

fn statement_text(alloc: Global, statement: OneColumnStatement) -> Result<String, Fail> {
    match statement {
        OneColumnStatement::Insert(n) => Ok(format!(in alloc; "INSERT INTO t (id) VALUES ({n})")?),
        OneColumnStatement::SelectAll => Ok(String::from_str(alloc, "SELECT * FROM t")?),
    }
}

fn verb_of(statement: OneColumnStatement) -> Verb {
    match statement {
        OneColumnStatement::Insert(_) => Verb::Insert,
        OneColumnStatement::SelectAll => Verb::Select,
    }
}

/// Whether the one result of a transaction is what the plain program gives.
fn is_result(results: &[StatementResult], verb: Verb, plain: &OneColumnExecution) -> bool {
    match results {
        [one] => one.verb == verb && one.count == plain.count as u64 && one.rows == plain.rows,
        _ => false,
    }
}

fn is_acknowledged(entry: &JournalEntry, verb: Verb, plain: &OneColumnExecution) -> bool {
    match entry {
        JournalEntry::Ack { results, .. } => is_result(results.as_slice(), verb, plain),
        _ => false,
    }
}

fn is_fault(entry: &JournalEntry, fault: SqlState) -> bool {
    match entry {
        JournalEntry::Fault { state, .. } => *state == fault,
        _ => false,
    }
}

/// Runs the statement of this number on the cluster and on the table of the plain program. The table changes as
/// the plain program says. Whether the statement has a fault there.
fn run_beside(
    alloc: Global,
    cluster: &mut Cluster,
    table: &mut RowList,
    k: u32,
) -> Result<bool, Fail> {
    let statement = statement(k);
    let text = statement_text(alloc, statement)?;
    run(alloc, cluster, k, text.as_bytes())?;
    let last = cluster.journal().last().ok_or("no entry")?;
    match execute_one_column(alloc, statement, table.as_slice())? {
        Ok(plain) if is_acknowledged(last, verb_of(statement), &plain) => {
            *table = plain.after;
            Ok(false)
        }
        Err(fault) if is_fault(last, fault) => Ok(true),
        _ => Err(Fail::from("another answer than the plain program's")),
    }
}

#[test]
fn answers_are_those_of_a_serial_run_on_one_site(rt: HostRuntime) -> Result<(), Fail> {
    let alloc = rt.alloc();
    let mut cluster = begun(alloc)?;
    let mut table = ListOf::new(alloc);
    let mut duplicates: u32 = 0;
    for k in 0..200 {
        if run_beside(alloc, &mut cluster, &mut table, k)? {
            duplicates = duplicates.saturating_add(1);
        }
    }
    assert!(rt; duplicates > 50 && table.as_slice().len() > 30);
    Ok(())
}
