//! The lines of leases, of region statements, and of what a scenario asks to be shown.

use super::{Family, START, bytes, shown, stopped};
use journal::{JournalEntry, LeaseWhy, SqlWhy};
use journal_text::Mode;
use mr_base::{ListOf, Memory, MsgId, NodeId, RangeId, Reading, SqlState, Ts};
use std::alloc::Global;
use std::test::Fail;

const LEASES: [&[u8]; 6] = [
    b"lease r1 2 n2 13001\n",
    b"lease r1 refused notvoter\n",
    b"lease r1 refused live 7000\n",
    b"lease r1 refused notholder\n",
    b"lease r1 refused noquorum n2,n64\n",
    b"close r1 refused noquorum n2,n64\n",
];

fn lease_why(place: usize) -> LeaseWhy {
    match place {
        1 => LeaseWhy::NotVoter,
        2 => LeaseWhy::Live { expiration: 7000 },
        3 => LeaseWhy::NotHolder,
        _ => LeaseWhy::NoQuorum { down: stopped() },
    }
}

pub(super) fn lease(place: usize) -> JournalEntry {
    let range = RangeId(1);
    match place {
        0 => JournalEntry::Lease {
            range,
            seq: 2,
            holder: NodeId(2),
            expiration: 13001,
        },
        5 => JournalEntry::CloseRefused {
            range,
            why: lease_why(place),
        },
        _ => JournalEntry::LeaseRefused {
            range,
            why: lease_why(place),
        },
    }
}

#[test]
fn leases_are_written(rt: HostRuntime) -> Result<(), Fail> {
    assert_eq!(rt;
        shown(rt.alloc(), Mode::Answers, Family::Leases, &LEASES)?,
        LEASES.len()
    );
    Ok(())
}

const STATEMENTS: [&[u8]; 6] = [
    b"sql refused 42P04\n",
    b"sql refused D11\n",
    b"sql refused P1 us-east 3 2\n",
    b"sql refused busy 1 2\n",
    b"sql refused future 1800\n",
    b"sql accepted 1000.0.1\n",
];

fn sql_why(alloc: Global, place: usize) -> Result<SqlWhy, Memory> {
    match place {
        0 => Ok(SqlWhy::State(SqlState::S42P04)),
        1 => Ok(SqlWhy::D(11)),
        2 => Ok(SqlWhy::Unplaceable {
            region: bytes(alloc, b"us-east")?,
            wanted: 3,
            found: 2,
        }),
        3 => Ok(SqlWhy::Busy {
            unfinished: 1,
            flight: 2,
        }),
        _ => Ok(SqlWhy::Future { wall: 1800 }),
    }
}

pub(super) fn statement(alloc: Global, place: usize) -> Result<JournalEntry, Memory> {
    if place == 5 {
        return Ok(JournalEntry::Schema { ts: START });
    }
    Ok(JournalEntry::SqlRefused {
        why: sql_why(alloc, place)?,
    })
}

#[test]
fn statements_are_written(rt: HostRuntime) -> Result<(), Fail> {
    assert_eq!(rt;
        shown(rt.alloc(), Mode::Answers, Family::Statements, &STATEMENTS)?,
        STATEMENTS.len()
    );
    Ok(())
}

const SHOWS: [&[u8]; 6] = [
    b"range r1 lease 2 n2 13001 closed 0.0.0 log 2\n",
    b"node n2 clock 7001.0 running boot 1\n",
    b"node n2 clock 7001.0 stopped boot 1\n",
    b"flight -\n",
    b"flight m3 m10\n",
    b"fresh n4 r1=1999 r2=-\n",
];

fn flight(alloc: Global) -> Result<ListOf<MsgId>, Memory> {
    let mut messages = ListOf::new(alloc);
    messages.push(MsgId(3))?;
    messages.push(MsgId(10))?;
    Ok(messages)
}

fn fresh(alloc: Global) -> Result<ListOf<(RangeId, Option<u64>)>, Memory> {
    let mut ranges = ListOf::new(alloc);
    ranges.push((RangeId(1), Some(1999)))?;
    ranges.push((RangeId(2), None))?;
    Ok(ranges)
}

fn node(running: bool) -> JournalEntry {
    JournalEntry::ShowNode {
        node: NodeId(2),
        clock: Reading {
            wall: 7001,
            logical: 0,
        },
        running,
        boot: 1,
    }
}

pub(super) fn state(alloc: Global, place: usize) -> Result<JournalEntry, Memory> {
    match place {
        0 => Ok(JournalEntry::ShowRange {
            range: RangeId(1),
            seq: 2,
            holder: NodeId(2),
            expiration: 13001,
            closed: Ts::ZERO,
            log: 2,
        }),
        1 => Ok(node(true)),
        2 => Ok(node(false)),
        3 => Ok(JournalEntry::ShowFlight {
            messages: ListOf::new(alloc),
        }),
        4 => Ok(JournalEntry::ShowFlight {
            messages: flight(alloc)?,
        }),
        _ => Ok(JournalEntry::ShowFresh {
            node: NodeId(4),
            ranges: fresh(alloc)?,
        }),
    }
}

#[test]
fn shows_are_written(rt: HostRuntime) -> Result<(), Fail> {
    assert_eq!(rt;
        shown(rt.alloc(), Mode::Answers, Family::Shows, &SHOWS)?,
        SHOWS.len()
    );
    Ok(())
}
