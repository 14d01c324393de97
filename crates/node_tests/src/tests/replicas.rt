//! Reads and refreshes of replicas.

mod drawn;
mod lines;
mod plain;
mod steps;
mod table;
mod texts;

use drawn::first_difference;
use lines::{question_of, step_of};
use mr_base::Memory;
use mvcc_range::Replica;
use std::alloc::Global;
use std::test::Fail;
use steps::{answer, apply};
use table::TABLE;

/// Applies the entry that a line is. Whether it is one.
fn take_step(alloc: Global, replica: &mut Replica, line: &str) -> Result<bool, Memory> {
    let Some(step) = step_of(line) else {
        return Ok(false);
    };
    apply(alloc, replica, &step)?;
    Ok(true)
}

/// Whether a replica answers a question so.
fn answers(
    alloc: Global,
    replica: &Replica,
    question: &str,
    expected: &str,
) -> Result<bool, Memory> {
    let Some((asked, known)) = question_of(alloc, question)? else {
        return Ok(false);
    };
    let text = answer(alloc, replica, &asked, known.as_slice())?;
    Ok(text.as_str() == expected)
}

/// The first line of a table that isn't so, if there is one.
fn first_wrong<'a>(alloc: Global, table: &'a str) -> Result<Option<&'a str>, Memory> {
    let mut replica = Replica::new(alloc);
    for line in table.lines() {
        if line == "log" {
            replica = Replica::new(alloc);
            continue;
        }
        let good = match line.split_once(" -> ") {
            None => take_step(alloc, &mut replica, line)?,
            Some((question, expected)) => answers(alloc, &replica, question, expected)?,
        };
        if !good {
            return Ok(Some(line));
        }
    }
    Ok(None)
}

#[test]
fn reads_and_refreshes_give_what_the_table_says(rt: HostRuntime) -> Result<(), Fail> {
    let alloc = rt.alloc();
    assert_eq!(rt; first_wrong(alloc, TABLE)?, None);
    Ok(())
}

#[test]
fn drawn_logs_are_answered_as_the_plain_definition_does(rt: HostRuntime) -> Result<(), Fail> {
    let alloc = rt.alloc();
    assert_eq!(rt; first_difference(alloc, 5000)?, None);
    Ok(())
}
