//! Statements one after the other on a plain table, with ample memory.

use mr_base::{Datum, ListOf, Row, SqlState};
use region_sql::OneColumnStatement;
use sql_eval::execute_one_column;
use std::test::Fail;

/// Whether the rows have these ids, in this order.
fn have_ids(rows: &[Row], ids: &[i64]) -> bool {
    if rows.len() != ids.len() {
        return false;
    }
    for (row, id) in rows.iter().zip(ids) {
        match row.as_slice() {
            [Datum::Int(n)] => {
                if n != id {
                    return false;
                }
            }
            _ => return false,
        }
    }
    true
}

#[test]
fn a_row_is_inserted_once(rt: HostRuntime) -> Result<(), Fail> {
    let alloc = rt.alloc();
    let one = execute_one_column(alloc, OneColumnStatement::Insert(1), &[])?
        .ok()
        .ok_or("a fault")?;
    assert!(rt; one.count == 1 && one.rows.is_empty());
    let all = execute_one_column(alloc, OneColumnStatement::SelectAll, one.after.as_slice())?;
    let all = all.ok().ok_or("a fault")?;
    assert!(rt; all.count == 1 && have_ids(all.rows.as_slice(), &[1]));
    let again = execute_one_column(alloc, OneColumnStatement::Insert(1), all.after.as_slice())?;
    assert!(rt; matches!(again, Err(SqlState::S23505)));
    Ok(())
}

#[test]
fn rows_stand_in_the_order_of_their_ids(rt: HostRuntime) -> Result<(), Fail> {
    let alloc = rt.alloc();
    let mut table = ListOf::new(alloc);
    for n in [0, -1, i64::MAX, 7, i64::MIN] {
        let added = execute_one_column(alloc, OneColumnStatement::Insert(n), table.as_slice())?;
        table = added.ok().ok_or("a fault")?.after;
    }
    let all = execute_one_column(alloc, OneColumnStatement::SelectAll, table.as_slice())?;
    let all = all.ok().ok_or("a fault")?;
    assert!(rt; all.count == 5);
    assert!(rt; have_ids(all.rows.as_slice(), &[i64::MIN, -1, 0, 7, i64::MAX]));
    assert!(rt; have_ids(all.after.as_slice(), &[i64::MIN, -1, 0, 7, i64::MAX]));
    Ok(())
}
