//! Which spans are looked up, and in which order.

mod key_lookups;
mod near_first;
mod statements;

use crate::tests::made_tables::table_in;
use descriptors::{Catalog, Table};
use local_search::{Lookup, Partition, RowSearch, Search, are_typed, asks, partitions, row_search};
use mr_base::{Bytes, ListOf, Pair, RangeId};
use region_sql::{RowStatement, Statement, Term, parse_statement};
use std::alloc::Global;
use std::test::Fail;

/// A table with a partition in each region. Ranges are numbered from 1, in catalog order.
const BY_ROW: &str =
    "CREATE TABLE t (id INT PRIMARY KEY, s STRING UNIQUE) LOCALITY REGIONAL BY ROW";

/// The statement that a text is.
fn read(alloc: Global, text: &str) -> Result<RowStatement, Fail> {
    match parse_statement(alloc, text.as_bytes()) {
        Ok(Statement::Row(statement)) => Ok(statement),
        Ok(_) | Err(_) => Err(Fail::from("no statement on rows")),
    }
}

/// The terms of a statement, of which an INSERT has none.
fn terms_of(statement: &RowStatement) -> &[Term] {
    match statement {
        RowStatement::Select { terms, .. } => terms.as_slice(),
        RowStatement::Update { terms, .. } => terms.as_slice(),
        RowStatement::Delete { terms, .. } => terms.as_slice(),
        RowStatement::Insert { .. } => &[],
    }
}

/// The partitions of the table.
#[tactic(auto, using(crate::proofs::TableFacts::few_partitions))]
fn partitions_in(alloc: Global, catalog: &Catalog, t: &Table) -> Result<ListOf<Partition>, Fail> {
    match catalog.database(b"d") {
        Some(database) if database.regions.len() <= 16 => {
            Ok(partitions(alloc, t, database, RangeId(1))?)
        }
        _ => Err(Fail::from("no database")),
    }
}

/// How a statement finds its rows from a gateway in a region.
fn search_of(
    alloc: Global,
    catalog: &Catalog,
    gateway: &[u8],
    text: &str,
) -> Result<RowSearch, Fail> {
    let table = table_in(catalog)?;
    let statement = read(alloc, text)?;
    let terms = terms_of(&statement);
    if !are_typed(table, terms) {
        return Err(Fail::from("terms of other types"));
    }
    let partitions = partitions_in(alloc, catalog, table)?;
    Ok(row_search(alloc, table, partitions.as_slice(), gateway, terms)?)
}

/// The ranges of look-ups in their order.
fn ranges_of(alloc: Global, lookups: &[Lookup]) -> Result<Vec<u32>, Fail> {
    let mut ranges = Vec::new(alloc);
    for lookup in lookups {
        ranges.push(lookup.ask().range.0)?;
    }
    Ok(ranges)
}

/// A pair to be found.
fn one_pair(alloc: Global) -> Result<Vec<Pair>, Fail> {
    let pair = Pair {
        key: Bytes::from_slice(alloc, b"\x00")?,
        value: Bytes::from_slice(alloc, b"\x01")?,
    };
    Ok(vec![in alloc; pair]?)
}

/// The range that a search asks next, which is answered by a pair where it is this one.
fn next_range(alloc: Global, search: &mut Search, hit: u32) -> Result<Option<u32>, Fail> {
    let range = match search.next() {
        None => return Ok(None),
        Some(ask) => ask.range.0,
    };
    if range == hit {
        search.found(&one_pair(alloc)?)?;
    } else {
        search.found(&[])?;
    }
    Ok(Some(range))
}

/// The ranges that a search asks one after the other where one of them holds a pair, and how many pairs it
/// finds.
fn asked(alloc: Global, found_by: &RowSearch, hit: u32) -> Result<(Vec<u32>, usize), Fail> {
    let spans = asks(alloc, found_by.lookups.as_slice())?;
    let mut ranges = Vec::new(alloc);
    if spans.is_empty() {
        return Ok((ranges, 0));
    }
    let mut search = Search::new(alloc, &spans, 0, found_by.index.is_some())?;
    for _ in 0..spans.len() + 1 {
        match next_range(alloc, &mut search, hit)? {
            None => break,
            Some(range) => ranges.push(range)?,
        }
    }
    Ok((ranges, search.rows().len()))
}
