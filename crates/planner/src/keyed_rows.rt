//! Rows by their primary keys.

ghost use Rattle.std.specs.Prelude.{◌≡◌, [], IfOk, OnOk, map, filter};
ghost use Rattle.std.specs.FinMap.Entries.{find, put};
ghost use Rattle.std.specs.Option.{option_copied};
ghost use Rattle.row_locality.specs.Pairs.{bytes_cmp};
ghost use Rattle.sql_eval.specs.Evaluation.{rows_of};
ghost use Rattle.sql_eval.specs.RowWords.{matches};

use descriptors::Table;
use mr_base::{Bytes, CloneIn, Memory, Row, RowList};
use region_sql::Term;
use sql_eval::matches;
use std::alloc::Global;
use std::collections::BTreeMap;
use std::marker::Model;

/// Rows by the bytes of their primary keys, in the order of these.
#[derive(Drop)]
pub(crate) struct KeyedRows {
    rows: BTreeMap<Bytes, Row>,
}

impl Model for KeyedRows {
    ghost use Rattle.std.specs.Prelude.{List};
    ghost use Rattle.sql_eval.specs.Evaluation.{KeyedRow};

    ghost Value = { List KeyedRow };

    ghost view = { λ k. k.rows.entries };
}

impl KeyedRows {
    pub(crate) fn new(alloc: Global) -> KeyedRows
        ensures { result ≡ [] }
    {
        KeyedRows {
            rows: BTreeMap::new(alloc),
        }
    }

    /// Puts a row in its place; another row of its key is no longer there.
    pub(crate) fn put(&mut self, key: Bytes, row: Row) -> Result<(), Memory>
        ensures { OnOk result (self.new ≡ put bytes_cmp key row self.old) }
    {
        self.rows.insert(key, row)?;
        Ok(())
    }

    /// The row of a key.
    pub(crate) fn get(&self, key: &Bytes) -> Option<&Row>
        ensures { option_copied result ≡ find bytes_cmp key.now self.now }
    {
        self.rows.get(key)
    }

    /// Copies of the rows in the order of their keys.
    pub(crate) fn rows(&self, alloc: Global) -> Result<RowList, Memory>
        ensures { IfOk result (λ rows. rows ≡ rows_of self.now) }
    {
        let mut rows = RowList::new(alloc);
        for (_, row) in self.rows.iter() {
            rows.push(row.clone_in(alloc)?)?;
        }
        Ok(rows)
    }

    /// The rows that match, with their keys.
    pub(crate) fn into_matching(self, t: &Table, terms: &[Term]) -> KeyedRows
        ensures { result ≡ filter (λ x. matches t.now terms.now x.1) self }
    {
        KeyedRows {
            rows: matching(self.rows, t, terms),
        }
    }
}

/// The rows that match.
fn matching(rows: BTreeMap<Bytes, Row>, t: &Table, terms: &[Term]) -> BTreeMap<Bytes, Row>
    ensures { result.entries ≡ filter (λ x. matches t.now terms.now x.1) rows.entries }
{
    let mut rows = rows;
    rows.retain(|_, row| matches(t, terms, row.as_slice()));
    rows
}
