//! How a transaction goes.

ghost use Rattle.std.specs.Prelude.{◌≡◌, ◌↔◌, IsTrue};
ghost use Rattle.one_node.specs.Courses.{IsServable, Goes};

use crate::range::Range;
use crate::transaction::{BOOT, Begun, NODE};
use closed_ts::by_lease;
use region_sql::OneColumnStatement;

/// How a transaction goes on the one node, which is known once it began.
#[derive(Clone, Copy)]
pub enum Course {
    /// The node may not serve.
    Unserved,
    /// A row with this id is there.
    Duplicate(i64),
    /// A row with this id is added.
    Inserts(i64),
    /// All rows are answered.
    Selects,
}

/// Whether the node may serve the transaction's reads.
fn is_servable(range: &Range, begun: Begun) -> bool
    ensures { IsTrue result ↔ IsServable range.now.lease begun }
{
    match &range.lease {
        None => false,
        Some(lease) => by_lease(lease, NODE, BOOT, begun.start, Some(begun.limit)),
    }
}

/// The course of a transaction with this statement.
pub fn course_of(range: &Range, begun: Begun, statement: OneColumnStatement) -> Course
    ensures { Goes range.now begun statement result }
{
    if !is_servable(range, begun) {
        return Course::Unserved;
    }
    match statement {
        OneColumnStatement::SelectAll => Course::Selects,
        OneColumnStatement::Insert(n) => {
            if range.ids.contains(&n) {
                Course::Duplicate(n)
            } else {
                Course::Inserts(n)
            }
        }
    }
}
