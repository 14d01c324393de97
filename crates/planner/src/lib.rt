//! The planner of a list of statements: what was fed, what was written, and what is read through both; and
//! the plan, which needs span after span, and then answers and writes.
#![tactic(auto)]

mod beginnings;
mod found_rows;
mod fresh_spans;
mod index_search;
mod inserts;
mod keyed_rows;
mod known_spans;
mod looking;
mod own_writes;
mod phases;
mod plan;
mod progress;
mod row_scan;
mod row_writes;
mod setting;
mod turns;
mod unique_check;

pub use known_spans::KnownSpans;
pub use looking::read_through;
pub use own_writes::{Change, OwnWrites, Place};
pub use plan::{Plan, plans_are_executed};
