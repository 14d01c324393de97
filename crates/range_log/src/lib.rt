//! The ordered log of a range.
#![tactic(auto)]

mod entries;
mod log;

pub use entries::{Entry, Lease, RetryCause, TxnState};
pub use log::{AppendRefusal, RangeLog, voters_that_are_down};
