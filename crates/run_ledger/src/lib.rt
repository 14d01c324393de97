//! The history of a run, as it is kept: its journal, and the lines of the scenario and the ticks in between.
#![tactic(auto)]

mod ledger;
mod marks;

pub use ledger::Ledger;
