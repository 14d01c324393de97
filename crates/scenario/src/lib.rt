//! The lines of a scenario. What they ask of the cluster, the journal of what it does and the text of
//! both stand in crates of their own, whose names are given on here.
#![tactic(auto)]

mod first_path;
mod forms;
mod grammar;
mod judgements;
mod lines;
mod reader;
mod seen;
mod seen_nodes;
mod taking;
mod txn_names;
mod words;
mod world;

pub use first_path::{Expected, FirstPath};
pub use journal::{
    Event, How, Journal, JournalEntry, LeaseWhy, Shown, SqlWhy, StatementResult, Verb, Why,
    standard_settings,
};
pub use journal_text::{Mode, counts_of, text_of, texts_stay};
pub use lines::{Line, LineFault};
pub use reader::{Scenario, lines_are_sound};
pub use world::{NoWorld, World};
