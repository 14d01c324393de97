//! The journal of a run: what a line of a scenario asks of the cluster, and what is kept of what it does.
#![tactic(auto)]

mod entries;
mod events;
mod journal;
mod settings;

pub use entries::{How, JournalEntry, LeaseWhy, Shown, SqlWhy, Why};
pub use events::{Event, copy_of_event};
pub use journal::Journal;
pub use mr_base::{StatementResult, Verb};
pub use settings::standard_settings;
