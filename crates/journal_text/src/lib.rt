//! The text of a journal's entries, and of what a summary counts.
#![tactic(auto)]

mod answers;
mod buffer;
mod counts;
mod logs;
mod messages;
mod modes;
mod parts;
mod states;
mod steps;
mod text;

pub use counts::counts_of;
pub use modes::Mode;
pub use text::{text_of, texts_stay};
