//! The words of the command line.
#![tactic(auto)]

mod reading;
mod words;

pub use words::{Command, command_of};
