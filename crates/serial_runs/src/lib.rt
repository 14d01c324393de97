//! What follows from the laws of lawful runs: one order of the decided transactions explains all answers.
#![tactic(auto)]

mod laws;

pub use laws::{decided_are_ordered, decided_reads_agree, lawful_is_serial};
