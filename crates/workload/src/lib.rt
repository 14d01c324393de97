//! Scenarios that are generated from a seed: transactions over nine nodes in three regions, drawn one after the other.
#![tactic(auto)]

mod draws;
mod generated;
mod transactions;

pub use generated::{GenFault, gen_text, generate};
