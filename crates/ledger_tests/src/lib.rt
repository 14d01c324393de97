//! Tests of a run's ledger, and of copies of its events.
#![tactic(auto)]

#[cfg(test)]
mod tests;
