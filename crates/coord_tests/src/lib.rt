//! Tests of the coordinator of a transaction, over its public calls.
#![tactic(auto)]

#[cfg(test)]
mod tests;
