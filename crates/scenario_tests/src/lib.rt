//! Tests of the journal, of its text, and of the lines of a scenario.
#![tactic(auto)]

#[cfg(test)]
mod tests;
