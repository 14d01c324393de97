//! Tests of the server of a range, over its public calls.
#![tactic(auto)]

#[cfg(test)]
mod tests;
