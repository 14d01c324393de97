//! Tests of generated scenarios, over the public calls.
#![tactic(auto)]

#[cfg(test)]
mod tests;
