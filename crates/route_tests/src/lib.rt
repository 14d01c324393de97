//! Tests of where requests go next, and of hints, over the public calls.
#![tactic(auto)]

#[cfg(test)]
mod tests;
