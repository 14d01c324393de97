//! Tests of the lowest crates, over their public calls: a module a crate.
#![tactic(auto)]

#[cfg(test)]
mod tests;
