//! Tests of the parts of a node, over their public calls: a module a crate.
#![tactic(auto)]

#[cfg(test)]
mod tests;
