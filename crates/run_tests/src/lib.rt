//! Tests of the layer that runs scenarios, over its public calls: a module a crate.
#![tactic(auto)]

#[cfg(test)]
mod tests;
