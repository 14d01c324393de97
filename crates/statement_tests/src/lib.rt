//! Tests of how statements are read, what they make of the catalog and what they do to rows, over
//! public calls alone.
#![tactic(auto)]

#[cfg(test)]
mod tests;
