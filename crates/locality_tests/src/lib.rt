//! Tests of rows as keys and values and of the searches for them, over public calls alone.
#![tactic(auto)]

#[cfg(test)]
mod tests;
