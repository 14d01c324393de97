//! Tests of the planner: what was fed, what was written, and what lists of statements need, write and answer,
//! over public calls alone.
#![tactic(auto)]

#[cfg(test)]
mod tests;
