//! Tests of zone configurations, placements and the report of ranges, over public calls.
#![tactic(auto)]

#[cfg(test)]
mod tests;
