//! What a lawful run of a cluster is, as definitions on its journal and the scenario, and the laws that
//! follow from it.
#![tactic(auto)]

mod laws;

pub use laws::{lawful_is_serial, lawful_is_visible, served_is_held};
