//! Names with their places.
#![tactic(auto)]

mod places;

pub use places::NamePlaces;
