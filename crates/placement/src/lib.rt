//! Which nodes hold the replicas of a range, and what a placement survives.
#![tactic(auto)]

mod chosen;
mod fitting;
mod laws;
mod majority;
mod placed;
mod placement_types;

pub use fitting::{fits, serve_for};
pub use laws::placed_where_one_fits;
pub use majority::keeps_majority;
pub use placed::place;
pub use placement_types::{PlaceRefusal, Placement};
