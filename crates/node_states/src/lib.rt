//! What a cluster begins with, what is kept of each of its nodes, and how both stand to what has happened.
#![tactic(auto)]

mod bodies;
mod first;
mod moves;
mod running;
mod stage;
mod starts;
mod states;

pub use bodies::{range_asked, sent_entry};
pub use first::first_nodes;
pub use moves::{Move, can_not_move, hear, move_of};
pub use running::{move_all, running_nodes};
pub use stage::{NodePlan, RangePlan, Stage};
pub use starts::{limit_at, next_reading, start_at};
pub use states::NodeState;
