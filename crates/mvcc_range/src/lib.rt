//! What a replica keeps of a range's log, and what a read of the log gives.
#![tactic(auto)]

mod answers;
mod facts;
mod key_state;
mod key_view;
mod keys;
mod lowest;
mod read_view;
mod reads;
mod refreshes;
mod replica;

pub use answers::{ReadAnswer, RefreshAnswer};
pub use key_state::Intent;
pub use replica::Replica;
