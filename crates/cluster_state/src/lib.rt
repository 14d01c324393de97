//! What is kept of the nodes of a simulated cluster: their clocks, the ranges with their replicas, the messages in
//! flight and the journal, and the calls that change it, each of which leaves all tied to what has happened.
#![tactic(auto)]

mod applying;
mod attempts;
mod beginnings;
mod endings;
mod first_state;
mod handling;
pub mod hints;
mod leases;
mod lines;
mod mails;
mod making;
pub mod serving;
mod shows;
mod state;

pub use beginnings::Begun;
pub use leases::Ask;
pub use state::State;
