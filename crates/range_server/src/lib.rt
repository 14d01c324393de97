//! The server of a replica of a range at its node: it serves reads by its lease or by what was closed, appends
//! to the range's log while it holds the lease, and takes, hands on and extends the lease.
#![tactic(auto)]

mod handling;
mod leases;
mod puts;
mod reads;
mod reads_seen;
mod records;
mod resolves;
mod server;
mod standing;

pub use leases::LeaseRefusal;
pub use reads::{Handled, Right};
pub use server::Server;
