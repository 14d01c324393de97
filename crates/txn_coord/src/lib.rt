//! The coordinator of a transaction at its gateway: it reads the spans that a script needs, lays the
//! script's writes, and commits them at one timestamp.
#![tactic(auto)]

mod beginning;
mod fates;
mod moves;
mod moving;
mod progress;
mod refusing;
mod replies;
mod requests;
mod transaction;

pub use moves::{Move, Refusal};
pub use progress::{Back, Course, Obstacle, Progress};
pub use refusing::RETRY_LIMIT;
pub use transaction::Txn;
