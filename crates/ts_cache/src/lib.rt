//! The timestamps at which the keys of a range were read, so that nothing is written below a read.
#![tactic(auto)]

mod cache;
mod held;
mod index;
mod laws;
mod meeting;

pub use cache::TsCache;
pub use laws::{adding_keeps_bounds, adding_raises, answers_are_named, top_is_greatest};
pub use meeting::spans_that_meet;
