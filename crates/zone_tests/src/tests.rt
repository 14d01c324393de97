//! Worked examples in their exact bytes, and placements beside a search over all choices.

mod configurations;
mod layouts;
mod placements;
mod reports;
