//! What the command `zones` does with statements and ranges.
#![tactic(auto)]

mod changes;
mod lacks;
mod laws;
mod line_parts;
mod partitions;
mod refused;
mod regions;
mod report;
mod same;
mod statements;
mod zones;

pub use laws::ranges_are_placed;
pub use refused::SqlRefusal;
pub use regions::are_nodes;
pub use report::Format;
pub use zones::Zones;
