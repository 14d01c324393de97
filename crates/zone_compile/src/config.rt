//! What a zone configuration holds.

use mr_base::{Bytes, ListOf};
use region_sql::Goal;

/// A zone configuration. `constraints` counts replicas in regions and `voter_constraints` voters;
/// `lease` is the region that the lease prefers, the home region; a database without regions has no
/// goal.
#[derive(Drop)]
pub struct ZoneConfig {
    pub num_replicas: u32,
    pub num_voters: u32,
    pub constraints: ListOf<(Bytes, u32)>,
    pub voter_constraints: ListOf<(Bytes, u32)>,
    pub lease: Option<Bytes>,
    pub global_reads: bool,
    pub goal: Option<Goal>,
}
