//! Layouts of nodes, and the configurations of their databases.

use mr_base::{Bytes, ListOf, Memory, NodeId, NodeInfo};
use region_sql::Goal;
use std::alloc::Global;
use zone_compile::ZoneConfig;

/// Numbers that look drawn.
#[derive(Clone, Copy)]
pub struct Draws(pub u64);

impl Draws {
    pub fn next(&mut self) -> u32 {
        self.0 = self
            .0
            .wrapping_mul(6364136223846793005)
            .wrapping_add(1442695040888963407);
        (self.0 >> 33) as u32
    }
}

/// The region and the zone of a node, as numbers.
pub type Site = (u8, u8);

/// Three to seven nodes in one to six regions of three zones.
pub fn layout(alloc: Global, draws: &mut Draws) -> Result<Vec<Site>, Memory> {
    let mut sites = Vec::new(alloc);
    let regions = 1 + draws.next() % 6;
    for _ in 0..3 + draws.next() % 5 {
        sites.push(((draws.next() % regions) as u8, (draws.next() % 3) as u8))?;
    }
    Ok(sites)
}

/// The regions of a database: those that have a node, sometimes without the last.
pub fn regions_of(alloc: Global, sites: &[Site], draws: &mut Draws) -> Result<Vec<u8>, Memory> {
    let mut regions = Vec::new(alloc);
    for region in 0..6 {
        if sites.iter().any(|s| s.0 == region) {
            regions.push(region)?;
        }
    }
    if draws.next() % 4 == 0 && regions.len() > 1 {
        let _ = regions.pop();
    }
    Ok(regions)
}

fn name(alloc: Global, number: u8) -> Result<Bytes, Memory> {
    Bytes::from_slice(alloc, &[b'a'.saturating_add(number)])
}

/// What a range is to survive, and where its replicas stand.
#[derive(Clone, Copy)]
pub enum Kind {
    /// In a database without regions
    Alone,
    Zone,
    /// The loss of a zone, in a restricted database
    Restricted,
    Region,
}

impl Kind {
    pub fn drawn(draws: &mut Draws, regions: usize) -> Kind {
        match draws.next() % 8 {
            0 => Kind::Alone,
            1 => Kind::Restricted,
            2 | 3 => Kind::Zone,
            _ if regions >= 3 => Kind::Region,
            _ => Kind::Zone,
        }
    }
}

fn no_regions(alloc: Global) -> ZoneConfig {
    ZoneConfig {
        num_replicas: 1,
        num_voters: 1,
        constraints: ListOf::new(alloc),
        voter_constraints: ListOf::new(alloc),
        lease: None,
        global_reads: false,
        goal: None,
    }
}

pub fn config(alloc: Global, kind: Kind, regions: &[u8], home: u8) -> Result<ZoneConfig, Memory> {
    let others = (regions.len().min(16) as u32).saturating_sub(1);
    let (goal, num_replicas, num_voters, at_home) = match kind {
        Kind::Alone => return Ok(no_regions(alloc)),
        Kind::Restricted => (Goal::Zone, 3, 3, 3),
        Kind::Zone => (Goal::Zone, others.saturating_add(3), 3, 3),
        Kind::Region => (Goal::Region, others.saturating_add(2).max(5), 5, 2),
    };
    let mut constraints = ListOf::new(alloc);
    if !matches!(kind, Kind::Restricted) {
        for region in regions {
            constraints.push((name(alloc, *region)?, 1))?;
        }
    }
    let mut voter_constraints = ListOf::new(alloc);
    voter_constraints.push((name(alloc, home)?, at_home))?;
    Ok(ZoneConfig {
        num_replicas,
        num_voters,
        constraints,
        voter_constraints,
        lease: Some(name(alloc, home)?),
        global_reads: false,
        goal: Some(goal),
    })
}

pub fn nodes(alloc: Global, sites: &[Site]) -> Result<Vec<NodeInfo>, Memory> {
    let mut nodes = Vec::new(alloc);
    let mut id = 0u32;
    for (region, zone) in sites {
        id = id.saturating_add(1);
        nodes.push(NodeInfo {
            id: NodeId(id),
            region: name(alloc, *region)?,
            zone: name(alloc, *zone)?,
        })?;
    }
    Ok(nodes)
}

/// Three regions of three zones each.
pub const NINE: [Site; 9] = [
    (0, 0),
    (0, 1),
    (0, 2),
    (1, 0),
    (1, 1),
    (1, 2),
    (2, 0),
    (2, 1),
    (2, 2),
];
