//! The placement of a configuration over the nodes of a cluster.

ghost use Rattle.std.specs.Prelude.{◌≡◌, [], None, Some, IfErr, IfOk};
ghost use Rattle.region_sql.specs.declared.region_statements.Goal.TheVariants as goals;
ghost use Rattle.zone_compile.specs.Configuration.{HasForm};
ghost use Rattle.placement.specs.Majority.{SurvivesLosses};
ghost use Rattle.placement.specs.Fitting.{Fits, ServeFor, constrained_regions};
ghost use Rattle.placement.specs.Placing.{Answers, IsRefusal, NoneFits, lack_at, lack_of, placed_at, placement_of};

use crate::chosen::{each_at, from_place, lowest, nodes_in, one_per_zone, two_and_three};
use crate::placement_types::{PlaceRefusal, Placement};
use mr_base::{Bytes, CloneIn, ListOf, NodeInfo};
use region_sql::Goal;
use std::alloc::Global;
use zone_compile::ZoneConfig;

/// The nodes of a range's voters and of its other replicas, taken in the order of their numbers: a
/// placement that fits the configuration and keeps a majority of its voters after any one loss of the
/// kind that the configuration's goal names. It is refused for want of nodes only where no placement
/// fits.
pub fn place(alloc: Global, c: &ZoneConfig, nodes: &[NodeInfo]) -> Result<Placement, PlaceRefusal>
    requires form { HasForm c.now }
    requires nodes { ServeFor c.now nodes.now }
    ensures fits { IfOk result (Fits c.now nodes.now) }
    ensures none_fits { IfErr result (NoneFits c.now nodes.now) }
    ensures survives { IfOk result (λ p. SurvivesLosses c.now.goal nodes.now p.voters) }

    // Which nodes they are, and what is lacking where there are none.
    ensures placement { IfOk result (λ p. p ≡ placement_of c.now nodes.now) }
    ensures lacks_nothing { IfOk result (λ _. lack_of c.now nodes.now ≡ None) }
    ensures lack { IfErr result (IsRefusal c.now.lease (lack_of c.now nodes.now)) }
{
    chosen(alloc, c, nodes)
}

pub(crate) fn chosen(
    alloc: Global,
    c: &ZoneConfig,
    nodes: &[NodeInfo],
) -> Result<Placement, PlaceRefusal>
    ensures { Answers c.now.lease (lack_of c.now nodes.now) (placement_of c.now nodes.now) result }
{
    match &c.lease {
        None => alone(alloc, nodes),
        Some(home) => match c.goal {
            None => alone(alloc, nodes),
            Some(Goal::Zone) => over_zones(alloc, c, home, nodes),
            Some(Goal::Region) => over_regions(alloc, c, home, nodes),
        },
    }
}

/// The lowest node alone.
fn alone(alloc: Global, nodes: &[NodeInfo]) -> Result<Placement, PlaceRefusal>
    ensures { Answers None None (placed_at None None [] nodes.now) result }
{
    let voters = lowest(alloc, nodes)?;
    Ok(Placement {
        voters: ListOf::from_vec(voters),
        others: ListOf::new(alloc),
    })
}

/// Three voters in zones of the home region, and the lowest node of each other region.
fn over_zones(
    alloc: Global,
    c: &ZoneConfig,
    home: &Bytes,
    nodes: &[NodeInfo],
) -> Result<Placement, PlaceRefusal>
    ensures { Answers (Some home.now) (lack_at (Some home.now) (Some goals.Zone) (constrained_regions c.now) nodes.now) (placed_at (Some home.now) (Some goals.Zone) (constrained_regions c.now) nodes.now) result }
{
    let mut voters = one_per_zone(alloc, nodes, home)?;
    let zones = voters.len();
    if zones < 3 {
        return Err(unplaceable(alloc, home, 3, zones as u32));
    }
    voters.truncate(3);
    let others = each_at(alloc, c.constraints.as_slice(), home, nodes, 0)?;
    Ok(Placement {
        voters: ListOf::from_vec(voters),
        others: ListOf::from_vec(others),
    })
}

/// Two voters in the home region and three in others.
fn over_regions(
    alloc: Global,
    c: &ZoneConfig,
    home: &Bytes,
    nodes: &[NodeInfo],
) -> Result<Placement, PlaceRefusal>
    ensures { Answers (Some home.now) (lack_at (Some home.now) (Some goals.Region) (constrained_regions c.now) nodes.now) (placed_at (Some home.now) (Some goals.Region) (constrained_regions c.now) nodes.now) result }
{
    let at_home = nodes_in(alloc, nodes, home)?;
    let found = at_home.len();
    if found < 2 {
        return Err(unplaceable(alloc, home, 2, found as u32));
    }
    let lowest = each_at(alloc, c.constraints.as_slice(), home, nodes, 0)?;
    let second = each_at(alloc, c.constraints.as_slice(), home, nodes, 1)?;
    let voters = two_and_three(at_home, lowest.as_slice(), second.as_slice())?;
    if voters.len() < 5 {
        return Err(unplaceable(alloc, home, 5, 4));
    }
    let others = from_place(alloc, lowest.as_slice(), 3)?;
    Ok(Placement {
        voters: ListOf::from_vec(voters),
        others: ListOf::from_vec(others),
    })
}

/// The refusal that names the home region, unless memory runs out.
fn unplaceable(alloc: Global, home: &Bytes, wanted: u32, found: u32) -> PlaceRefusal
    ensures { IsRefusal (Some home.now) (Some (wanted, found)) result }
{
    match home.clone_in(alloc) {
        Ok(region) => PlaceRefusal::Unplaceable {
            region,
            wanted,
            found,
        },
        Err(_) => PlaceRefusal::Memory,
    }
}
