//! Nodes of regions and zones, in the order of their numbers.

ghost use Rattle.std.specs.Prelude.{◌≡◌, [], ◌++◌, ◌-◌, drop, length, map, slice_get, take, IfOk, OnOk};
ghost use Rattle.std.specs.List.{cons_option};
ghost use Rattle.placement.specs.Fitting.{ids_of};
ghost use Rattle.placement.specs.Placing.{each_at, has_zone, in_region, is_first, other_at, one_per_zone, other_regions};

use mr_base::{Bytes, Memory, NodeId, NodeInfo};
use std::alloc::Global;

/// The lowest node, where there is one.
pub(crate) fn lowest(alloc: Global, nodes: &[NodeInfo]) -> Result<Vec<NodeId>, Memory>
    ensures { IfOk result (λ found. found.items ≡ ids_of (take 1 nodes.now)) }
{
    let mut found = Vec::new(alloc);
    if let Some(node) = nodes.first() {
        found.push(node.id)?;
    }
    Ok(found)
}

/// The nodes of a region.
pub(crate) fn nodes_in(
    alloc: Global,
    nodes: &[NodeInfo],
    region: &Bytes,
) -> Result<Vec<NodeId>, Memory>
    ensures { IfOk result (λ found. found.items ≡ ids_of (in_region region.now nodes.now)) }
{
    let mut found = Vec::new(alloc);
    for node in nodes {
        if node.region == *region {
            found.push(node.id)?;
        }
    }
    Ok(found)
}

/// The first node of each zone of a region.
pub(crate) fn one_per_zone(
    alloc: Global,
    nodes: &[NodeInfo],
    region: &Bytes,
) -> Result<Vec<NodeId>, Memory>
    ensures { IfOk result (λ found. found.items ≡ ids_of (one_per_zone (in_region region.now nodes.now))) }
{
    let mut found = Vec::new(alloc);
    for (i, node) in nodes.iter().enumerate() {
        if is_first(&nodes[..i], region, node) {
            found.push(node.id)?;
        }
    }
    Ok(found)
}

/// Whether a node is of the region and in a zone of it in which none of the earlier nodes is.
fn is_first(earlier: &[NodeInfo], region: &Bytes, node: &NodeInfo) -> bool
    ensures { result ≡ is_first region.now earlier.now node.now }
{
    node.region == *region && !has_zone(earlier, region, &node.zone)
}

fn has_zone(nodes: &[NodeInfo], region: &Bytes, zone: &Bytes) -> bool
    ensures { result ≡ has_zone region.now zone.now nodes.now }
{
    nodes
        .iter()
        .any(|node| node.region == *region && node.zone == *zone)
}

/// Of each region other than home the node at this place, where it has as many.
pub(crate) fn each_at(
    alloc: Global,
    counts: &[(Bytes, u32)],
    home: &Bytes,
    nodes: &[NodeInfo],
    place: usize,
) -> Result<Vec<NodeId>, Memory>
    ensures { IfOk result (λ found. found.items ≡ ids_of (each_at place nodes.now (other_regions home.now (map (λ k. k.0) counts.now)))) }
{
    let mut found = Vec::new(alloc);
    for count in counts {
        add_other(alloc, &mut found, nodes, home, &count.0, place)?;
    }
    Ok(found)
}

/// Adds the node at this place of a region other than home.
#[tactic(auto, using(crate::proofs::ChosenLemmas::ids_at))]
fn add_other(
    alloc: Global,
    found: &mut Vec<NodeId>,
    nodes: &[NodeInfo],
    home: &Bytes,
    region: &Bytes,
    place: usize,
) -> Result<(), Memory>
    ensures { OnOk result (found.new.items ≡ found.old.items ++ ids_of (other_at place nodes.now home.now region.now)) }
{
    if region == home {
        return Ok(());
    }
    let here = nodes_in(alloc, nodes, region)?;
    add_at(found, here.as_slice(), place)
}

/// Adds the item at this place, where there is one.
fn add_at(list: &mut Vec<NodeId>, nodes: &[NodeId], place: usize) -> Result<(), Memory>
    ensures { OnOk result (list.new.items ≡ list.old.items ++ cons_option (slice_get nodes.now place) []) }
{
    if place < nodes.len() {
        list.push(nodes[place])?;
    }
    Ok(())
}

/// Two nodes, three lowest ones of others, and as many second lowest ones as are then missing.
pub(crate) fn two_and_three(
    mut voters: Vec<NodeId>,
    lowest: &[NodeId],
    second: &[NodeId],
) -> Result<Vec<NodeId>, Memory>
    ensures { IfOk result (λ v. v.items ≡ take 2 voters.items ++ take 3 lowest.now ++ take (3 - length lowest.now) second.now) }
{
    voters.truncate(2);
    add_at_most(&mut voters, lowest, 3)?;
    add_at_most(&mut voters, second, 3usize.saturating_sub(lowest.len()))?;
    Ok(voters)
}

/// Adds at most `count` of the nodes.
fn add_at_most(list: &mut Vec<NodeId>, nodes: &[NodeId], count: usize) -> Result<(), Memory>
    ensures { OnOk result (list.new.items ≡ list.old.items ++ take count nodes.now) }
{
    let count = count.min(nodes.len());
    list.extend_from_slice(&nodes[..count])?;
    Ok(())
}

/// The nodes from this place on.
pub(crate) fn from_place(
    alloc: Global,
    nodes: &[NodeId],
    place: usize,
) -> Result<Vec<NodeId>, Memory>
    ensures { IfOk result (λ rest. rest.items ≡ drop place nodes.now) }
{
    let place = place.min(nodes.len());
    Ok(nodes[place..].to_vec(alloc)?)
}
