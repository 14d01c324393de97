//! The conditions of a placement tried one after the other: a slow test of any placement.

ghost use Rattle.std.specs.Prelude.{◌≡◌, ◌↔◌, ◌&&◌, ◌||◌, ◌++◌, ◌==◌, IfOk, IsTrue, OnOk, is_none, length, nat_le, nat_lt, not};
ghost use Rattle.std.specs.List.{list_all, list_any};
ghost use Rattle.std.specs.Option.{option_copied, option_to_list};
ghost use Rattle.std.specs.Str.{bytes_eq};
ghost use Rattle.std.specs.Prelude.{find};
ghost use Rattle.zone_compile.specs.Configuration.{HasForm};
ghost use Rattle.placement.specs.Fitting.{Fits, ServeFor, count_in};
ghost use Rattle.placement.specs.Tests.{first_is_at, fit, found, has_home, has_region, has_two_at, ids_differ, is_at, is_named, rise, same_zone, serve, suits, zones_differ};

use crate::placement_types::Placement;
use mr_base::{Bytes, CloneIn, ListOf, Memory, NodeId, NodeInfo};
use region_sql::Goal;
use std::alloc::Global;
use zone_compile::ZoneConfig;

/// Whether a configuration can be placed among these nodes: there are some, in the order of their
/// numbers, and one at least in each region that it names.
pub fn serve_for(c: &ZoneConfig, nodes: &[NodeInfo]) -> bool
    ensures { IsTrue result ↔ ServeFor c.now nodes.now }
{
    serve(c, nodes)
}

/// Whether a placement fits: each condition is tried on its nodes.
pub fn fits(
    alloc: Global,
    c: &ZoneConfig,
    nodes: &[NodeInfo],
    p: &Placement,
) -> Result<bool, Memory>
    requires form { HasForm c.now }
    requires nodes { ServeFor c.now nodes.now }
    ensures { IfOk result (λ yes. IsTrue yes ↔ Fits c.now nodes.now p.now) }
{
    let at = found(alloc, nodes, p.voters.as_slice())?;
    let beside = found(alloc, nodes, p.others.as_slice())?;
    let all = joined(alloc, at.as_slice(), beside.as_slice())?;
    Ok(fit_there(c, p, at.as_slice(), beside.as_slice(), all.as_slice()))
}

/// Whether the nodes of a placement are there and fit.
fn fit_there(
    c: &ZoneConfig,
    p: &Placement,
    at: &[NodeInfo],
    beside: &[NodeInfo],
    all: &[NodeInfo],
) -> bool
    ensures { result ≡ ((length at.now == length p.now.voters) && (length beside.now == length p.now.others) && fit c.now at.now all.now) }
{
    at.len() == p.voters.len() && beside.len() == p.others.len() && fit(c, at, all)
}

fn serve(c: &ZoneConfig, nodes: &[NodeInfo]) -> bool
    ensures { result ≡ serve c.now nodes.now }
{
    nodes.len() != 0
        && rise(nodes)
        && has_home(&c.lease, nodes)
        && has_all(c.constraints.as_slice(), nodes)
}

/// Whether the numbers of the nodes rise.
fn rise(nodes: &[NodeInfo]) -> bool
    ensures { result ≡ rise nodes.now }
{
    for (i, node) in nodes.iter().enumerate() {
        if !are_after(node, &nodes[i + 1..]) {
            return false;
        }
    }
    true
}

fn are_after(node: &NodeInfo, later: &[NodeInfo]) -> bool
    ensures { result ≡ list_all (λ t. nat_lt node.now.id.0 t.id.0) later.now }
{
    later.iter().all(|t| node.id.0 < t.id.0)
}

fn has_region(nodes: &[NodeInfo], region: &Bytes) -> bool
    ensures { result ≡ has_region nodes.now region.now }
{
    nodes.iter().any(|s| s.region == *region)
}

fn has_home(lease: &Option<Bytes>, nodes: &[NodeInfo]) -> bool
    ensures { result ≡ has_home lease.now nodes.now }
{
    match lease {
        None => true,
        Some(home) => has_region(nodes, home),
    }
}

fn has_all(counts: &[(Bytes, u32)], nodes: &[NodeInfo]) -> bool
    ensures { result ≡ list_all (λ k. has_region nodes.now k.0) counts.now }
{
    counts.iter().all(|k| has_region(nodes, &k.0))
}

/// The nodes of these numbers, without those that aren't there.
fn found(alloc: Global, nodes: &[NodeInfo], ids: &[NodeId]) -> Result<ListOf<NodeInfo>, Memory>
    ensures { IfOk result (λ list. list ≡ found nodes.now ids.now) }
{
    let mut list = ListOf::new(alloc);
    for id in ids {
        add_found(alloc, &mut list, nodes, id)?;
    }
    Ok(list)
}

fn add_found(
    alloc: Global,
    list: &mut ListOf<NodeInfo>,
    nodes: &[NodeInfo],
    id: &NodeId,
) -> Result<(), Memory>
    ensures { OnOk result (list.new ≡ list.old ++ option_to_list (find (λ s. s.id.0 == id.now.0) nodes.now)) }
{
    if let Some(node) = node_of(nodes, id) {
        list.push(node.clone_in(alloc)?)?;
    }
    Ok(())
}

/// The node of a number.
fn node_of<'a>(nodes: &'a [NodeInfo], id: &NodeId) -> Option<&'a NodeInfo>
    ensures { option_copied result ≡ find (λ s. s.id.0 == id.now.0) nodes.now }
{
    nodes.iter().find(|s| s.id.0 == id.0)
}

fn joined(
    alloc: Global,
    first: &[NodeInfo],
    second: &[NodeInfo],
) -> Result<ListOf<NodeInfo>, Memory>
    ensures { IfOk result (λ all. all ≡ first.now ++ second.now) }
{
    let mut all = ListOf::copy_of(alloc, first)?;
    for node in second {
        all.push(node.clone_in(alloc)?)?;
    }
    Ok(all)
}

/// Whether voters at these nodes, and replicas at all of these, fit.
fn fit(c: &ZoneConfig, at: &[NodeInfo], all: &[NodeInfo]) -> bool
    ensures { result ≡ fit c.now at.now all.now }
{
    ids_differ(all)
        && all.len() == c.num_replicas as usize
        && at.len() == c.num_voters as usize
        && (c.goal.is_none() || are_named(c, all))
        && are_enough(c.constraints.as_slice(), all)
        && suits(c.goal, &c.lease, at)
        && first_is_at(&c.lease, at)
}

fn ids_differ(nodes: &[NodeInfo]) -> bool
    ensures { result ≡ ids_differ nodes.now }
{
    for (i, node) in nodes.iter().enumerate() {
        if !are_others(node, &nodes[i + 1..]) {
            return false;
        }
    }
    true
}

fn are_others(node: &NodeInfo, later: &[NodeInfo]) -> bool
    ensures { result ≡ list_all (λ t. not (node.now.id.0 == t.id.0)) later.now }
{
    later.iter().all(|t| node.id.0 != t.id.0)
}

/// Whether the node stands at home.
fn is_at(lease: &Option<Bytes>, node: &NodeInfo) -> bool
    ensures { result ≡ is_at lease.now node.now }
{
    match lease {
        None => false,
        Some(home) => node.region == *home,
    }
}

fn is_counted(counts: &[(Bytes, u32)], node: &NodeInfo) -> bool
    ensures { result ≡ list_any (λ k. bytes_eq k.0 node.now.region) counts.now }
{
    counts.iter().any(|k| k.0 == node.region)
}

/// Whether the configuration names the node's region.
fn is_named(c: &ZoneConfig, node: &NodeInfo) -> bool
    ensures { result ≡ is_named c.now node.now }
{
    is_at(&c.lease, node) || is_counted(c.constraints.as_slice(), node)
}

fn are_named(c: &ZoneConfig, nodes: &[NodeInfo]) -> bool
    ensures { result ≡ list_all (is_named c.now) nodes.now }
{
    nodes.iter().all(|s| is_named(c, s))
}

/// How many of the nodes stand in a region.
fn count_in(region: &Bytes, nodes: &[NodeInfo]) -> usize
    ensures { result ≡ count_in region.now nodes.now }
{
    nodes.iter().filter(|s| s.region == *region).count()
}

/// Whether each region has as many as its constraint counts.
fn are_enough(counts: &[(Bytes, u32)], nodes: &[NodeInfo]) -> bool
    ensures { result ≡ list_all (λ k. nat_le k.1 (count_in k.0 nodes.now)) counts.now }
{
    counts.iter().all(|k| k.1 as usize <= count_in(&k.0, nodes))
}

/// Whether voters at these nodes are what the goal asks.
fn suits(goal: Option<Goal>, lease: &Option<Bytes>, at: &[NodeInfo]) -> bool
    ensures { result ≡ suits goal lease.now at.now }
{
    match goal {
        None => true,
        Some(Goal::Zone) => are_at(lease, at) && zones_differ(at),
        Some(Goal::Region) => has_two_at(lease, at) && are_few(at),
    }
}

fn are_at(lease: &Option<Bytes>, nodes: &[NodeInfo]) -> bool
    ensures { result ≡ list_all (is_at lease.now) nodes.now }
{
    nodes.iter().all(|s| is_at(lease, s))
}

fn has_two_at(lease: &Option<Bytes>, nodes: &[NodeInfo]) -> bool
    ensures { result ≡ has_two_at lease.now nodes.now }
{
    match lease {
        None => true,
        Some(home) => 2 <= count_in(home, nodes),
    }
}

/// Whether at most two stand in the region of each.
fn are_few(nodes: &[NodeInfo]) -> bool
    ensures { result ≡ list_all (λ s. nat_le (count_in s.region nodes.now) 2) nodes.now }
{
    nodes.iter().all(|s| count_in(&s.region, nodes) <= 2)
}

fn zones_differ(nodes: &[NodeInfo]) -> bool
    ensures { result ≡ zones_differ nodes.now }
{
    for (i, node) in nodes.iter().enumerate() {
        if !are_apart(node, &nodes[i + 1..]) {
            return false;
        }
    }
    true
}

fn are_apart(node: &NodeInfo, later: &[NodeInfo]) -> bool
    ensures { result ≡ list_all (λ t. not (same_zone node.now t)) later.now }
{
    later.iter().all(|t| !same_zone(node, t))
}

fn same_zone(s: &NodeInfo, t: &NodeInfo) -> bool
    ensures { result ≡ same_zone s.now t.now }
{
    s.region == t.region && s.zone == t.zone
}

fn first_is_at(lease: &Option<Bytes>, at: &[NodeInfo]) -> bool
    ensures { result ≡ first_is_at lease.now at.now }
{
    let Some(home) = lease else {
        return true;
    };
    match at.first() {
        Some(node) => node.region == *home,
        None => false,
    }
}
