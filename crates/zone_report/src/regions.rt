//! The nodes of a cluster, and their regions.

ghost use Rattle.std.specs.Prelude.{◌≡◌, ◌≢◌, ◌↔◌, ◌≤◌, [], All, IfOk, IsTrue, IsUtf8, OnOk, length};
ghost use Rattle.descriptors.specs.Lists.{has_name};
ghost use Rattle.zone_report.specs.Nodes.{AreNodes, AreNumbered, regions_of, with_region};

use mr_base::{Bytes, CloneIn, ListOf, Memory, NodeInfo, is_utf8};
use std::alloc::Global;

/// The regions in the order in which the nodes first name them.
pub(crate) fn regions_of(alloc: Global, nodes: &[NodeInfo]) -> Result<ListOf<Bytes>, Memory>
    ensures { IfOk result (λ regions. regions ≡ regions_of nodes.now) }
{
    let mut regions = ListOf::new(alloc);
    for node in nodes {
        add_region(alloc, &mut regions, node)?;
    }
    Ok(regions)
}

/// Adds the region of a node, if it isn't there.
fn add_region(alloc: Global, regions: &mut ListOf<Bytes>, node: &NodeInfo) -> Result<(), Memory>
    ensures { OnOk result (regions.new ≡ with_region regions.old node.now) }
{
    if has_name(regions.as_slice(), &node.region) {
        return Ok(());
    }
    regions.push(node.region.clone_in(alloc)?)?;
    Ok(())
}

/// Whether a name stands among these.
fn has_name(names: &[Bytes], name: &Bytes) -> bool
    ensures { result ≡ has_name names.now name.now }
{
    names.iter().any(|n| *name == *n)
}

/// Whether these are the nodes of a cluster: 1 to 64, numbered from 1, in at most 16 regions, whose names
/// are UTF-8.
pub fn are_nodes(alloc: Global, nodes: &[NodeInfo]) -> Result<bool, Memory>
    ensures { IfOk result (λ yes. IsTrue yes ↔ AreNodes nodes.now) }
{
    let regions = regions_of(alloc, nodes)?.len();
    Ok(are_few(nodes, regions) && are_numbered(nodes) && have_texts(nodes))
}

/// Whether there are 1 to 64 nodes in at most 16 regions.
fn are_few(nodes: &[NodeInfo], regions: usize) -> bool
    ensures { IsTrue result ↔ ((nodes.now ≢ []) × (length nodes.now ≤ 64) × (regions ≤ 16)) }
{
    !nodes.is_empty() && nodes.len() <= 64 && regions <= 16
}

/// Whether each node has the number of its place, counted from 1.
fn are_numbered(nodes: &[NodeInfo]) -> bool
    ensures { IsTrue result ↔ AreNumbered nodes.now }
{
    for (place, node) in nodes.iter().enumerate() {
        if node.id.0 as usize != place + 1 {
            return false;
        }
    }
    true
}

/// Whether the names of the regions are UTF-8.
fn have_texts(nodes: &[NodeInfo]) -> bool
    ensures { IsTrue result ↔ All (λ s. IsUtf8 s.region) nodes.now }
{
    for node in nodes {
        if !is_utf8(node.region.as_slice()) {
            return false;
        }
    }
    true
}
