//! The nodes of a region.

ghost use Rattle.std.specs.Prelude.{◌≡◌, IfOk};

use mr_base::{Bytes, Memory, NodeId, NodeInfo, NodeSet};
use request_routes::nodes_of_region;
use std::alloc::Global;

/// Whether the nodes of the region are these, of four nodes in two regions.
pub fn has_nodes(alloc: Global, region: &str, nodes: u64) -> Result<bool, Memory> {
    let all = [
        node(alloc, 1, "us-east")?,
        node(alloc, 2, "us-west")?,
        node(alloc, 5, "us-east")?,
        node(alloc, 64, "us-west")?,
    ];
    let region = Bytes::from_slice(alloc, region.as_bytes())?;
    Ok(nodes_of_region(&all, &region) == NodeSet(nodes))
}

fn node(alloc: Global, number: u32, region: &str) -> Result<NodeInfo, Memory>
    ensures { IfOk result (λ node. node.id.0 ≡ number) }
{
    Ok(NodeInfo {
        id: NodeId(number),
        region: Bytes::from_slice(alloc, region.as_bytes())?,
        zone: Bytes::from_slice(alloc, b"a")?,
    })
}
