//! What a range is made of.

ghost use Rattle.std.specs.Prelude.{◌≡◌, ◌+◌, All, IfOk, length, position};
ghost use Rattle.mr_base.specs.Nodes.{IsNode};
ghost use Rattle.range_replicas.specs.Beginning.{AreServersOf, IsServerOf};
ghost use Rattle.range_replicas.specs.RangeValue.{is_at};
ghost use Rattle.range_replicas.specs.Voters.{MajorityIsMoreThanHalf, set_of, with_node};

use mr_base::{Memory, NodeId, NodeSet};
use range_log::RangeLog;
use range_server::Server;
use std::alloc::Global;

/// The end of a lease that is taken at a wall.
pub fn end_of(wall: u64, duration: u64) -> Result<u64, Memory>
    ensures { IfOk result (λ end. end ≡ wall + duration) }
{
    match wall.checked_add(duration) {
        Some(end) => Ok(end),
        None => Err(Memory),
    }
}

/// The servers of replicas at these nodes, at these boots, each of which has applied the log.
pub fn servers_of(
    alloc: Global,
    nodes: &[NodeId],
    boots: &[u32],
    is_global: bool,
    log: &RangeLog,
) -> Result<Vec<Server>, Memory>
    requires { length boots.now ≡ length nodes.now }
    ensures { IfOk result (λ servers. AreServersOf nodes.now boots.now is_global log.now.entries servers.items) }
{
    let mut servers = Vec::new(alloc);
    for place in 0..nodes.len() {
        let server = server_of(alloc, nodes[place], boots[place], is_global, log)?;
        servers.push(server)?;
    }
    Ok(servers)
}

/// The server of a replica at a node, at a boot, which has applied the log.
fn server_of(
    alloc: Global,
    node: NodeId,
    boot: u32,
    is_global: bool,
    log: &RangeLog,
) -> Result<Server, Memory>
    ensures { IfOk result (λ server. IsServerOf node boot is_global log.now.entries server) }
{
    let mut server = Server::new(alloc, node, boot, is_global)?;
    server.apply_to(log, log.len())?;
    Ok(server)
}

/// The place of the first server at a node.
pub fn place_in(servers: &[Server], node: NodeId) -> Option<usize>
    ensures { result ≡ position (is_at node) servers.now }
{
    servers.iter().position(|server| server.node() == node)
}

/// The set of these nodes.
pub fn set_of(nodes: &[NodeId]) -> NodeSet
    requires { All IsNode nodes.now }
    ensures { result ≡ set_of nodes.now }
{
    let mut set = NodeSet::EMPTY;
    for n in nodes {
        set = with_node(set, *n);
    }
    set
}

/// The set with one node more.
fn with_node(set: NodeSet, n: NodeId) -> NodeSet
    requires { IsNode n }
    ensures { result ≡ with_node set n }
{
    NodeSet(set.0 | 1 << (n.0 - 1))
}

/// Of nodes that all differ a majority runs where more than half of them do.
pub fn majority_is_more_than_half()
    ensures { MajorityIsMoreThanHalf }
{}
