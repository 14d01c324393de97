//! A node that starts begins the servers of its replicas anew.

ghost use Rattle.std.specs.Prelude.{◌≡◌, All, map};
ghost use Rattle.range_replicas.specs.Sound.{IsSound};
ghost use Rattle.replica_states.specs.Restarts.{AreBefore, IsAhead, moved_ranges, restarted};

use mr_base::NodeId;
use node_states::{Move, NodeState};
use range_replicas::ReplicatedRange;

/// The servers of all replicas at a node begin anew, at its boot.
pub fn restart_servers(ranges: &mut [ReplicatedRange], node: NodeId, boot: u32)
    requires sound { All IsSound ranges.old }
    requires before { All (AreBefore node boot) ranges.old }
    ensures servers { ranges.new ≡ map (restarted node boot) ranges.old }
    ensures sound { All IsSound ranges.new }
{
    for range in ranges.iter_mut() {
        restart_server(range, node, boot);
    }
}

/// The server of a range's replica at a node, if there is one, begins anew, at its boot.
fn restart_server(range: &mut ReplicatedRange, node: NodeId, boot: u32)
    requires sound { IsSound range.old }
    requires before { AreBefore node boot range.old }
    ensures servers { range.new ≡ restarted node boot range.old }
    ensures sound { IsSound range.new }
{
    if let Some(place) = range.place_of(node) {
        range.restart(place, boot);
    }
}

/// What a line does to the servers: those of a node that starts begin anew. The nodes are moved already.
pub fn restart_moved(ranges: &mut [ReplicatedRange], nodes: &[NodeState], moving: Move)
    requires sound { All IsSound ranges.old }
    requires ahead { IsAhead moving nodes.now ranges.old }
    ensures servers { ranges.new ≡ moved_ranges moving nodes.now ranges.old }
    ensures sound { All IsSound ranges.new }
{
    if let Move::Start(node) = moving {
        let boot = nodes[(node.0 - 1) as usize].boot;
        restart_servers(ranges, node, boot);
    }
}
