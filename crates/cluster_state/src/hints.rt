//! What the nodes believe of leases. Nothing rests on it but where requests go; where a node or a range isn't there,
//! nothing is learned.

ghost use Rattle.std.specs.Prelude.{◌≤◌, All, length};
ghost use Rattle.range_replicas.specs.Sound.{IsSound};

use mr_base::{Memory, NodeId, RangeId};
use node_states::Move;
use range_log::{Entry, Lease};
use range_replicas::ReplicatedRange;
use request_routes::{Hint, Hints};

/// A node's replica has applied the entries of a range past `from`, up to `upto`: the leases among them count.
pub fn learn_leases(
    hints: &mut [Hints],
    node: NodeId,
    range: &ReplicatedRange,
    from: u64,
    upto: u64,
)
    requires { upto ≤ length range.now.log.entries }
{
    for index in from..upto {
        if let Entry::Lease(lease) = range.log().entry(index + 1) {
            learn_applied(hints, node, range.number(), *lease);
        }
    }
}

/// A node's replica has applied a lease.
fn learn_applied(hints: &mut [Hints], node: NodeId, range: RangeId, lease: Lease) {
    let node = place(node.0);
    let range = place(range.0);
    if node < hints.len() && range < hints[node].len() {
        hints[node].learn_applied(range, lease);
    }
}

/// A reply has told a gateway of a lease.
pub fn learn_told(hints: &mut [Hints], node: NodeId, range: RangeId, told: Hint) {
    let node = place(node.0);
    let range = place(range.0);
    if node < hints.len() && range < hints[node].len() {
        hints[node].learn_told(range, told);
    }
}

/// A node starts again, with the last lease that its replica of a range has applied, if it has one.
pub fn restart_hint(
    hints: &mut [Hints],
    node: NodeId,
    range: RangeId,
    applied: Option<Lease>,
    first: NodeId,
) {
    let node = place(node.0);
    let range = place(range.0);
    if node < hints.len() && range < hints[node].len() {
        hints[node].restart(range, applied, first);
    }
}

/// A node that starts knows of each range what its own replica has applied, else the first voter.
pub fn restart_hints(hints: &mut [Hints], ranges: &[ReplicatedRange], moving: Move)
    requires { All IsSound ranges.now }
{
    let Move::Start(node) = moving else {
        return;
    };
    for range in ranges {
        if let Some(first) = range.voters().first() {
            restart_hint(hints, node, range.number(), applied_by(range, node), *first);
        }
    }
}

/// The last lease that a node's replica of a range has applied, if it has a replica.
fn applied_by(range: &ReplicatedRange, node: NodeId) -> Option<Lease>
    requires { IsSound range.now }
{
    let place = range.place_of(node)?;
    range.server(place).replica().lease()
}

/// A range begins, with the lease of its first voter.
pub fn add_first(hints: &mut [Hints], first: NodeId) -> Result<(), Memory> {
    for of_node in hints.iter_mut() {
        of_node.add_range(first)?;
    }
    Ok(())
}

/// The node that a node believes to be leaseholder of a range.
pub fn hinted(hints: &[Hints], node: NodeId, range: RangeId) -> Option<NodeId> {
    let node = place(node.0);
    let range = place(range.0);
    if node < hints.len() && range < hints[node].len() {
        return Some(hints[node].at(range).holder);
    }
    None
}

/// The place of a number that is counted from 1.
fn place(number: u32) -> usize {
    (number as usize).wrapping_sub(1)
}
