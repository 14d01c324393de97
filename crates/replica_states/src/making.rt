//! A range is made.

ghost use Rattle.std.specs.Prelude.{◌≡◌, ◌≤◌, ◌<◌, ◌++◌, All, IfOk, length, map};
ghost use Rattle.node_states.specs.Stage.{IsOfNode, IsPlaced, range_setup};
ghost use Rattle.range_replicas.specs.Beginning.{BeginsWith};
ghost use Rattle.range_replicas.specs.Sound.{IsSound};
ghost use Rattle.replica_states.specs.FirstRange.{boot_in, first_wall};
ghost use Rattle.replica_states.specs.RangeTies.{planned};

use mr_base::{Memory, NodeId, Settings, Ts};
use node_states::{NodeState, RangePlan};
use range_replicas::ReplicatedRange;
use std::alloc::Global;

/// A planned range, which begins with the lease of its first voter.
pub fn first_range(
    alloc: Global,
    plan: &RangePlan,
    nodes: &[NodeState],
    settings: &Settings,
) -> Result<ReplicatedRange, Memory>
    requires placed { IsPlaced (length nodes.now) plan.now }
    requires few { length nodes.now ≤ 64 }
    ensures planned { IfOk result (λ r. planned r ≡ range_setup plan.now) }
    ensures boots { IfOk result (λ r. map (λ server. server.boot) r.servers
        ≡ map (boot_in nodes.now) (plan.now.voters ++ plan.now.others)) }
    ensures first { IfOk result (λ r. BeginsWith plan.now.voters (map (boot_in nodes.now) (plan.now.voters ++ plan.now.others))
        (first_wall nodes.now plan.now.voters) settings.now.lease Ts.ZERO r.log.entries) }
    ensures begun { IfOk result (λ r. All (λ server. server.replica.applied ≡ 1) r.servers) }
    ensures sound { IfOk result (λ r. IsSound r) }
{
    let voters = plan.voters.as_slice();
    let mut replicas = voters.to_vec(alloc)?;
    replicas.extend_from_slice(plan.others.as_slice())?;
    let boots = boots_of(alloc, replicas.as_slice(), nodes)?;
    let wall = wall_of_first(voters, nodes);
    ReplicatedRange::new(
        alloc,
        plan.number,
        voters,
        plan.others.as_slice(),
        plan.is_global,
        boots.as_slice(),
        wall,
        settings,
        Ts::ZERO,
    )
}

/// The boots of these nodes.
fn boots_of(alloc: Global, replicas: &[NodeId], nodes: &[NodeState]) -> Result<Vec<u32>, Memory>
    requires { All (IsOfNode (length nodes.now)) replicas.now }
    ensures { IfOk result (λ boots. boots.items ≡ map (boot_in nodes.now) replicas.now) }
{
    let mut boots = Vec::new(alloc);
    for n in replicas {
        boots.push(boot_of(*n, nodes))?;
    }
    Ok(boots)
}

/// The boot of a node that is there.
fn boot_of(n: NodeId, nodes: &[NodeState]) -> u32
    requires { IsOfNode (length nodes.now) n }
    ensures { result ≡ boot_in nodes.now n }
{
    nodes[(n.0 - 1) as usize].boot
}

/// The wall that the first voter's clock shows.
fn wall_of_first(voters: &[NodeId], nodes: &[NodeState]) -> u64
    requires some { 0 < length voters.now }
    requires there { All (IsOfNode (length nodes.now)) voters.now }
    ensures { result ≡ first_wall nodes.now voters.now }
{
    let first = voters[0];
    nodes[(first.0 - 1) as usize].clock.reading().wall
}
