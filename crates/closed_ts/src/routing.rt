//! Which replica is asked next.

ghost use Rattle.std.specs.Prelude.{◌≡◌, ◌↔◌, ◌&&◌, not, All, IsNone, find};
ghost use Rattle.mr_base.specs.Nodes.{IsMember, IsNode};
ghost use Rattle.closed_ts.specs.Routing.{asking_order, first_unasked, is_member, is_node};

use mr_base::{NodeId, NodeSet};

/// The replica to which a request goes next, where those of `asked` have had it: first the `near` ones,
/// then the one that the hint names, then the others, as they are listed.
pub fn next_target(
    replicas: &[NodeId],
    near: NodeSet,
    asked: NodeSet,
    hint: NodeId,
) -> Option<NodeId>
    requires { All IsNode replicas.now }
    ensures order { result ≡ first_unasked asked (asking_order replicas.now near hint) }
    ensures exhausted { IsNone result ↔ All (IsMember asked) replicas.now }
{
    first_near(replicas, near, asked)
        .or(first_hinted(replicas, hint, asked))
        .or(first_of(replicas, asked))
}

/// The first of the near replicas that wasn't asked.
fn first_near(replicas: &[NodeId], near: NodeSet, asked: NodeSet) -> Option<NodeId>
    requires { All IsNode replicas.now }
    ensures { result ≡ find (λ node. is_member near node && not (is_member asked node)) replicas.now }
{
    replicas
        .iter()
        .copied()
        .find(|node| near.has(*node) && !asked.has(*node))
}

/// The replica that the hint names, where it wasn't asked.
fn first_hinted(replicas: &[NodeId], hint: NodeId, asked: NodeSet) -> Option<NodeId>
    requires { All IsNode replicas.now }
    ensures { result ≡ find (λ node. is_node hint node && not (is_member asked node)) replicas.now }
{
    replicas
        .iter()
        .copied()
        .find(|node| *node == hint && !asked.has(*node))
}

/// The first of the replicas that wasn't asked.
fn first_of(replicas: &[NodeId], asked: NodeSet) -> Option<NodeId>
    requires { All IsNode replicas.now }
    ensures order { result ≡ first_unasked asked replicas.now }
    ensures exhausted { IsNone result ↔ All (IsMember asked) replicas.now }
{
    replicas.iter().copied().find(|node| !asked.has(*node))
}
