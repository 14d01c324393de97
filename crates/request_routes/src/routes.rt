//! Which replica a request goes to next.

ghost use Rattle.std.specs.Prelude.{◌≡◌, ◌↔◌, ◌&&◌, All, Contains, IfSome, IsNone, IsTrue, find, not};
ghost use Rattle.std.specs.List.{list_any};
ghost use Rattle.closed_ts.specs.Routing.{first_unasked, is_member, is_node};
ghost use Rattle.mr_base.specs.Nodes.{IsMember, IsNode};
ghost use Rattle.mr_base.specs.declared.ids.NodeId.{NodeId};
ghost use Rattle.request_routes.specs.Routes.{named_first, own_first, policy_of, preferred, read_policy, route};
ghost use Rattle.request_routes.specs.Routes.{stands_in};

use crate::progress::Progress;
use closed_ts::next_target;
use mr_base::{Bytes, NodeId, NodeInfo, NodeSet, Request};

/// Which replicas a request prefers.
#[derive(Clone, Copy)]
pub enum Policy {
    /// The leaseholder.
    Leaseholder,
    /// The gateway's own replica, then the leaseholder.
    OwnFirst,
    /// The gateway's own replica, then those of its region, then the leaseholder.
    Nearest,
}

impl Policy {
    /// The policy of a request, where its range is of a GLOBAL table or its transaction reads the past.
    pub fn of(request: &Request, is_global: bool, is_past: bool) -> Policy
        ensures { result ≡ policy_of request.now is_global is_past }
    {
        match request {
            Request::Read { .. } => Policy::of_read(is_global, is_past),
            Request::Refresh { .. } => Policy::of_read(is_global, is_past),
            _ => Policy::Leaseholder,
        }
    }

    fn of_read(is_global: bool, is_past: bool) -> Policy
        ensures { result ≡ read_policy is_global is_past }
    {
        if is_global || is_past {
            Policy::Nearest
        } else {
            Policy::OwnFirst
        }
    }

    /// The replica that a request goes to next: the first on its route that wasn't asked. `near` are the nodes of the
    /// gateway's region, and `hint` is the node that the gateway believes to be leaseholder. None where all were asked.
    pub fn next_replica(
        self,
        gateway: NodeId,
        replicas: &[NodeId],
        near: NodeSet,
        hint: NodeId,
        progress: Progress,
    ) -> Option<NodeId>
        requires { All IsNode replicas.now }
        ensures order { result ≡ first_unasked progress.asked (route self gateway near hint progress.named replicas.now) }
        ensures replica { IfSome result (λ n. Contains replicas.now n) }
        ensures unasked { IfSome result (λ n. ¬ IsMember progress.asked n) }
        ensures exhausted { IsNone result ↔ All (IsMember progress.asked) replicas.now }
    {
        self.first_named(replicas, progress)
            .or(self.first_own(gateway, replicas, progress.asked))
            .or(next_target(replicas, self.preferred(near), progress.asked, hint))
    }

    /// The replica that a reply named, where it wasn't asked.
    fn first_named(self, replicas: &[NodeId], progress: Progress) -> Option<NodeId>
        requires { All IsNode replicas.now }
        ensures { result ≡ first_unasked progress.asked (named_first progress.named replicas.now) }
    {
        match progress.named {
            None => None,
            Some(named) => first_of_node(named, replicas, progress.asked),
        }
    }

    /// For a read, the gateway's own replica, where it wasn't asked.
    fn first_own(self, gateway: NodeId, replicas: &[NodeId], asked: NodeSet) -> Option<NodeId>
        requires { All IsNode replicas.now }
        ensures { result ≡ first_unasked asked (own_first self gateway replicas.now) }
    {
        match self {
            Policy::Leaseholder => None,
            _ => first_of_node(gateway, replicas, asked),
        }
    }

    /// The nodes of the gateway's region, where those go before the leaseholder.
    fn preferred(self, near: NodeSet) -> NodeSet
        ensures { result ≡ preferred self near }
    {
        match self {
            Policy::Nearest => near,
            _ => NodeSet::EMPTY,
        }
    }
}

/// The replica of a node, where it wasn't asked.
fn first_of_node(node: NodeId, replicas: &[NodeId], asked: NodeSet) -> Option<NodeId>
    requires { All IsNode replicas.now }
    ensures { result ≡ find (λ replica. is_node node replica && not (is_member asked replica)) replicas.now }
{
    replicas
        .iter()
        .copied()
        .find(|replica| *replica == node && !asked.has(*replica))
}

/// The nodes of a region.
pub fn nodes_of_region(nodes: &[NodeInfo], region: &Bytes) -> NodeSet
    requires { All (λ node. IsNode node.id) nodes.now }
    ensures { (n : NodeId) → IsNode n → (IsMember result n ↔ IsTrue (list_any (stands_in region.now n) nodes.now)) }
{
    let mut found = NodeSet::EMPTY;
    for node in nodes {
        if node.region == *region {
            found = found.with(node.id);
        }
    }
    found
}
