//! How far a request has come among the replicas of its range.

ghost use Rattle.std.specs.Prelude.{◌≡◌, ◌↔◌, ◌⊎◌, None};
ghost use Rattle.mr_base.specs.Nodes.{IsMember, IsNode};
ghost use Rattle.mr_base.specs.declared.ids.NodeId.{NodeId};
ghost use Rattle.request_routes.specs.Progress.{named_by};

use mr_base::{NodeId, NodeSet};

/// The nodes that a request was sent to, and the one that the last reply named as leaseholder, if that one is next.
#[derive(Clone, Copy)]
pub struct Progress {
    pub asked: NodeSet,
    pub named: Option<NodeId>,
}

impl Progress {
    /// Nobody was asked.
    pub const NONE: Progress = Progress {
        asked: NodeSet::EMPTY,
        named: None,
    };

    /// The request goes to a node.
    pub fn sent(self, to: NodeId) -> Progress
        requires { IsNode to }
        ensures asked { (n : NodeId) → IsNode n → (IsMember result.asked n ↔ ((n ≡ to) ⊎ IsMember self.asked n)) }
        ensures named { result.named ≡ None }
    {
        Progress {
            asked: self.asked.with(to),
            named: None,
        }
    }

    /// The node `from` answered that `holder` is the leaseholder. The gateway's own node names nobody.
    pub fn told(self, gateway: NodeId, from: NodeId, holder: NodeId) -> Progress
        requires { IsNode holder }
        ensures asked { result.asked ≡ self.asked }
        ensures named { result.named ≡ named_by gateway from holder self }
    {
        let named = if gateway == from || self.asked.has(holder) {
            None
        } else {
            Some(holder)
        };
        Progress {
            asked: self.asked,
            named,
        }
    }
}
