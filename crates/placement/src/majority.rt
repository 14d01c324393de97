//! Whether a placement keeps a majority of its voters.

ghost use Rattle.std.specs.Prelude.{◌≡◌, ◌↔◌, All, IsTrue, count_by};
ghost use Rattle.mr_base.specs.Nodes.{IsNode};
ghost use Rattle.placement.specs.Majority.{KeepsMajority, remains};

use crate::placement_types::Placement;
use mr_base::{NodeId, NodeSet};

/// Whether more than half of the voters are outside the set of lost nodes.
pub fn keeps_majority(p: &Placement, lost: NodeSet) -> bool
    requires { All IsNode p.now.voters }
    ensures { IsTrue result ↔ KeepsMajority p.now.voters lost }
{
    let voters = p.voters.as_slice();
    voters.len() / 2 < count_remaining(voters, lost)
}

fn count_remaining(voters: &[NodeId], lost: NodeSet) -> usize
    requires { All IsNode voters.now }
    ensures { result ≡ count_by (remains lost) voters.now }
{
    let mut remaining = 0;
    for voter in voters {
        if !lost.has(*voter) {
            remaining += 1;
        }
    }
    remaining
}
