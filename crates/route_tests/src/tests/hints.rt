//! The hints of a node that knows three ranges.

ghost use Rattle.std.specs.Prelude.{◌≡◌, IfOk, length};

use mr_base::{Memory, NodeId, Ts};
use range_log::Lease;
use request_routes::{Hint, Hints};
use std::alloc::Global;

/// What a node learns of the second range.
#[derive(Clone, Copy)]
enum News {
    /// A reply tells a lease.
    Told,
    /// The node's own replica applies a lease.
    Applied,
    /// The node is started again, and its replica had applied a lease.
    Started,
    /// The node is started again, and has no replica.
    Bare,
}

/// News of a lease (sequence and holder), and the hint after it. The second range's first voter is node 4.
const STEPS: [(News, u32, u32, u32, u32); 9] = [
    (News::Told, 1, 5, 1, 4),
    (News::Told, 3, 6, 3, 6),
    (News::Told, 2, 5, 3, 6),
    (News::Told, 3, 5, 3, 6),
    (News::Applied, 2, 5, 2, 5),
    (News::Applied, 4, 4, 4, 4),
    (News::Started, 3, 6, 3, 6),
    (News::Told, 9, 5, 9, 5),
    (News::Bare, 0, 0, 1, 4),
];

/// Whether the hint is after each step what the step says, and those of the other ranges stay.
pub fn are_learned(alloc: Global) -> Result<bool, Memory> {
    let mut hints = three(alloc)?;
    for (news, seq, holder, seq_after, holder_after) in STEPS {
        learn(&mut hints, news, seq, NodeId(holder));
        let is_right = is_hint(hints.at(1), seq_after, holder_after);
        if !is_right || !is_hint(hints.at(0), 1, 1) || !is_hint(hints.at(2), 1, 7) {
            return Ok(false);
        }
    }
    Ok(true)
}

fn three(alloc: Global) -> Result<Hints, Memory>
    ensures { IfOk result (λ hints. length hints ≡ 3) }
{
    let mut hints = Hints::new(alloc);
    hints.add_range(NodeId(1))?;
    hints.add_range(NodeId(4))?;
    hints.add_range(NodeId(7))?;
    Ok(hints)
}

fn is_hint(hint: Hint, seq: u32, holder: u32) -> bool {
    hint.seq == seq && hint.holder == NodeId(holder)
}

fn learn(hints: &mut Hints, news: News, seq: u32, holder: NodeId)
    requires { length hints.old ≡ 3 }
    ensures { length hints.new ≡ 3 }
{
    let lease = Lease {
        seq,
        holder,
        boot: 1,
        expiration: 1000,
        low: Ts::ZERO,
    };
    match news {
        News::Told => hints.learn_told(1, Hint::of(lease)),
        News::Applied => hints.learn_applied(1, lease),
        News::Started => hints.restart(1, Some(lease), NodeId(4)),
        News::Bare => hints.restart(1, None, NodeId(4)),
    }
}
