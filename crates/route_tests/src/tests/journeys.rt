//! A request's way among the replicas of its range.

ghost use Rattle.std.specs.Prelude.{◌≡◌, IfOk, length};
ghost use Rattle.mr_base.specs.Nodes.{IsNode};

use super::words::{node_of, request_of, small, word};
use mr_base::{Memory, NodeId, NodeSet};
use request_routes::{Hint, Hints, Policy, Progress};
use std::alloc::Global;

/// Whether the request goes to the nodes that the line says, one after the other, and then to none.
pub fn goes_as_said(alloc: Global, line: &str) -> Result<bool, Memory> {
    let (words, steps) = line.split_once(" -> ").unwrap_or((line, ""));
    let (table, words) = word(words);
    let (time, words) = word(words);
    let (verb, words) = word(words);
    let (gateway, hint) = word(words);
    let request = request_of(alloc, verb)?;
    let policy = Policy::of(&request, table == "global", time == "past");
    let mut hints = hints_of(alloc, hint)?;
    let gateway = node_of(gateway);
    let mut progress = Progress::NONE;
    for step in steps.split(' ') {
        let (node, answer) = step.split_once('=').unwrap_or((step, ""));
        let node = node_of(node);
        if next(policy, gateway, &hints, progress) != Some(node) {
            return Ok(false);
        }
        progress = heard(progress.sent(node), &mut hints, gateway, node, answer);
    }
    Ok(next(policy, gateway, &hints, progress).is_none())
}

/// The hints of a node that knows one range, whose first voter is node 1.
fn hints_of(alloc: Global, lease: &str) -> Result<Hints, Memory>
    ensures { IfOk result (λ hints. length hints ≡ 1) }
{
    let mut hints = Hints::new(alloc);
    hints.add_range(NodeId(1))?;
    hints.learn_told(0, told_by(lease));
    Ok(hints)
}

/// The lease of the words, as `3.7`.
fn told_by(lease: &str) -> Hint
    ensures { IsNode result.holder }
{
    let (seq, holder) = lease.split_once('.').unwrap_or((lease, ""));
    Hint {
        seq: small(seq),
        holder: node_of(holder),
    }
}

/// The node that is asked next.
fn next(policy: Policy, gateway: NodeId, hints: &Hints, progress: Progress) -> Option<NodeId>
    requires { length hints.now ≡ 1 }
{
    let replicas = [1, 2, 3, 4, 7].map(NodeId);
    policy.next_replica(
        gateway,
        &replicas,
        near(gateway),
        hints.at(0).holder,
        progress,
    )
}

/// The nodes of the gateway's region.
fn near(gateway: NodeId) -> NodeSet {
    match gateway.0 {
        1..=3 => NodeSet(0b111),
        4..=6 => NodeSet(0b111_000),
        _ => NodeSet(0b111_000_000),
    }
}

/// What a gateway makes of an answer. Of its own replica it hears of no lease.
fn heard(
    progress: Progress,
    hints: &mut Hints,
    gateway: NodeId,
    from: NodeId,
    answer: &str,
) -> Progress
    requires { length hints.old ≡ 1 }
    ensures { length hints.new ≡ 1 }
{
    if answer.is_empty() {
        return progress;
    }
    let told = told_by(answer);
    if from != gateway {
        hints.learn_told(0, told);
    }
    progress.told(gateway, from, told.holder)
}
