//! When transactions start, and how far what they meet may count as uncertain.

ghost use Rattle.std.specs.Prelude.{◌≡◌, IfOk, option_copied};
ghost use Rattle.hlc.specs.Readings.{IsEarlier, next_of};
ghost use Rattle.mr_base.specs.Timestamps.{of_reading};
ghost use Rattle.node_states.specs.Moves.{with_kept};
ghost use Rattle.run_laws.specs.Begun.{limit_at};

use crate::states::NodeState;
use journal::Event;
use mr_base::{AttemptId, Kind, Memory, Reading, Settings, Ts};

/// The next reading of a node's clock, which the clock keeps.
pub fn next_reading(node: &mut NodeState) -> Result<Reading, Memory>
    ensures next { IfOk result (λ r. r ≡ next_of node.old.clock.physical node.old.clock.kept) }
    ensures later { IfOk result (λ r. IsEarlier node.old.clock.kept r) }
    ensures kept { IfOk result (λ r. node.new ≡ with_kept r node.old) }
{
    if node.clock.reading().logical == u64::MAX {
        return Err(Memory);
    }
    Ok(node.clock.now())
}

/// A start at a reading, which an attempt owns.
pub fn start_at(r: Reading, attempt: AttemptId) -> Ts
    ensures { result ≡ of_reading r attempt.0 }
{
    Ts {
        wall: r.wall,
        logical: r.logical,
        owner: attempt.0,
    }
}

/// The limit of a transaction that starts so at this line: a wall for one of the present, none for one of the past.
pub fn limit_at(
    event: Option<&Event>,
    start: Ts,
    settings: &Settings,
) -> Result<Option<u64>, Memory>
    ensures { IfOk result (λ limit. limit ≡ limit_at (option_copied event.entry) start settings.now) }
{
    match event {
        Some(
            Event::Txn {
                kind: Kind::Now,
                ..
            },
        ) => match start.wall.checked_add(settings.max_offset) {
            Some(limit) => Ok(Some(limit)),
            None => Err(Memory),
        },
        _ => Ok(None),
    }
}
