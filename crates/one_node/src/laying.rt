//! Where a put is laid, and when an answer may be given.

ghost use Rattle.std.specs.Prelude.{◌≡◌, ◌↔◌, ◌+◌, ◌<◌, ◌≤◌, ◌^◌, IsTrue};
ghost use Rattle.one_node.specs.Laying.{laid};

use mr_base::{AttemptId, Reading, Ts};

/// Where a put is laid that asks for a timestamp, given the greatest timestamp that stands in its way:
/// of the reads of its key, its versions, the closed timestamp and the low water of the lease.
/// Source: this project's profile.
pub fn laid_at(asked: Ts, floor: Ts, attempt: AttemptId) -> Ts
    requires room { floor.logical + 1 < 2 ^ 64 }
    ensures place { result ≡ laid asked floor attempt.0 }
{
    if asked.is_below(floor) {
        floor.above(attempt.0)
    } else {
        asked
    }
}

/// Whether the gateway's clock has come to a timestamp, so that an answer at it may be given: the commit
/// wait. Source: VanBenschoten et al., SIGMOD 2022.
pub fn has_passed(clock: Reading, ts: Ts) -> bool
    ensures { IsTrue result ↔ (ts.wall ≤ clock.wall) }
{
    ts.wall <= clock.wall
}
