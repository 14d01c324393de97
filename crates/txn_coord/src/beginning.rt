//! How a transaction begins.

ghost use Rattle.std.specs.Prelude.{◌≡◌, IfOk};
ghost use Rattle.txn_coord.specs.Machine.{IsTimed, begun, first_read, limit_of};

use crate::progress::{Course, Progress};
use mr_base::{AttemptId, Kind, ListOf, Memory, Reading, Settings, Ts, TxnId};
use std::alloc::Global;

/// A transaction of the present reads at its start, one of the past so many milliseconds before it.
fn first_read(kind: Kind, start: Ts) -> Ts
    requires { IsTimed kind }
    ensures { result ≡ first_read kind start }
{
    match kind {
        Kind::Now => start,
        Kind::Ago(ms) => Ts {
            wall: start.wall.saturating_sub(ms),
            logical: 0,
            owner: start.owner,
        },
        Kind::Within { .. } => unreachable!(),
    }
}

/// The wall up to which a version counts as uncertain; a sum that passes its type is want of memory.
fn limit_of(kind: Kind, start: Ts, s: &Settings) -> Result<Option<u64>, Memory>
    requires { IsTimed kind }
    ensures { IfOk result (λ limit. limit ≡ limit_of kind start s.now) }
{
    match kind {
        Kind::Now => match start.wall.checked_add(s.max_offset) {
            None => Err(Memory),
            Some(limit) => Ok(Some(limit)),
        },
        Kind::Ago(_) => Ok(None),
        Kind::Within { .. } => unreachable!(),
    }
}

/// A transaction begins: its start is owned by its first attempt.
pub fn begun(
    alloc: Global,
    id: TxnId,
    attempt: AttemptId,
    kind: Kind,
    start: Reading,
    s: &Settings,
) -> Result<Progress, Memory>
    requires { IsTimed kind }
    ensures { IfOk result (λ t. t ≡ begun id attempt kind start s.now) }
{
    let start = start.owned_by(attempt.0);
    let read = first_read(kind, start);
    Ok(Progress {
        id,
        attempt,
        kind,
        start,
        limit: limit_of(kind, start, s)?,
        read,
        at: read,
        retries: 0,
        fates: ListOf::new(alloc),
        served: ListOf::new(alloc),
        again: 0,
        anchor: None,
        laid: ListOf::new(alloc),
        resolved: 0,
        put_out: false,
        asked: None,
        course: Course::Reading,
    })
}
