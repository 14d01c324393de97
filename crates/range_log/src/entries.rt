//! The entries of a range's log, and why a transaction is tried again.

ghost use Rattle.std.specs.Prelude.{◌≡◌, IfOk};

use mr_base::{AttemptId, Bytes, CloneIn, Fate, Memory, NodeId, RangeId, Ts};
use std::alloc::Global;

/// A lease: until the wall `expiration` (milliseconds) its holder, at this boot, serves the range.
/// Nothing that was read below `low` is written any more.
#[derive(Clone, Copy)]
pub struct Lease {
    pub seq: u32,
    pub holder: NodeId,
    pub boot: u32,
    pub expiration: u64,
    pub low: Ts,
}

/// The state of an attempt, as its record says.
#[derive(Clone, Copy)]
pub enum TxnState {
    /// Undecided; where it commits, then above this timestamp.
    Pending(Ts),
    Committed(Ts),
    /// Aborted by this attempt, which may be itself.
    Aborted(AttemptId),
}

/// An entry of a range's log.
#[derive(Drop)]
pub enum Entry {
    Lease(Lease),
    /// An intent of the attempt; without a value it deletes the key. `anchor` is the range of its record.
    Put {
        attempt: AttemptId,
        start: Ts,
        anchor: RangeId,
        ts: Ts,
        key: Bytes,
        value: Option<Bytes>,
    },
    /// The attempt's intent at the key becomes a version, or goes.
    Resolve {
        attempt: AttemptId,
        key: Bytes,
        fate: Fate,
    },
    /// The record of the attempt.
    State {
        attempt: AttemptId,
        state: TxnState,
    },
    /// Nothing is written at or below this timestamp any more.
    Close(Ts),
    /// A pair that a range holds from its making on.
    Load {
        ts: Ts,
        key: Bytes,
        value: Bytes,
    },
}

/// Why a transaction reads again, later.
#[derive(Drop)]
pub enum RetryCause {
    /// A version within the uncertainty limit.
    Uncertain { key: Bytes, ts: Ts },
    /// A refresh found a newer version.
    NewerWrite { ts: Ts },
    /// A reader pushed the attempt.
    Pushed { ts: Ts },
}

impl CloneIn for Entry {
    fn clone_in(&self, alloc: Global) -> Result<Entry, Memory> {
        match self {
            Entry::Lease(lease) => Ok(Entry::Lease(*lease)),
            Entry::Put {
                attempt,
                start,
                anchor,
                ts,
                key,
                value,
            } => copy_of_put(alloc, *attempt, *start, *anchor, *ts, key, value),
            Entry::Resolve { attempt, key, fate } => copy_of_resolve(alloc, *attempt, key, *fate),
            Entry::State { attempt, state } => Ok(Entry::State {
                attempt: *attempt,
                state: *state,
            }),
            Entry::Close(ts) => Ok(Entry::Close(*ts)),
            Entry::Load { ts, key, value } => copy_of_load(alloc, *ts, key, value),
        }
    }
}

fn copy_of_put(
    alloc: Global,
    attempt: AttemptId,
    start: Ts,
    anchor: RangeId,
    ts: Ts,
    key: &Bytes,
    value: &Option<Bytes>,
) -> Result<Entry, Memory>
    ensures { IfOk result (λ copy. copy ≡ Entry.Put attempt start anchor ts key.now value.now) }
{
    let key = key.clone_in(alloc)?;
    let value = value.clone_in(alloc)?;
    Ok(Entry::Put {
        attempt,
        start,
        anchor,
        ts,
        key,
        value,
    })
}

fn copy_of_resolve(
    alloc: Global,
    attempt: AttemptId,
    key: &Bytes,
    fate: Fate,
) -> Result<Entry, Memory>
    ensures { IfOk result (λ copy. copy ≡ Entry.Resolve attempt key.now fate) }
{
    let key = key.clone_in(alloc)?;
    Ok(Entry::Resolve { attempt, key, fate })
}

fn copy_of_load(alloc: Global, ts: Ts, key: &Bytes, value: &Bytes) -> Result<Entry, Memory>
    ensures { IfOk result (λ copy. copy ≡ Entry.Load ts key.now value.now) }
{
    let key = key.clone_in(alloc)?;
    let value = value.clone_in(alloc)?;
    Ok(Entry::Load { ts, key, value })
}

impl CloneIn for RetryCause {
    fn clone_in(&self, alloc: Global) -> Result<RetryCause, Memory> {
        match self {
            RetryCause::Uncertain { key, ts } => Ok(RetryCause::Uncertain {
                key: key.clone_in(alloc)?,
                ts: *ts,
            }),
            RetryCause::NewerWrite { ts } => Ok(RetryCause::NewerWrite { ts: *ts }),
            RetryCause::Pushed { ts } => Ok(RetryCause::Pushed { ts: *ts }),
        }
    }
}
