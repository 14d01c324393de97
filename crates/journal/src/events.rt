//! What a line of a scenario asks of the cluster.

ghost use Rattle.std.specs.Prelude.{◌≡◌, IfOk};

use mr_base::{Bytes, CloneIn, Kind, Memory, MsgId, NodeId, RangeId, TxnId};
use std::alloc::Global;

/// A line from `begin` on. Durations are in milliseconds. In `Tick` and `Close` None stands for `all`.
#[derive(Drop)]
pub enum Event {
    /// The ranges are made.
    Begin,
    Txn {
        txn: TxnId,
        gateway: NodeId,
        kind: Kind,
        list: Bytes,
    },
    Tick {
        node: Option<NodeId>,
        ms: u64,
    },
    Deliver {
        id: MsgId,
    },
    Apply {
        node: NodeId,
        range: RangeId,
        count: u64,
    },
    Drain,
    Settle {
        ms: u64,
    },
    LeaseAcquire {
        range: RangeId,
        node: NodeId,
    },
    LeaseTransfer {
        range: RangeId,
        node: NodeId,
    },
    LeaseExtend {
        range: RangeId,
    },
    Close {
        range: Option<RangeId>,
    },
    Stop {
        node: NodeId,
    },
    Start {
        node: NodeId,
    },
    ShowRange {
        range: RangeId,
    },
    ShowNode {
        node: NodeId,
    },
    ShowFlight,
    ShowFresh {
        node: NodeId,
    },
    /// A region statement while the cluster runs.
    Sql(Bytes),
    /// A message is lost.
    Drop {
        id: MsgId,
    },
    /// A transaction waits no longer for its request.
    Timeout {
        txn: TxnId,
    },
}

/// The same event once more.
pub fn copy_of_event(alloc: Global, event: &Event) -> Result<Event, Memory>
    ensures { IfOk result (λ copy. copy ≡ event.now) }
{
    match event {
        Event::Txn {
            txn,
            gateway,
            kind,
            list,
        } => copy_of_txn(alloc, *txn, *gateway, *kind, list),
        Event::Sql(text) => copy_of_sql(alloc, text),
        Event::Begin => Ok(Event::Begin),
        Event::Tick { node, ms } => Ok(Event::Tick {
            node: *node,
            ms: *ms,
        }),
        Event::Deliver { id } => Ok(Event::Deliver { id: *id }),
        Event::Apply { node, range, count } => Ok(Event::Apply {
            node: *node,
            range: *range,
            count: *count,
        }),
        Event::Drain => Ok(Event::Drain),
        Event::Settle { ms } => Ok(Event::Settle { ms: *ms }),
        Event::LeaseAcquire { range, node } => Ok(Event::LeaseAcquire {
            range: *range,
            node: *node,
        }),
        Event::LeaseTransfer { range, node } => Ok(Event::LeaseTransfer {
            range: *range,
            node: *node,
        }),
        Event::LeaseExtend { range } => Ok(Event::LeaseExtend { range: *range }),
        Event::Close { range } => Ok(Event::Close { range: *range }),
        Event::Stop { node } => Ok(Event::Stop { node: *node }),
        Event::Start { node } => Ok(Event::Start { node: *node }),
        Event::ShowRange { range } => Ok(Event::ShowRange { range: *range }),
        Event::ShowNode { node } => Ok(Event::ShowNode { node: *node }),
        Event::ShowFlight => Ok(Event::ShowFlight),
        Event::ShowFresh { node } => Ok(Event::ShowFresh { node: *node }),
        Event::Drop { id } => Ok(Event::Drop { id: *id }),
        Event::Timeout { txn } => Ok(Event::Timeout { txn: *txn }),
    }
}

fn copy_of_txn(
    alloc: Global,
    txn: TxnId,
    gateway: NodeId,
    kind: Kind,
    list: &Bytes,
) -> Result<Event, Memory>
    ensures { IfOk result (λ copy. copy ≡ Event.Txn txn gateway kind list.now) }
{
    let list = list.clone_in(alloc)?;
    Ok(Event::Txn {
        txn,
        gateway,
        kind,
        list,
    })
}

fn copy_of_sql(alloc: Global, text: &Bytes) -> Result<Event, Memory>
    ensures { IfOk result (λ copy. copy ≡ Event.Sql text.now) }
{
    let text = text.clone_in(alloc)?;
    Ok(Event::Sql(text))
}
