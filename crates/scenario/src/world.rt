//! What a line may need to know of the cluster.

ghost use Rattle.std.specs.Prelude.{◌≡◌, ◌↔◌, ℕ, List, IsTrue, Contains, IfSome, IfNone};
ghost use Rattle.mr_base.specs.declared.ids.MsgId.{MsgId};
ghost use Rattle.mr_base.specs.declared.ids.NodeId.{NodeId};
ghost use Rattle.mr_base.specs.declared.ids.RangeId.{RangeId};
ghost use Rattle.mr_base.specs.declared.ids.TxnId.{TxnId};

use mr_base::{MsgId, NodeId, RangeId, TxnId};

/// What a cluster tells of itself to the reader of a scenario.
pub trait World {
    ghost use Rattle.std.specs.Prelude.{ℕ, List};
    ghost use Rattle.mr_base.specs.declared.ids.MsgId.{MsgId};
    ghost use Rattle.mr_base.specs.declared.ids.NodeId.{NodeId};
    ghost use Rattle.mr_base.specs.declared.ids.RangeId.{RangeId};
    ghost use Rattle.mr_base.specs.declared.ids.TxnId.{TxnId};

    /// The messages in flight.
    ghost flight: { Self → List MsgId };

    /// How many ranges were made.
    ghost made: { Self → ℕ };

    /// The ranges that aren't retired.
    ghost live_ranges: { Self → List RangeId };

    /// The nodes with the ranges of which they hold a replica.
    ghost replicas: { Self → List (NodeId × RangeId) };

    /// The transactions that wait for a request, with that request.
    ghost awaited: { Self → List (TxnId × MsgId) };

    fn in_flight(&self, m: MsgId) -> bool
        ensures { IsTrue result ↔ Contains (flight self.now) m };

    fn ranges(&self) -> u32
        ensures { result ≡ made self.now };

    fn live(&self, r: RangeId) -> bool
        ensures { IsTrue result ↔ Contains (live_ranges self.now) r };

    fn has_replica(&self, n: NodeId, r: RangeId) -> bool
        ensures { IsTrue result ↔ Contains (replicas self.now) (n, r) };

    fn awaits(&self, t: TxnId) -> Option<MsgId>
        ensures some { IfSome result (λ m. Contains (awaited self.now) (t, m)) }
        ensures none { IfNone result ((m : MsgId) → ¬ Contains (awaited self.now) (t, m)) };
}

/// A world without messages, ranges and replicas, as there is none before `begin`.
#[derive(Clone, Copy)]
pub struct NoWorld;

impl World for NoWorld {
    ghost use Rattle.std.specs.Prelude.{[]};

    ghost flight = { λ w. [] };

    ghost made = { λ w. 0 };

    ghost live_ranges = { λ w. [] };

    ghost replicas = { λ w. [] };

    ghost awaited = { λ w. [] };

    fn in_flight(&self, _m: MsgId) -> bool {
        false
    }

    fn ranges(&self) -> u32 {
        0
    }

    fn live(&self, _r: RangeId) -> bool {
        false
    }

    fn has_replica(&self, _n: NodeId, _r: RangeId) -> bool {
        false
    }

    fn awaits(&self, _t: TxnId) -> Option<MsgId> {
        None
    }
}
