//! What a server is, and how it appends.

ghost use Rattle.std.specs.Prelude.{◌≡◌, ◌↔◌, IsTrue, OnOk, Some, true};
ghost use Rattle.mvcc_range.specs.Follows.{Follows};
ghost use Rattle.range_log.specs.Appends.{has_majority, stopped_of};
ghost use Rattle.range_log.specs.Facts.{lease_of};
ghost use Rattle.range_rules.specs.Holding.{Names};
ghost use Rattle.range_server.specs.Refusals.{IsRefusal, not_holder};
ghost use Rattle.range_server.specs.Steps.{IsAppended};

use crate::reads_seen::ReadsSeen;
use mr_base::{Memory, NodeId, NodeSet, Reading, Reply, Settings};
use mvcc_range::Replica;
use range_log::{Entry, Lease, RangeLog};

/// A server as contracts see it: its node, at which boot, whether its range is global, what it has applied, and
/// what was read under its lease.
#[derive(Drop)]
pub struct Standing {
    pub node: NodeId,
    pub boot: u32,
    pub is_global: bool,
    pub replica: Replica,
    pub cache: ReadsSeen,
}

/// What a call finds beside the log: what the node's clock shows, the settings, and which nodes run.
#[derive(Clone, Copy)]
pub struct Moment {
    pub clock: Reading,
    pub settings: Settings,
    pub running: NodeSet,
}

impl Standing {
    /// Whether a lease names this server's node at its boot.
    pub fn is_named_by(&self, lease: &Lease) -> bool
        ensures { IsTrue result ↔ Names lease.now self.now.node self.now.boot }
    {
        lease.holder == self.node && lease.boot == self.boot
    }

    /// Appends an entry in the name of the lease, which is the log's last, while a majority of the voters runs,
    /// and applies it.
    pub fn append(
        &mut self,
        e: Entry,
        lease: &Lease,
        running: NodeSet,
        log: &mut RangeLog,
    ) -> Result<(), Memory>
        requires last { lease_of log.old.entries ≡ Some lease.now }
        requires majority { has_majority log.old.voters running ≡ true }
        requires follows { Follows self.old.replica log.old.entries }
        ensures { OnOk result (IsAppended e log.old log.new self.old self.new) }
    {
        log.reserve(1)?;
        let Ok(index) = log.append(e, lease.seq, running) else {
            unreachable!();
        };
        self.replica.apply(log.entry(index))?;
        Ok(())
    }
}

/// Why nothing can be appended in the name of a lease: it isn't the log's last, or no majority of the voters runs.
pub fn refusal(lease: &Lease, running: NodeSet, log: &RangeLog) -> Option<Reply>
    ensures { IsRefusal lease.now running log.now result }
{
    if !is_same(lease, &log.lease()) {
        return Some(not_holder(lease));
    }
    if has_majority(log.voters(), running) {
        return None;
    }
    let down = stopped_of(log.voters(), running);
    Some(Reply::NoQuorum { down })
}

/// Whether a majority of the voters runs.
pub fn has_majority(voters: NodeSet, running: NodeSet) -> bool
    ensures { result ≡ has_majority voters running }
{
    let up = NodeSet(voters.0 & running.0);
    u64::from(voters.count()) < 2 * u64::from(up.count())
}

/// The voters that don't run.
pub fn stopped_of(voters: NodeSet, running: NodeSet) -> NodeSet
    ensures { result ≡ stopped_of voters running }
{
    NodeSet(voters.0 ^ (voters.0 & running.0))
}

/// Whether two leases are the same.
pub fn is_same(a: &Lease, b: &Lease) -> bool
    ensures { IsTrue result ↔ (a.now ≡ b.now) }
{
    a.seq == b.seq
        && a.holder == b.holder
        && a.boot == b.boot
        && a.expiration == b.expiration
        && a.low == b.low
}

/// The reply that names the last lease that was applied.
pub fn not_holder(lease: &Lease) -> Reply
    ensures { result ≡ not_holder lease.now }
{
    Reply::NotHolder {
        seq: lease.seq,
        holder: lease.holder,
        expiration: lease.expiration,
    }
}
