//! A server of a range's replica.

ghost use Rattle.std.specs.Prelude.{◌≡◌, ◌≤◌, ◌++◌, ◌∷◌, [], IfOk, OnOk, IsSome, length};
ghost use Rattle.mr_base.specs.Nodes.{IsNode};
ghost use Rattle.mvcc_range.specs.Follows.{Follows};
ghost use Rattle.range_log.specs.Facts.{first_entries, lease_of};
ghost use Rattle.range_log.specs.declared.entries.Entry.TheVariants as entry;
ghost use Rattle.range_rules.specs.Added.{AreLicensed, added_to};
ghost use Rattle.range_server.specs.Applying.{applied_past, seen_after};
ghost use Rattle.range_server.specs.Closing.{Closes};
ghost use Rattle.range_server.specs.Handling.{IsAnswer, Licenses, seen_past};
ghost use Rattle.range_server.specs.Leases.{Acquires, Extends, HasAnswered, HasRefused, Transfers};
ghost use Rattle.range_server.specs.Refusals.{IsByHolder};
ghost use Rattle.range_server.specs.Scene.{IsBeside, applied_by, moment, scene};
ghost use Rattle.range_server.specs.Seen.{nothing_above};

use crate::leases::LeaseRefusal;
use crate::reads::Handled;
use crate::reads_seen::ReadsSeen;
use crate::standing::{Moment, Standing};
use mr_base::{Memory, NodeId, NodeSet, Reading, Request, Settings, Ts};
use mvcc_range::Replica;
use range_log::{Lease, RangeLog};
use std::alloc::Global;
use std::marker::Model;

/// The server of a range's replica at a node. It serves reads and, while it holds the lease, appends to the
/// range's log. Each call that takes the log finds the server beside it: the replica follows the log's first
/// entries, as many as it has applied, and where these make the server holder, they are all. After want of memory
/// nothing is said of the server or of its log, and no further call on either is made; a sum that passes its type
/// counts as that. Source: Taft et al., SIGMOD 2020, and VanBenschoten et al., SIGMOD 2022, in this project's
/// profile.
#[derive(Drop)]
pub struct Server {
    alloc: Global,
    standing: Standing,
}

impl Model for Server {
    ghost use Rattle.range_server.specs.declared.standing.Standing.{Standing};

    ghost Value = { Standing };

    ghost view = { λ s. s.standing };
}

impl Server {
    /// A server at a node, at a boot, that has applied nothing yet; of a range that is global or not.
    pub fn new(alloc: Global, node: NodeId, boot: u32, global: bool) -> Result<Server, Memory>
        ensures at { IfOk result (λ s. (s.node ≡ node) × (s.boot ≡ boot) × (s.is_global ≡ global)) }
        ensures replica { IfOk result (λ s. Follows s.replica []) }
        ensures unread { IfOk result (λ s. s.cache ≡ nothing_above Ts.ZERO) }
    {
        Ok(Server {
            alloc,
            standing: Standing {
                node,
                boot,
                is_global: global,
                replica: Replica::new(alloc),
                cache: ReadsSeen::new(alloc, Ts::ZERO),
            },
        })
    }

    /// Answers a request, and says by what right a read or refresh was served; to a resolve no reply is given. The
    /// server has applied a lease.
    pub fn handle(
        &mut self,
        alloc: Global,
        q: &Request,
        clock: Reading,
        s: &Settings,
        log: &mut RangeLog,
        running: NodeSet,
    ) -> Result<Handled, Memory>
        requires beside { IsBeside self.old log.old.entries }
        requires leased { IsSome (lease_of (applied_by self.old log.old.entries)) }
        ensures grown { OnOk result (log.new.entries
            ≡ added_to log.old.entries log.new.entries ++ log.old.entries) }
        ensures answer { IfOk result (λ handled. IsAnswer (scene self.old log.old (moment clock s.now running)) q.now
            handled.reply handled.by log.new.entries (added_to log.old.entries log.new.entries)) }
        ensures licensed { OnOk result (AreLicensed (Licenses (scene self.old log.old (moment clock s.now running)) q.now)
            (added_to log.old.entries log.new.entries) log.old.entries) }
        ensures held { OnOk result (IsByHolder (scene self.old log.old (moment clock s.now running))
            (added_to log.old.entries log.new.entries)) }
        ensures applied { OnOk result (self.new.replica.applied ≡ applied_past
            (added_to log.old.entries log.new.entries) self.old.replica.applied log.new.entries) }
        ensures seen { IfOk result (λ handled.
            self.new.cache ≡ seen_past q.now handled.reply handled.by self.old.cache) }
        ensures server { OnOk result (self.new
            ≡ record self.old { replica = self.new.replica; cache = self.new.cache }) }
        ensures beside { OnOk result (IsBeside self.new log.new.entries) }
        ensures voters { OnOk result (log.new.voters ≡ log.old.voters) }
    {
        let now = Moment {
            clock,
            settings: *s,
            running,
        };
        self.standing.handle(alloc, q, now, log)
    }

    /// Applies the log's entries up to so many. The last of these that is a lease of the node at its boot begins
    /// anew what is read under it.
    pub fn apply_to(&mut self, log: &RangeLog, upto: u64) -> Result<(), Memory>
        requires follows { Follows self.old.replica (applied_by self.old log.now.entries) }
        requires from { self.old.replica.applied ≤ upto }
        requires within { upto ≤ length log.now.entries }
        ensures replica { OnOk result (Follows self.new.replica (first_entries upto log.now.entries)) }
        ensures server { OnOk result (self.new ≡ record self.old {
          replica = self.new.replica;
          cache = seen_after self.old.node self.old.boot
              (added_to (applied_by self.old log.now.entries) (first_entries upto log.now.entries)) self.old.cache;
        }) }
    {
        self.standing.apply_to(log, upto)
    }

    /// Takes the log's last lease where that is expired, as a voter, and applies the log.
    pub fn acquire(
        &mut self,
        clock: Reading,
        s: &Settings,
        log: &mut RangeLog,
        running: NodeSet,
    ) -> Result<Lease, LeaseRefusal>
        requires node { IsNode self.old.node }
        requires beside { IsBeside self.old log.old.entries }
        ensures answer { Acquires (scene self.old log.old (moment clock s.now running)) result log.new.entries }
        ensures server { IfOk result (λ lease.
            self.new ≡ record self.old { replica = self.new.replica; cache = nothing_above lease.low }) }
        ensures applied { OnOk result (Follows self.new.replica log.new.entries) }
        ensures refused { HasRefused result → self.new ≡ self.old }
        ensures beside { HasAnswered result → IsBeside self.new log.new.entries }
        ensures voters { HasAnswered result → log.new.voters ≡ log.old.voters }
    {
        let now = Moment {
            clock,
            settings: *s,
            running,
        };
        self.standing.acquire(now, log)
    }

    /// Hands the lease that the server holds on to a voter at its boot.
    pub fn transfer(
        &mut self,
        to: NodeId,
        boot: u32,
        clock: Reading,
        s: &Settings,
        log: &mut RangeLog,
        running: NodeSet,
    ) -> Result<Lease, LeaseRefusal>
        requires node { IsNode to }
        requires beside { IsBeside self.old log.old.entries }
        ensures answer { Transfers (scene self.old log.old (moment clock s.now running)) to boot result log.new.entries }
        ensures server { IfOk result (λ lease. self.new ≡ record self.old {
          replica = self.new.replica;
          cache = seen_after self.old.node self.old.boot (entry.Lease lease ∷ []) self.old.cache;
        }) }
        ensures applied { OnOk result (Follows self.new.replica log.new.entries) }
        ensures refused { HasRefused result → self.new ≡ self.old }
        ensures beside { HasAnswered result → IsBeside self.new log.new.entries }
        ensures voters { HasAnswered result → log.new.voters ≡ log.old.voters }
    {
        let now = Moment {
            clock,
            settings: *s,
            running,
        };
        self.standing.transfer(to, boot, now, log)
    }

    /// Extends the lease that the server holds, and keeps what was read under it.
    pub fn extend(
        &mut self,
        clock: Reading,
        s: &Settings,
        log: &mut RangeLog,
        running: NodeSet,
    ) -> Result<Lease, LeaseRefusal>
        requires { IsBeside self.old log.old.entries }
        ensures answer { Extends (scene self.old log.old (moment clock s.now running)) result log.new.entries }
        ensures server { OnOk result (self.new ≡ record self.old { replica = self.new.replica }) }
        ensures applied { OnOk result (Follows self.new.replica log.new.entries) }
        ensures refused { HasRefused result → self.new ≡ self.old }
        ensures beside { HasAnswered result → IsBeside self.new log.new.entries }
        ensures voters { HasAnswered result → log.new.voters ≡ log.old.voters }
    {
        let now = Moment {
            clock,
            settings: *s,
            running,
        };
        self.standing.extend(now, log)
    }

    /// Closes a timestamp of the range that the server holds, and gives it; none where that was closed before.
    pub fn close(
        &mut self,
        clock: Reading,
        s: &Settings,
        log: &mut RangeLog,
        running: NodeSet,
    ) -> Result<Option<Ts>, LeaseRefusal>
        requires { IsBeside self.old log.old.entries }
        ensures answer { Closes (scene self.old log.old (moment clock s.now running)) result log.new.entries }
        ensures server { OnOk result (self.new ≡ record self.old { replica = self.new.replica }) }
        ensures applied { OnOk result (self.new.replica.applied ≡ applied_past
            (added_to log.old.entries log.new.entries) self.old.replica.applied log.new.entries) }
        ensures refused { HasRefused result → self.new ≡ self.old }
        ensures beside { HasAnswered result → IsBeside self.new log.new.entries }
        ensures voters { HasAnswered result → log.new.voters ≡ log.old.voters }
    {
        let now = Moment {
            clock,
            settings: *s,
            running,
        };
        self.standing.close(now, log)
    }

    /// The server's node.
    pub fn node(&self) -> NodeId
        ensures { result ≡ self.now.node }
    {
        self.standing.node
    }

    /// The boot of its node.
    pub fn boot(&self) -> u32
        ensures { result ≡ self.now.boot }
    {
        self.standing.boot
    }

    /// What the server has applied.
    pub fn replica(&self) -> &Replica
        ensures { result.now ≡ self.now.replica }
    {
        &self.standing.replica
    }

    /// The node starts again, at this boot, and knows nothing of what was read.
    pub fn restart(&mut self, boot: u32)
        ensures { self.new ≡ record self.old { boot = boot; cache = nothing_above Ts.ZERO } }
    {
        self.standing.boot = boot;
        self.standing.cache.begin(Ts::ZERO);
    }
}
