//! A range's log with the servers of its replicas.

ghost use Rattle.std.specs.Prelude.{◌≡◌, ◌≢◌, ◌≤◌, ◌<◌, ◌++◌, ◌∷◌, [], All, AllPairs, Contains, IfOk, OnOk, MatchOption, length, map, slice_set};
ghost use Rattle.mr_base.specs.Nodes.{IsNode};
ghost use Rattle.mvcc_range.specs.Follows.{Follows};
ghost use Rattle.range_log.specs.Facts.{first_entries, lease_of};
ghost use Rattle.range_log.specs.declared.entries.Entry.TheVariants as entry;
ghost use Rattle.range_replicas.specs.Beginning.{BeginsWith, HasBegun};
ghost use Rattle.range_replicas.specs.RangeValue.{IsChangedAt, added_in, replicas, scene_at, server_at};
ghost use Rattle.range_replicas.specs.Sound.{IsSound};
ghost use Rattle.range_rules.specs.Added.{AreLicensed, added_to};
ghost use Rattle.range_server.specs.Applying.{applied_past, seen_after};
ghost use Rattle.range_server.specs.Closing.{Closes};
ghost use Rattle.range_server.specs.Handling.{IsAnswer, Licenses, seen_past};
ghost use Rattle.range_server.specs.Leases.{Acquires, Extends, HasAnswered, HasRefused, Transfers};
ghost use Rattle.range_server.specs.Refusals.{IsByHolder};
ghost use Rattle.range_server.specs.Scene.{applied_by, moment};
ghost use Rattle.range_server.specs.Seen.{nothing_above};

use crate::making::{end_of, place_in, servers_of, set_of};
use mr_base::{Memory, NodeId, NodeSet, RangeId, Reading, Request, Settings, Ts};
use range_log::{Lease, RangeLog};
use range_server::{Handled, LeaseRefusal, Server};
use std::alloc::Global;
use std::marker::Model;

/// A range: its log, and the server of each of its replicas, by its place in the list of replicas, those that vote
/// first. After want of memory nothing is said of it, and no further call on it is made. Source: Taft et al.,
/// SIGMOD 2020, in this project's profile.
#[derive(Drop)]
pub struct ReplicatedRange {
    number: RangeId,
    voters: Vec<NodeId>,
    others: Vec<NodeId>,
    is_global: bool,
    log: RangeLog,
    servers: Vec<Server>,
}

impl Model for ReplicatedRange {
    ghost use Rattle.range_replicas.specs.RangeValue.{RangeValue};

    ghost Value = { RangeValue };

    ghost view = { λ r. record {
      number = r.number;
      voters = r.voters.items;
      others = r.others.items;
      is_global = r.is_global;
      log = r.log;
      servers = r.servers.items;
    } };
}

impl ReplicatedRange {
    /// A range that begins with the lease of its first voter, which each replica has applied; the boots of the
    /// replicas' nodes are given by place. A sum that passes its type counts as want of memory.
    pub fn new(
        alloc: Global,
        number: RangeId,
        voters: &[NodeId],
        others: &[NodeId],
        is_global: bool,
        boots: &[u32],
        wall: u64,
        s: &Settings,
        low: Ts,
    ) -> Result<ReplicatedRange, Memory>
        requires some { 0 < length voters.now }
        requires nodes { All IsNode (voters.now ++ others.now) }
        requires distinct { AllPairs ◌≢◌ (voters.now ++ others.now) }
        requires boots { length boots.now ≡ length (voters.now ++ others.now) }
        ensures number { IfOk result (λ r. r.number ≡ number) }
        ensures voters { IfOk result (λ r. r.voters ≡ voters.now) }
        ensures others { IfOk result (λ r. r.others ≡ others.now) }
        ensures global { IfOk result (λ r. r.is_global ≡ is_global) }
        ensures boots { IfOk result (λ r. map (λ server. server.boot) r.servers ≡ boots.now) }
        ensures first { IfOk result (λ r. BeginsWith voters.now boots.now wall s.now.lease low r.log.entries) }
        ensures begun { IfOk result (λ r. All (HasBegun r.log.entries) r.servers) }
        ensures sound { IfOk result (λ r. IsSound r) }
    {
        let first = Lease {
            seq: 1,
            holder: voters[0],
            boot: boots[0],
            expiration: end_of(wall, s.lease)?,
            low,
        };
        let log = RangeLog::new(alloc, set_of(voters), first)?;
        let mut nodes = voters.to_vec(alloc)?;
        nodes.extend_from_slice(others)?;
        let servers = servers_of(alloc, nodes.as_slice(), boots, is_global, &log)?;
        Ok(ReplicatedRange {
            number,
            voters: voters.to_vec(alloc)?,
            others: others.to_vec(alloc)?,
            is_global,
            log,
            servers,
        })
    }

    /// Hands a request to the server at a place, which answers it.
    pub fn handle(
        &mut self,
        alloc: Global,
        place: usize,
        q: &Request,
        clock: Reading,
        s: &Settings,
        running: NodeSet,
    ) -> Result<Handled, Memory>
        requires place { place < length self.old.servers }
        requires sound { IsSound self.old }
        ensures grown { OnOk result (self.new.log.entries ≡ added_in self.old self.new ++ self.old.log.entries) }
        ensures answer { IfOk result (λ handled. IsAnswer (scene_at place self.old (moment clock s.now running)) q.now
            handled.reply handled.by self.new.log.entries (added_in self.old self.new)) }
        ensures licensed { OnOk result (AreLicensed (Licenses (scene_at place self.old (moment clock s.now running)) q.now)
            (added_in self.old self.new) self.old.log.entries) }
        ensures held { OnOk result (IsByHolder (scene_at place self.old (moment clock s.now running))
            (added_in self.old self.new)) }
        ensures applied { OnOk result ((server_at place self.new).replica.applied ≡ applied_past
            (added_in self.old self.new) (server_at place self.old).replica.applied self.new.log.entries) }
        ensures seen { IfOk result (λ handled. (server_at place self.new).cache
            ≡ seen_past q.now handled.reply handled.by (server_at place self.old).cache) }
        ensures server { OnOk result (server_at place self.new ≡ record (server_at place self.old) {
          replica = (server_at place self.new).replica;
          cache = (server_at place self.new).cache;
        }) }
        ensures changed { OnOk result (IsChangedAt place self.old self.new) }
        ensures sound { OnOk result (IsSound self.new) }
    {
        self.servers[place].handle(alloc, q, clock, s, &mut self.log, running)
    }

    /// The replica at a place applies the log's entries up to so many.
    pub fn apply(&mut self, place: usize, upto: u64) -> Result<(), Memory>
        requires place { place < length self.old.servers }
        requires sound { IsSound self.old }
        requires from { (server_at place self.old).replica.applied ≤ upto }
        requires within { upto ≤ length self.old.log.entries }
        ensures applied { OnOk result ((server_at place self.new).replica.applied ≡ upto) }
        ensures server { OnOk result (server_at place self.new ≡ record (server_at place self.old) {
          replica = (server_at place self.new).replica;
          cache = seen_after (server_at place self.old).node (server_at place self.old).boot
              (added_to (applied_by (server_at place self.old) self.old.log.entries) (first_entries upto self.old.log.entries))
              (server_at place self.old).cache;
        }) }
        ensures log { self.new.log ≡ self.old.log }
        ensures changed { OnOk result (IsChangedAt place self.old self.new) }
        ensures sound { OnOk result (IsSound self.new) }
    {
        self.servers[place].apply_to(&self.log, upto)
    }

    /// The node at a place takes the log's last lease where that is expired, as a voter, and applies the log.
    pub fn acquire(
        &mut self,
        place: usize,
        clock: Reading,
        s: &Settings,
        running: NodeSet,
    ) -> Result<Lease, LeaseRefusal>
        requires place { place < length self.old.servers }
        requires sound { IsSound self.old }
        ensures answer { Acquires (scene_at place self.old (moment clock s.now running)) result self.new.log.entries }
        ensures server { IfOk result (λ lease. server_at place self.new ≡ record (server_at place self.old) {
          replica = (server_at place self.new).replica;
          cache = nothing_above lease.low;
        }) }
        ensures applied { OnOk result ((server_at place self.new).replica.applied ≡ length self.new.log.entries) }
        ensures refused { HasRefused result → server_at place self.new ≡ server_at place self.old }
        ensures changed { HasAnswered result → IsChangedAt place self.old self.new }
        ensures sound { HasAnswered result → IsSound self.new }
    {
        self.servers[place].acquire(clock, s, &mut self.log, running)
    }

    /// The server at a place hands the lease that it holds on to a voter at its boot.
    pub fn transfer(
        &mut self,
        place: usize,
        to: NodeId,
        boot: u32,
        clock: Reading,
        s: &Settings,
        running: NodeSet,
    ) -> Result<Lease, LeaseRefusal>
        requires node { IsNode to }
        requires boot { All (λ server. server.node ≡ to → server.boot ≡ boot) self.old.servers }
        requires place { place < length self.old.servers }
        requires sound { IsSound self.old }
        ensures answer { Transfers (scene_at place self.old (moment clock s.now running)) to boot result
            self.new.log.entries }
        ensures server { IfOk result (λ lease. server_at place self.new ≡ record (server_at place self.old) {
          replica = (server_at place self.new).replica;
          cache = seen_after (server_at place self.old).node (server_at place self.old).boot (entry.Lease lease ∷ [])
              (server_at place self.old).cache;
        }) }
        ensures applied { OnOk result ((server_at place self.new).replica.applied ≡ length self.new.log.entries) }
        ensures refused { HasRefused result → server_at place self.new ≡ server_at place self.old }
        ensures changed { HasAnswered result → IsChangedAt place self.old self.new }
        ensures sound { HasAnswered result → IsSound self.new }
    {
        self.servers[place].transfer(to, boot, clock, s, &mut self.log, running)
    }

    /// The server at a place extends the lease that it holds, and keeps what was read under it.
    pub fn extend(
        &mut self,
        place: usize,
        clock: Reading,
        s: &Settings,
        running: NodeSet,
    ) -> Result<Lease, LeaseRefusal>
        requires place { place < length self.old.servers }
        requires sound { IsSound self.old }
        ensures answer { Extends (scene_at place self.old (moment clock s.now running)) result self.new.log.entries }
        ensures server { OnOk result (server_at place self.new
            ≡ record (server_at place self.old) { replica = (server_at place self.new).replica }) }
        ensures applied { OnOk result ((server_at place self.new).replica.applied ≡ length self.new.log.entries) }
        ensures refused { HasRefused result → server_at place self.new ≡ server_at place self.old }
        ensures changed { HasAnswered result → IsChangedAt place self.old self.new }
        ensures sound { HasAnswered result → IsSound self.new }
    {
        self.servers[place].extend(clock, s, &mut self.log, running)
    }

    /// The server at a place closes a timestamp of the range that it holds, and gives it; none where that was
    /// closed before.
    pub fn close(
        &mut self,
        place: usize,
        clock: Reading,
        s: &Settings,
        running: NodeSet,
    ) -> Result<Option<Ts>, LeaseRefusal>
        requires place { place < length self.old.servers }
        requires sound { IsSound self.old }
        ensures answer { Closes (scene_at place self.old (moment clock s.now running)) result self.new.log.entries }
        ensures server { OnOk result (server_at place self.new
            ≡ record (server_at place self.old) { replica = (server_at place self.new).replica }) }
        ensures applied { OnOk result ((server_at place self.new).replica.applied ≡ applied_past
            (added_in self.old self.new) (server_at place self.old).replica.applied self.new.log.entries) }
        ensures refused { HasRefused result → server_at place self.new ≡ server_at place self.old }
        ensures changed { HasAnswered result → IsChangedAt place self.old self.new }
        ensures sound { HasAnswered result → IsSound self.new }
    {
        self.servers[place].close(clock, s, &mut self.log, running)
    }

    /// The node at a place starts again, at a later boot, and knows nothing of what was read.
    pub fn restart(&mut self, place: usize, boot: u32)
        requires place { place < length self.old.servers }
        requires sound { IsSound self.old }
        requires later { (server_at place self.old).boot < boot }
        ensures changed { self.new ≡ record self.old {
          servers = slice_set self.old.servers place
              (record (server_at place self.old) { boot = boot; cache = nothing_above Ts.ZERO });
        } }
        ensures sound { IsSound self.new }
    {
        self.servers[place].restart(boot);
    }

    /// The place of a node's replica, if it has one.
    pub fn place_of(&self, node: NodeId) -> Option<usize>
        requires { IsSound self.now }
        ensures { MatchOption result (¬ Contains (replicas self.now) node)
            (λ place. (place < length self.now.servers) × ((server_at place self.now).node ≡ node)) }
    {
        place_in(self.servers.as_slice(), node)
    }

    /// The server of the replica at a place.
    pub fn server(&self, place: usize) -> &Server
        requires { place < length self.now.servers }
        ensures { result.now ≡ server_at place self.now }
    {
        &self.servers[place]
    }

    /// How many of the log's entries the replica at a place has applied.
    pub fn applied(&self, place: usize) -> u64
        requires place { place < length self.now.servers }
        requires sound { IsSound self.now }
        ensures { result ≡ (server_at place self.now).replica.applied }
    {
        self.servers[place].replica().applied()
    }

    /// How many replicas the range has.
    pub fn len(&self) -> usize
        ensures { result ≡ length self.now.servers }
    {
        self.servers.len()
    }

    /// The number of the range.
    pub fn number(&self) -> RangeId
        ensures { result ≡ self.now.number }
    {
        self.number
    }

    /// The nodes of the replicas that vote.
    pub fn voters(&self) -> &[NodeId]
        ensures { result.now ≡ self.now.voters }
    {
        self.voters.as_slice()
    }

    /// The nodes of the other replicas.
    pub fn others(&self) -> &[NodeId]
        ensures { result.now ≡ self.now.others }
    {
        self.others.as_slice()
    }

    /// Whether the range is of a GLOBAL table.
    pub fn is_global(&self) -> bool
        ensures { result ≡ self.now.is_global }
    {
        self.is_global
    }

    /// The log.
    pub fn log(&self) -> &RangeLog
        ensures { result.now ≡ self.now.log }
    {
        &self.log
    }
}
