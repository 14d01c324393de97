//! Leases are taken, handed on and extended.

ghost use Rattle.std.specs.Prelude.{◌≡◌, ◌≢◌, ◌<◌, ◌∷◌, OnErr, OnOk, IfOk, [], false, length, true};
ghost use Rattle.journal.specs.declared.entries.JournalEntry.TheVariants as made;
ghost use Rattle.journal.specs.declared.events.Event.TheVariants as events;
ghost use Rattle.mr_base.specs.declared.ids.NodeId.{NodeId};
ghost use Rattle.range_replicas.specs.RangeValue.{IsChangedAt, scene_at, server_at};
ghost use Rattle.range_replicas.specs.Sound.{IsSound};
ghost use Rattle.range_server.specs.Leases.{HasAnswered, HasRefused};
ghost use Rattle.range_server.specs.Scene.{moment};
ghost use Rattle.run_laws.specs.OrderEvents.{IsFirstAt};
ghost use Rattle.run_laws.specs.RangeLines.{IsLeaseEventAt};
ghost use Rattle.run_words.specs.Clocks.{reading};
ghost use Rattle.run_words.specs.History.{History, Made};
ghost use Rattle.run_words.specs.Logs.{log_of};
ghost use Rattle.run_words.specs.Nodes.{is_running};
ghost use Rattle.run_words.specs.Steps.{event_of, has_entry};
ghost use Rattle.cluster_state.specs.LeaseMoves.{Gives, IsAskOf, IsAskAt, IsWhy, MovesLease, lease_event};
ghost use Rattle.cluster_state.specs.RangeAt.{range_at};
ghost use Rattle.cluster_state.specs.Tied.{HasMade, IsThere, IsTied, IsUnrecorded, past, the_setup};

use crate::hints::learn_leases;
use crate::state::State;
use journal::{JournalEntry, LeaseWhy};
use mr_base::{Memory, NodeId, NodeSet, RangeId, Reading, Settings};
use range_log::{Entry, Lease};
use range_replicas::{ReplicatedRange, majority_is_more_than_half};
use range_server::LeaseRefusal;

/// What is asked of the lease of a range.
#[derive(Clone, Copy)]
pub enum Ask {
    /// To take it, as it is expired.
    Acquire,
    /// To hand it on to a node, at its boot.
    Transfer { to: NodeId, boot: u32 },
    /// To extend it.
    Extend,
}

/// A server is asked so.
fn ask_lease(
    range: &mut ReplicatedRange,
    place: usize,
    ask: Ask,
    clock: Reading,
    settings: &Settings,
    running: NodeSet,
) -> Result<Lease, LeaseRefusal>
    requires place { place < length range.old.servers }
    requires sound { IsSound range.old }
    requires to { IsAskOf ask range.old }
    ensures answer { Gives ask (scene_at place range.old (moment clock settings.now running)) result range.new.log.entries }
    ensures node { OnOk result ((server_at place range.new).node ≡ (server_at place range.old).node) }
    ensures boot { OnOk result ((server_at place range.new).boot ≡ (server_at place range.old).boot) }
    ensures applied { OnOk result ((server_at place range.new).replica.applied ≡ length range.new.log.entries) }
    ensures refused { HasRefused result → server_at place range.new ≡ server_at place range.old }
    ensures changed { HasAnswered result → IsChangedAt place range.old range.new }
    ensures sound { HasAnswered result → IsSound range.new }
{
    match ask {
        Ask::Acquire => range.acquire(place, clock, settings, running),
        Ask::Transfer { to, boot } => range.transfer(place, to, boot, clock, settings, running),
        Ask::Extend => range.extend(place, clock, settings, running),
    }
}

/// Why a lease doesn't move, as the journal says it.
fn why_of(refusal: LeaseRefusal) -> Result<LeaseWhy, Memory>
    ensures { IfOk result (λ why. IsWhy refusal why) }
{
    match refusal {
        LeaseRefusal::Live { expiration } => Ok(LeaseWhy::Live { expiration }),
        LeaseRefusal::NotVoter => Ok(LeaseWhy::NotVoter),
        LeaseRefusal::NotHolder => Ok(LeaseWhy::NotHolder),
        LeaseRefusal::NoQuorum { down } => Ok(LeaseWhy::NoQuorum { down }),
        LeaseRefusal::Memory => Err(Memory),
    }
}

impl State {
    /// The server of a node's replica, at a place, is asked to take, hand on or extend the lease at the line that says
    /// so: the lease is appended, or it is said why not.
    fn move_lease(
        &mut self,
        number: RangeId,
        node: NodeId,
        place: usize,
        ask: Ask,
        clock: Reading,
    ) -> Result<(), Memory>
        requires tied { IsTied self.old }
        requires made { log_of (the_setup self.old) (past self.old) number ≢ [] }
        requires place { place < length (range_at number self.old).servers }
        requires node { (server_at place (range_at number self.old)).node ≡ node }
        requires running { is_running (the_setup self.old) (past self.old) node ≡ true }
        requires line { IsFirstAt (past self.old) (lease_event ask number node) }
        requires clock { clock ≡ reading (the_setup self.old) (past self.old) node }
        requires to { IsAskAt ask (the_setup self.old) (past self.old) }
        ensures made { OnOk result ((items : History) × MovesLease number items × HasMade items self.old self.new) }
        ensures err { OnErr result (IsUnrecorded self.old self.new) }
    {
        majority_is_more_than_half();
        self.ledger.reserve(2)?;
        let settings = self.stage.settings;
        let range = &mut self.ranges[(number.0 - 1) as usize];
        let applied = range.applied(place);
        match ask_lease(range, place, ask, clock, &settings, self.running) {
            Ok(lease) => {
                let index = range.log().len();
                learn_leases(self.hints.as_mut_slice(), node, range, applied, index);
                self.ledger.write(JournalEntry::Append {
                    range: number,
                    index,
                    entry: Entry::Lease(lease),
                });
                self.ledger.write(JournalEntry::Lease {
                    range: number,
                    seq: lease.seq,
                    holder: lease.holder,
                    expiration: lease.expiration,
                });
                Ok(())
            }
            Err(refusal) => {
                let why = why_of(refusal)?;
                self.ledger
                    .write(JournalEntry::LeaseRefused { range: number, why });
                Ok(())
            }
        }
    }
}

impl State {
    /// It is said why a lease doesn't move.
    fn refuse_lease(&mut self, number: RangeId, why: LeaseWhy) -> Result<(), Memory>
        requires tied { IsTied self.old }
        requires line { IsLeaseEventAt (event_of (past self.old)) number }
        requires first { has_entry (past self.old) ≡ false }
        ensures made { OnOk result (HasMade (Made (made.LeaseRefused number why) ∷ []) self.old self.new) }
        ensures err { OnErr result (IsUnrecorded self.old self.new) }
    {
        self.ledger.reserve(1)?;
        self.ledger
            .write(JournalEntry::LeaseRefused { range: number, why });
        Ok(())
    }

    /// A node that runs takes the lease of a range where that is expired, at the line that says so.
    pub fn acquire(&mut self, number: RangeId, node: NodeId) -> Result<(), Memory>
        requires tied { IsTied self.old }
        requires there { IsThere self.old.stage node }
        requires line { IsFirstAt (past self.old) (events.LeaseAcquire number node) }
        requires running { is_running (the_setup self.old) (past self.old) node ≡ true }
        requires made { log_of (the_setup self.old) (past self.old) number ≢ [] }
        ensures made { OnOk result ((items : History) × MovesLease number items × HasMade items self.old self.new) }
        ensures err { OnErr result (IsUnrecorded self.old self.new) }
    {
        let Some(place) = self.ranges[(number.0 - 1) as usize].place_of(node) else {
            return self.refuse_lease(number, LeaseWhy::NotVoter);
        };
        let clock = self.nodes[(node.0 - 1) as usize].clock.reading();
        self.move_lease(number, node, place, Ask::Acquire, clock)
    }

    /// The node that holds the lease of a range, where it runs, hands it on or extends it, at the line that says so.
    fn move_held(&mut self, number: RangeId, ask: Ask) -> Result<(), Memory>
        requires tied { IsTied self.old }
        requires line { (node : NodeId) → IsFirstAt (past self.old) (lease_event ask number node) }
        requires made { log_of (the_setup self.old) (past self.old) number ≢ [] }
        requires to { IsAskAt ask (the_setup self.old) (past self.old) }
        ensures made { OnOk result ((items : History) × MovesLease number items × HasMade items self.old self.new) }
        ensures err { OnErr result (IsUnrecorded self.old self.new) }
    {
        let range = &self.ranges[(number.0 - 1) as usize];
        let holder = range.log().lease().holder;
        let Some(place) = range.place_of(holder) else {
            return self.refuse_lease(number, LeaseWhy::NotHolder);
        };
        let node = &self.nodes[(holder.0 - 1) as usize];
        if !node.runs {
            return self.refuse_lease(number, LeaseWhy::NotHolder);
        }
        let clock = node.clock.reading();
        self.move_lease(number, holder, place, ask, clock)
    }

    /// The holder of the lease of a range hands it on to a node, at the line that says so.
    pub fn transfer(&mut self, number: RangeId, to: NodeId) -> Result<(), Memory>
        requires tied { IsTied self.old }
        requires there { IsThere self.old.stage to }
        requires line { IsFirstAt (past self.old) (events.LeaseTransfer number to) }
        requires made { log_of (the_setup self.old) (past self.old) number ≢ [] }
        ensures made { OnOk result ((items : History) × MovesLease number items × HasMade items self.old self.new) }
        ensures err { OnErr result (IsUnrecorded self.old self.new) }
    {
        let boot = self.nodes[(to.0 - 1) as usize].boot;
        self.move_held(number, Ask::Transfer { to, boot })
    }

    /// The holder of the lease of a range extends it, at the line that says so.
    pub fn extend(&mut self, number: RangeId) -> Result<(), Memory>
        requires tied { IsTied self.old }
        requires line { IsFirstAt (past self.old) (events.LeaseExtend number) }
        requires made { log_of (the_setup self.old) (past self.old) number ≢ [] }
        ensures made { OnOk result ((items : History) × MovesLease number items × HasMade items self.old self.new) }
        ensures err { OnErr result (IsUnrecorded self.old self.new) }
    {
        self.move_held(number, Ask::Extend)
    }
}
