//! The facts of the entries that were applied.

ghost use Rattle.std.specs.Prelude.{◌≡◌, ◌∷◌, [], List, OnOk, OnErr};
ghost use Rattle.mvcc_range.specs.Follows.{AreFacts};
ghost use Rattle.range_log.specs.declared.entries.Entry.{Entry};

use crate::key_state::{Intent, KeptIntent, KeyState};
use crate::keys::{lay, load, resolve};
use mr_base::{AttemptId, Bytes, CloneIn, Memory, Ts};
use range_log::{Entry, Lease, TxnState};
use std::alloc::Global;
use std::collections::BTreeMap;

/// What stands at each key, the record of each attempt, the last lease and what was closed.
#[derive(Drop)]
pub struct Facts {
    pub keys: BTreeMap<Bytes, KeyState>,
    pub states: BTreeMap<AttemptId, TxnState>,
    pub lease: Option<Lease>,
    pub closed: Ts,
}

impl Facts {
    /// The facts of no entry.
    pub fn new(alloc: Global) -> Facts
        ensures { AreFacts result.keys.entries result.states.entries result.lease result.closed [] }
    {
        Facts {
            keys: BTreeMap::new(alloc),
            states: BTreeMap::new(alloc),
            lease: None,
            closed: Ts::ZERO,
        }
    }

    /// One entry more was applied. After want of memory nothing has changed.
    pub fn take(&mut self, alloc: Global, e: &Entry) -> Result<(), Memory>
        ensures ok { OnOk result ((entries : List Entry)
            → AreFacts self.old.keys.entries self.old.states.entries self.old.lease self.old.closed entries
            → AreFacts self.new.keys.entries self.new.states.entries self.new.lease self.new.closed (e.now ∷ entries)) }
        ensures err_keys { OnErr result (self.new.keys.entries ≡ self.old.keys.entries) }
        ensures err_states { OnErr result (self.new.states.entries ≡ self.old.states.entries) }
        ensures err_lease { OnErr result (self.new.lease ≡ self.old.lease) }
        ensures err_closed { OnErr result (self.new.closed ≡ self.old.closed) }
    {
        match e {
            Entry::Lease(lease) => {
                self.lease = Some(*lease);
                Ok(())
            }
            Entry::Put {
                attempt,
                start,
                anchor,
                ts,
                key,
                value,
            } => {
                let value = value.clone_in(alloc)?;
                let intent = Intent {
                    attempt: *attempt,
                    start: *start,
                    anchor: *anchor,
                    ts: *ts,
                };
                lay(&mut self.keys, alloc, key, KeptIntent { intent, value })?;
                Ok(())
            }
            Entry::Resolve { attempt, key, fate } => {
                resolve(&mut self.keys, alloc, key, *attempt, *fate)?;
                Ok(())
            }
            Entry::State { attempt, state } => {
                self.states.insert(*attempt, *state)?;
                Ok(())
            }
            Entry::Close(ts) => {
                self.closed = self.closed.later(*ts);
                Ok(())
            }
            Entry::Load { ts, key, value } => {
                let value = value.clone_in(alloc)?;
                load(&mut self.keys, alloc, key, *ts, value)?;
                Ok(())
            }
        }
    }
}
