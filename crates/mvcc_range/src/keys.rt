//! What stands at each key, by key.

ghost use Rattle.std.specs.Prelude.{◌≡◌, ◌&&◌, List, ℕ, OnOk, OnErr, Some, if◌then◌else◌};
ghost use Rattle.mr_base.specs.declared.timestamps.Ts.{Ts};
ghost use Rattle.mvcc_range.specs.KeyFacts.{intent_after, same_key, same_ts, state_at, value_after, version_at};

use crate::key_state::{KeptIntent, KeyState};
use mr_base::{AttemptId, Bytes, CloneIn, Fate, Memory, Ts};
use std::alloc::Global;
use std::collections::BTreeMap;

/// Lays an intent at a key. After want of memory nothing has changed.
pub fn lay(
    keys: &mut BTreeMap<Bytes, KeyState>,
    alloc: Global,
    key: &Bytes,
    kept: KeptIntent,
) -> Result<(), Memory>
    ensures ok { OnOk result ((q : List ℕ)
        → ((state_at q keys.new.entries).intent
        ≡ (if same_key key.now q then Some kept else (state_at q keys.old.entries).intent))
        × ((ts : Ts) → version_at ts (state_at q keys.new.entries) ≡ version_at ts (state_at q keys.old.entries))) }
    ensures err { OnErr result (keys.new.entries ≡ keys.old.entries) }
{
    if let Some(state) = keys.get_mut(key) {
        state.lay(kept);
        return Ok(());
    }
    let mut state = KeyState::new(alloc);
    state.lay(kept);
    keys.insert(key.clone_in(alloc)?, state)?;
    Ok(())
}

/// Adds a version of a key. After want of memory nothing has changed.
pub fn load(
    keys: &mut BTreeMap<Bytes, KeyState>,
    alloc: Global,
    key: &Bytes,
    ts: Ts,
    value: Bytes,
) -> Result<(), Memory>
    ensures ok { OnOk result ((q : List ℕ)
        → ((state_at q keys.new.entries).intent ≡ (state_at q keys.old.entries).intent)
        × ((r : Ts) → version_at r (state_at q keys.new.entries)
        ≡ (if same_key key.now q && same_ts ts r
        then Some (Some value)
        else version_at r (state_at q keys.old.entries)))) }
    ensures err { OnErr result (keys.new.entries ≡ keys.old.entries) }
{
    if let Some(state) = keys.get_mut(key) {
        state.add(ts, Some(value))?;
        return Ok(());
    }
    let mut state = KeyState::new(alloc);
    state.add(ts, Some(value))?;
    keys.insert(key.clone_in(alloc)?, state)?;
    Ok(())
}

/// Resolves the intent of an attempt at a key, if it stands there. After want of memory nothing has changed.
pub fn resolve(
    keys: &mut BTreeMap<Bytes, KeyState>,
    alloc: Global,
    key: &Bytes,
    a: AttemptId,
    fate: Fate,
) -> Result<(), Memory>
    ensures ok { OnOk result ((q : List ℕ)
        → ((state_at q keys.new.entries).intent
        ≡ (if same_key key.now q
        then intent_after a (state_at q keys.old.entries).intent
        else (state_at q keys.old.entries).intent))
        × ((r : Ts) → version_at r (state_at q keys.new.entries)
        ≡ (if same_key key.now q
        then value_after a fate r (state_at q keys.old.entries).intent (version_at r (state_at q keys.old.entries))
        else version_at r (state_at q keys.old.entries)))) }
    ensures err { OnErr result (keys.new.entries ≡ keys.old.entries) }
{
    if let Some(state) = keys.get_mut(key) {
        state.resolve(alloc, a, fate)?;
        return Ok(());
    }
    Ok(())
}
