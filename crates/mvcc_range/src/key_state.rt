//! What stands at a key: its versions and its intent.

ghost use Rattle.std.specs.Prelude.{◌≡◌, [], OnOk, OnErr, Some, None, if◌then◌else◌};
ghost use Rattle.mvcc_range.specs.KeyFacts.{IsFirstAbove, IsGreatestOf, IsLastBelow, intent_after, intent_of, same_ts, value_after, version_at};

use mr_base::{AttemptId, Bytes, CloneIn, Fate, Memory, RangeId, Ts};
use std::alloc::Global;
use std::collections::BTreeMap;
use std::marker::Model;
use std::ops::Bound::{Excluded, Unbounded};

/// An intent: the attempt that laid it, when that began, the range of its record, and its timestamp.
#[derive(Clone, Copy)]
pub struct Intent {
    pub attempt: AttemptId,
    pub start: Ts,
    pub anchor: RangeId,
    pub ts: Ts,
}

/// An intent with its value; without one it deletes the key.
#[derive(Drop)]
pub struct KeptIntent {
    pub intent: Intent,
    pub value: Option<Bytes>,
}

/// The versions of a key by their timestamps, and the intent that stands there.
#[derive(Drop)]
pub struct KeyState {
    versions: BTreeMap<Ts, Option<Bytes>>,
    intent: Option<KeptIntent>,
}

impl Model for KeyState {
    ghost use Rattle.mvcc_range.specs.KeyValue.{KeyValue};

    ghost Value = { KeyValue };

    ghost view = { λ s. record { versions = s.versions.entries; intent = s.intent } };
}

impl KeyState {
    /// A key at which nothing stands.
    pub fn new(alloc: Global) -> KeyState
        ensures { result ≡ record { versions = []; intent = None } }
    {
        KeyState {
            versions: BTreeMap::new(alloc),
            intent: None,
        }
    }

    /// The intent at the key.
    pub fn intent(&self) -> Option<Intent>
        ensures { result ≡ intent_of self.now.intent }
    {
        match &self.intent {
            Some(kept) => Some(kept.intent),
            None => None,
        }
    }

    /// The intent at the key, with its value.
    pub fn kept(&self) -> &Option<KeptIntent>
        ensures { result.now ≡ self.now.intent }
    {
        &self.intent
    }

    /// The greatest timestamp of a version.
    pub fn newest(&self) -> Option<Ts>
        ensures { IsGreatestOf self.now result }
    {
        let Some((ts, _)) = self.versions.last_key_value() else {
            return None;
        };
        Some(*ts)
    }

    /// The least timestamp of a version above another.
    pub fn first_above(&self, at: Ts) -> Option<Ts>
        ensures { IsFirstAbove self.now at result }
    {
        let Some((ts, _)) = self.versions.range((Excluded(at), Unbounded)).next() else {
            return None;
        };
        Some(*ts)
    }

    /// The newest version below a timestamp, with its value.
    pub fn last_below(&self, at: Ts) -> Option<(Ts, &Option<Bytes>)>
        ensures { IsLastBelow self.now at result }
    {
        let Some((ts, value)) = self.versions.range(..at).next_back() else {
            return None;
        };
        Some((*ts, value))
    }

    /// Lays an intent in the place of what intent there is.
    pub fn lay(&mut self, kept: KeptIntent)
        ensures { self.new ≡ record self.old { intent = Some kept } }
    {
        self.intent = Some(kept);
    }

    /// Adds a version, in the place of one of the same timestamp. After want of memory nothing has changed.
    pub fn add(&mut self, ts: Ts, value: Option<Bytes>) -> Result<(), Memory>
        ensures intent { self.new.intent ≡ self.old.intent }
        ensures ok { OnOk result ((q : Ts) → version_at q self.new
            ≡ (if same_ts ts q then Some value else version_at q self.old)) }
        ensures err { OnErr result (self.new ≡ self.old) }
    {
        self.versions.insert(ts, value)?;
        Ok(())
    }

    /// Resolves the intent of an attempt, if it stands here. After want of memory nothing has changed.
    pub fn resolve(&mut self, alloc: Global, a: AttemptId, fate: Fate) -> Result<(), Memory>
        ensures intent { OnOk result (self.new.intent ≡ intent_after a self.old.intent) }
        ensures versions { OnOk result ((q : Ts) → version_at q self.new
            ≡ value_after a fate q self.old.intent (version_at q self.old)) }
        ensures err { OnErr result (self.new ≡ self.old) }
    {
        let Some(kept) = &self.intent else {
            return Ok(());
        };
        if kept.intent.attempt != a {
            return Ok(());
        }
        if let Fate::Committed(ts) = fate {
            let value = kept.value.clone_in(alloc)?;
            self.versions.insert(ts, value)?;
            self.intent = None;
            return Ok(());
        }
        self.intent = None;
        Ok(())
    }
}
