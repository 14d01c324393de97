//! The spans held, by their keys: those of one key in key order, the others in a list.

ghost use Rattle.std.specs.Prelude.{◌≡◌, ◌++◌, ◌∷◌, [], ℕ, List, OnOk, OnErr, filter, fold, false, if◌then◌else◌};
ghost use Rattle.std.specs.BTreeMap.Range.{entries_between};
ghost use Rattle.std.specs.Cmp.Lexicographic.{slice_cmp};
ghost use Rattle.std.specs.List.Sorted.{IsStrictlySortedBy};
ghost use Rattle.std.specs.Map.{keys_of};
ghost use Rattle.std.specs.Option.{option_map};
ghost use Rattle.std.specs.Ordering.{is_eq, is_gt, nat_cmp};
ghost use Rattle.std.specs.declared.ops.Bound.TheVariants.{Excluded, Included};
ghost use Rattle.mr_base.specs.Timestamps.{later};
ghost use Rattle.ts_cache.specs.Held.{AreApart, greatest, held_at, ts_of, without};
ghost use Rattle.ts_cache.specs.Indexed.{IsIndexed, key_ts};
ghost use Rattle.ts_cache.specs.Meeting.{meets};
ghost use Rattle.ts_cache.specs.declared.held.HeldSpan.{HeldSpan};

use crate::held::{HeldSpan, renew};
use crate::meeting::{is_point, meets};
use mr_base::{Bytes, CloneIn, Memory, Span, Ts};
use std::alloc::Global;
use std::collections::BTreeMap;
use std::ops::Bound::{Excluded, Included};

/// An index of spans with their timestamps.
#[derive(Drop)]
pub struct Index {
    pub points: BTreeMap<Bytes, Ts>,
    pub wide: Vec<HeldSpan>,
}

impl Index {
    /// The index of no span.
    pub fn new(alloc: Global) -> Index
        ensures { IsIndexed result.points.entries result.wide.items [] }
    {
        Index {
            points: BTreeMap::new(alloc),
            wide: Vec::new(alloc),
        }
    }

    /// The span, which is held, was added once more.
    pub fn renew(&mut self, s: &Span, ts: Ts)
        requires { AreApart self.old.wide.items }
        ensures { (held : List HeldSpan) (had : Ts) → ts_of s.now held ≡ Some had
            → IsIndexed self.old.points.entries self.old.wide.items held
            → IsIndexed self.new.points.entries self.new.wide.items
            (without s.now held ++ held_at s.now (later had ts) ∷ []) }
    {
        if is_point(s) {
            raise(&mut self.points, &s.lo, ts);
        } else {
            renew(&mut self.wide, s, ts);
        }
    }

    /// The span, which isn't held, is held from now on.
    pub fn insert(&mut self, alloc: Global, s: &Span, ts: Ts) -> Result<(), Memory>
        ensures ok { OnOk result ((held : List HeldSpan) → ts_of s.now held ≡ None
            → IsIndexed self.old.points.entries self.old.wide.items held
            → IsIndexed self.new.points.entries self.new.wide.items (held ++ held_at s.now ts ∷ [])) }
        ensures err { OnErr result ((held : List HeldSpan)
            → IsIndexed self.old.points.entries self.old.wide.items held
            → IsIndexed self.new.points.entries self.new.wide.items held) }
    {
        if is_point(s) {
            self.points.insert(s.lo.clone_in(alloc)?, ts)?;
        } else {
            let span = s.clone_in(alloc)?;
            self.wide.push(HeldSpan { span, ts })?;
        }
        Ok(())
    }

    /// The oldest span isn't held any more.
    pub fn remove(&mut self, oldest: &HeldSpan)
        ensures { (rest : List HeldSpan)
            → IsIndexed self.old.points.entries self.old.wide.items (oldest.now ∷ rest)
            → IsIndexed self.new.points.entries self.new.wide.items rest }
    {
        if is_point(&oldest.span) {
            self.points.remove(&oldest.span.lo);
        } else if !self.wide.is_empty() {
            self.wide.remove(0);
        }
    }

    /// The greatest of a timestamp and those of the spans that meet this one.
    pub fn high(&self, low: Ts, s: &Span) -> Ts
        ensures { (held : List HeldSpan) → IsIndexed self.now.points.entries self.now.wide.items held
            → result ≡ greatest low (filter (λ h. meets h.span s.now) held) }
    {
        if s.lo < s.hi {
            let high = latest_between(&self.points, s, low);
            latest_meeting(self.wide.as_slice(), s, high)
        } else {
            low
        }
    }
}

/// The greatest of a timestamp and those of the spans that meet this one.
fn latest_meeting(spans: &[HeldSpan], s: &Span, low: Ts) -> Ts
    ensures { result ≡ greatest low (filter (λ h. meets h.span s.now) spans.now) }
{
    spans
        .iter()
        .filter(|h| meets(&h.span, s))
        .fold(low, |high, h| high.later(h.ts))
}

/// Raises the timestamp of a key where the new one is higher.
fn raise(points: &mut BTreeMap<Bytes, Ts>, key: &Bytes, ts: Ts)
    ensures { (q : List ℕ) → key_ts q points.new.entries
        ≡ (if is_eq (slice_cmp nat_cmp key.now q)
        then option_map (λ had. later had ts) (key_ts q points.old.entries)
        else key_ts q points.old.entries) }
{
    if let Some(had) = points.get_mut(key) {
        *had = had.later(ts);
    }
}

/// The greatest of a timestamp and those of the keys of the span.
fn latest_between(points: &BTreeMap<Bytes, Ts>, s: &Span, low: Ts) -> Ts
    requires { is_gt (slice_cmp nat_cmp s.now.lo s.now.hi) ≡ false }
    ensures ordered { IsStrictlySortedBy (slice_cmp nat_cmp) (keys_of points.now.entries) }
    ensures latest { result ≡ fold (λ t e. later t e.1) low
        (entries_between (slice_cmp nat_cmp) (Included s.now.lo) (Excluded s.now.hi) points.now.entries) }
{
    points
        .range((Included(&s.lo), Excluded(&s.hi)))
        .fold(low, |high, (_, ts)| high.later(*ts))
}
