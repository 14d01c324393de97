//! The writes that a list's statements made so far.

ghost use Rattle.std.specs.Prelude.{◌≡◌, ◌++◌, [], false, IfOk, OnOk, OnErr, map, option_to_list};
ghost use Rattle.std.specs.BTreeMap.Range.{entries_between};
ghost use Rattle.std.specs.FinMap.Entries.{find};
ghost use Rattle.std.specs.Option.{option_copied, option_map_or};
ghost use Rattle.std.specs.Ordering.{is_gt};
ghost use Rattle.std.specs.declared.ops.Bound.TheVariants.{Excluded, Included};
ghost use Rattle.row_locality.specs.Pairs.{key_value};
ghost use Rattle.sql_eval.specs.OwnWrites.{addition, last_value, place_cmp, removal, values_written, with_write, with_writes, write_at, writes_of};

use crate::row_writes::RowWrite;
use mr_base::{Ask, Bytes, CloneIn, ListOf, Memory, Pair, RangeId, Write};
use std::alloc::Global;
use std::collections::BTreeMap;
use std::marker::Model;
use std::ops::Bound::{Excluded, Included};

/// A key of a range.
pub type Place = (RangeId, Bytes);

/// What became of a key: its value before the first write and after the last. None: there is no such key.
#[derive(Drop)]
pub struct Change {
    first: Option<Bytes>,
    last: Option<Bytes>,
}

impl Model for Change {
    ghost use Rattle.sql_eval.specs.OwnWrites.{FirstAndLast};

    ghost Value = { FirstAndLast };

    ghost view = { λ c. record { first = c.first; last = c.last } };
}

/// The keys that a list's statements wrote so far, each with its first and its last value. They are seen in
/// the order of ranges and keys.
#[derive(Drop)]
pub struct OwnWrites {
    alloc: Global,
    places: BTreeMap<Place, Change>,
}

impl Model for OwnWrites {
    ghost use Rattle.std.specs.Prelude.{List};
    ghost use Rattle.sql_eval.specs.OwnWrites.{FirstAndLast, Place as PlaceOfKey};

    ghost Value = { List (PlaceOfKey × FirstAndLast) };

    ghost view = { λ own. own.places.entries };
}

impl OwnWrites {
    /// No write.
    pub fn new(alloc: Global) -> OwnWrites
        ensures { result ≡ [] }
    {
        OwnWrites {
            alloc,
            places: BTreeMap::new(alloc),
        }
    }

    /// A pair of a range is removed. After want of memory nothing has changed.
    pub fn remove(&mut self, range: RangeId, pair: Pair) -> Result<(), Memory>
        ensures removed { OnOk result (self.new ≡ with_write self.old (removal range (key_value pair))) }
        ensures err { OnErr result (self.new ≡ self.old) }
    {
        let Pair { key, value } = pair;
        self.write((range, key), Some(value), None)
    }

    /// A pair of a range is added. After want of memory nothing has changed.
    pub fn add(&mut self, range: RangeId, pair: Pair) -> Result<(), Memory>
        ensures added { OnOk result (self.new ≡ with_write self.old (addition range (key_value pair))) }
        ensures err { OnErr result (self.new ≡ self.old) }
    {
        let Pair { key, value } = pair;
        self.write((range, key), None, Some(value))
    }

    /// More writes, one after the other.
    pub(crate) fn make(&mut self, writes: &[RowWrite]) -> Result<(), Memory>
        ensures { OnOk result (self.new ≡ with_writes self.old writes.now) }
    {
        for w in writes {
            let key = w.key.clone_in(self.alloc)?;
            let before = w.before.clone_in(self.alloc)?;
            let after = w.after.clone_in(self.alloc)?;
            self.write((w.range, key), before, after)?;
        }
        Ok(())
    }

    /// The value of a key that held this one before all of them.
    pub fn last_value<'a>(&'a self, place: &Place, value: Option<&'a Bytes>) -> Option<&'a Bytes>
        ensures { option_copied result ≡ last_value self.now place.now.0 place.now.1 (option_copied value.entry) }
    {
        match self.places.get(place) {
            Some(change) => change.last.as_ref(),
            None => value,
        }
    }

    /// The keys of a span that were written, each with its last value, in the order of keys.
    pub fn values_in(
        &self,
        alloc: Global,
        ask: &Ask,
    ) -> Result<ListOf<(Bytes, Option<Bytes>)>, Memory>
        ensures { IfOk result (λ values. values ≡ values_written self.now ask.now) }
    {
        if !(ask.span.lo < ask.span.hi) {
            return Ok(ListOf::new(alloc));
        }
        let from = (ask.range, ask.span.lo.clone_in(alloc)?);
        let to = (ask.range, ask.span.hi.clone_in(alloc)?);
        values_between(alloc, &self.places, &from, &to)
    }

    /// The keys whose last value isn't their first, each with the last, in the order of ranges and keys.
    pub fn writes(&self, alloc: Global) -> Result<ListOf<Write>, Memory>
        ensures { IfOk result (λ writes. writes ≡ writes_of self.now) }
    {
        let mut writes = ListOf::new(alloc);
        for (place, change) in self.places.iter() {
            push_write(alloc, &mut writes, place, change)?;
        }
        Ok(writes)
    }

    /// A key that holds one value from now on, and had the other before if this is its first write.
    fn write(
        &mut self,
        place: Place,
        before: Option<Bytes>,
        after: Option<Bytes>,
    ) -> Result<(), Memory>
        ensures ok { OnOk result (self.new ≡ with_write self.old
            (record { range = place.0; key = place.1; before = before; after = after })) }
        ensures err { OnErr result (self.new ≡ self.old) }
    {
        let first = self.first_value(&place, before)?;
        self.places.insert(place, Change { first, last: after })?;
        Ok(())
    }

    /// The value of a key before its first write, where this is what it holds before the next one.
    fn first_value(&self, place: &Place, before: Option<Bytes>) -> Result<Option<Bytes>, Memory>
        ensures { IfOk result (λ first.
            first ≡ option_map_or (λ x. x.first) (find place_cmp place.now self.now) before) }
    {
        match self.places.get(place) {
            Some(change) => change.first.clone_in(self.alloc),
            None => Ok(before),
        }
    }
}

/// The keys from one place up to another, each with its last value.
fn values_between(
    alloc: Global,
    places: &BTreeMap<Place, Change>,
    from: &Place,
    to: &Place,
) -> Result<ListOf<(Bytes, Option<Bytes>)>, Memory>
    requires { is_gt (place_cmp from.now to.now) ≡ false }
    ensures { IfOk result (λ values. values ≡ map (λ x. (x.0.1, x.1.last))
        (entries_between place_cmp (Included from.now) (Excluded to.now) places.now.entries)) }
{
    let mut values = ListOf::new(alloc);
    for (place, change) in places.range((Included(from), Excluded(to))) {
        values.push((place.1.clone_in(alloc)?, change.last.clone_in(alloc)?))?;
    }
    Ok(values)
}

/// Adds the write of a key, where its last value isn't its first.
fn push_write(
    alloc: Global,
    writes: &mut ListOf<Write>,
    place: &Place,
    change: &Change,
) -> Result<(), Memory>
    ensures { OnOk result (writes.new ≡ writes.old ++ option_to_list (write_at place.now change.now)) }
{
    if change.first == change.last {
        return Ok(());
    }
    let key = place.1.clone_in(alloc)?;
    let value = change.last.clone_in(alloc)?;
    writes.push(Write {
        range: place.0,
        key,
        value,
    })
}
