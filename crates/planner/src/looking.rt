//! What a list's statements read: what was fed, through the writes of the statements before them.

ghost use Rattle.std.specs.Prelude.{◌≡◌, ◌++◌, ◌∷◌, [], ◌+◌, ◌<◌, ◌≤◌, IfOk, List, OnOk, ℕ, drop, filter, is_none, length, map, option_map, take};
ghost use Rattle.std.specs.FinMap.Entries.{find, put};
ghost use Rattle.std.specs.Option.{option_copied};
ghost use Rattle.row_locality.specs.Pairs.{bytes_cmp, key_value};
ghost use Rattle.sql_eval.specs.OwnWrites.{patched_pairs, reads_through};
ghost use Rattle.sql_eval.specs.Reads.{served_reads};
ghost use Rattle.planner.specs.Putting.{IsPlaceFor, with_written};

use crate::known_spans::KnownSpans;
use crate::own_writes::OwnWrites;
use mr_base::{Ask, Bytes, CloneIn, ListOf, Memory, Pair};
use std::alloc::Global;

/// The pairs of a span as the statements so far left them, where what was fed tells them: of the first span
/// fed that covers it the rows, without the keys that were written, and the last values of those that have
/// one in their places. Source: this project's profile.
pub fn read_through(
    alloc: Global,
    own: &OwnWrites,
    known: &KnownSpans,
    ask: &Ask,
) -> Result<Option<ListOf<Pair>>, Memory>
    ensures { IfOk result (λ pairs. option_map (map key_value) pairs
        ≡ reads_through own.now (served_reads known.now) ask.now) }
{
    match known.served(alloc, ask)? {
        None => Ok(None),
        Some(rows) => {
            let written = own.values_in(alloc, ask)?;
            Ok(Some(patched(alloc, written.as_slice(), rows)?))
        }
    }
}

/// Pairs without the keys that were written, and then the last values of those that have one.
fn patched(
    alloc: Global,
    written: &[(Bytes, Option<Bytes>)],
    rows: ListOf<Pair>,
) -> Result<ListOf<Pair>, Memory>
    ensures { IfOk result (λ pairs. map key_value pairs ≡ patched_pairs written.now (map key_value rows)) }
{
    let mut pairs = rows.into_vec();
    drop_written(&mut pairs, written);
    put_written(alloc, &mut pairs, written)?;
    Ok(ListOf::from_vec(pairs))
}

/// Whether a key wasn't written.
fn is_unwritten(written: &[(Bytes, Option<Bytes>)], key: &Bytes) -> bool
    ensures { result ≡ is_none (find bytes_cmp key.now written.now) }
{
    for (other, _) in written {
        if key.cmp(other).is_eq() {
            return false;
        }
    }
    true
}

/// Drops the pairs of keys that were written.
fn drop_written(pairs: &mut Vec<Pair>, written: &[(Bytes, Option<Bytes>)])
    ensures { pairs.new.items ≡ filter (λ p. is_none (find bytes_cmp p.key written.now)) pairs.old.items }
{
    pairs.retain(|p| is_unwritten(written, &p.key));
}

/// Puts the last values of keys that were written in their places.
fn put_written(
    alloc: Global,
    pairs: &mut Vec<Pair>,
    written: &[(Bytes, Option<Bytes>)],
) -> Result<(), Memory>
    ensures { OnOk result (map key_value pairs.new.items ≡ with_written written.now (map key_value pairs.old.items)) }
{
    for (key, value) in written {
        put_value(alloc, pairs, key, value.as_ref())?;
    }
    Ok(())
}

/// Puts the value of a key in its place, where it has one.
fn put_value(
    alloc: Global,
    pairs: &mut Vec<Pair>,
    key: &Bytes,
    value: Option<&Bytes>,
) -> Result<(), Memory>
    ensures { OnOk result (map key_value pairs.new.items
        ≡ with_written ((key.now, option_copied value.entry) ∷ []) (map key_value pairs.old.items)) }
{
    let Some(value) = value else {
        return Ok(());
    };
    let pair = Pair {
        key: key.clone_in(alloc)?,
        value: value.clone_in(alloc)?,
    };
    put_pair(pairs, pair)
}

/// Puts a pair in its place: where a pair of its key stands, or else before the first of a greater key.
fn put_pair(pairs: &mut Vec<Pair>, pair: Pair) -> Result<(), Memory>
    ensures { OnOk result (map key_value pairs.new.items
        ≡ put bytes_cmp pair.key pair.value (map key_value pairs.old.items)) }
{
    match place_of(pairs.as_slice(), &pair.key) {
        Ok(place) => {
            pairs[place] = pair;
            Ok(())
        }
        Err(place) => {
            pairs.insert(place, pair)?;
            Ok(())
        }
    }
}

/// The place of a key among pairs, as `slice::binary_search` gives it, of pairs in any order: `Ok` where a
/// pair of the key stands, `Err` where one would be put.
fn place_of(pairs: &[Pair], key: &Bytes) -> Result<usize, usize>
    ensures { IsPlaceFor key.now pairs.now result }
{
    for (i, pair) in pairs.iter().enumerate() {
        let order = key.cmp(&pair.key);
        if order.is_lt() {
            return Err(i);
        }
        if order.is_eq() {
            return Ok(i);
        }
    }
    Err(pairs.len())
}
