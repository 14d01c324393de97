//! What statements wrote, and what later ones read through it.

use super::known_spans::known_spans;
use super::texts::{are_pairs, are_same, ask, pairs};
use mr_base::{Bytes, CloneIn, Pair, RangeId, Write};
use planner::{KnownSpans, OwnWrites, read_through};
use std::alloc::Global;
use std::test::Fail;

/// What is written, one after the other: whether it is added or else removed, range, pair. In range 1 `a` is
/// as it was, `b` has another value, `c` came and went, `d` is gone.
const WRITTEN: [(bool, u32, &str); 8] = [
    (false, 1, "b=2"),
    (true, 1, "c=1"),
    (false, 1, "a=1"),
    (true, 2, "a=5"),
    (true, 1, "b=3"),
    (true, 1, "a=1"),
    (false, 1, "c=1"),
    (false, 1, "d=4"),
];

/// The pair of a text.
fn pair(alloc: Global, text: &str) -> Result<Pair, Fail> {
    match pairs(alloc, text)?.pop() {
        Some(pair) => Ok(pair),
        None => Err(Fail::from("no pair")),
    }
}

fn write(
    alloc: Global,
    own: &mut OwnWrites,
    adds: bool,
    range: u32,
    text: &str,
) -> Result<(), Fail> {
    let pair = pair(alloc, text)?;
    if adds {
        own.add(RangeId(range), pair)?;
    } else {
        own.remove(RangeId(range), pair)?;
    }
    Ok(())
}

/// All that is written.
fn own_writes(alloc: Global) -> Result<OwnWrites, Fail> {
    let mut own = OwnWrites::new(alloc);
    for (adds, range, text) in WRITTEN {
        write(alloc, &mut own, adds, range, text)?;
    }
    Ok(own)
}

/// The pairs that writes add in a range; a key that is deleted has the value `-`.
fn written_in(alloc: Global, writes: &[Write], range: u32) -> Result<Vec<Pair>, Fail> {
    let mut pairs = Vec::new(alloc);
    for write in writes {
        if write.range == RangeId(range) {
            let value = match &write.value {
                None => Bytes::from_slice(alloc, b"-")?,
                Some(value) => value.clone_in(alloc)?,
            };
            let key = write.key.clone_in(alloc)?;
            pairs.push(Pair { key, value })?;
        }
    }
    Ok(pairs)
}

/// What is written in the end: range, keys with their last values.
const WRITES: [(u32, &str); 3] = [(1, "b=3 d=-"), (2, "a=5"), (3, "")];

#[test]
fn what_is_as_it_was_isnt_written(rt: HostRuntime) -> Result<(), Fail> {
    let writes = own_writes(rt.alloc())?.writes(rt.alloc())?;
    for (range, text) in WRITES {
        assert!(rt;
            are_same(
                &written_in(rt.alloc(), writes.as_slice(), range)?,
                &pairs(rt.alloc(), text)?
            ),
            "r{range}"
        );
    }
    Ok(())
}

/// The last value of a key that had this one: range, key, value before all, last value; `-` for none.
const LAST: [(u32, &str, &str, &str); 6] = [
    (1, "a", "1", "1"),
    (1, "b", "2", "3"),
    (1, "c", "-", "-"),
    (1, "d", "4", "-"),
    (1, "e", "5", "5"),
    (2, "b", "2", "2"),
];

/// The value of a text; `-` is none.
fn value(alloc: Global, text: &str) -> Result<Option<Bytes>, Fail> {
    if text == "-" {
        return Ok(None);
    }
    Ok(Some(Bytes::from_slice(alloc, text.as_bytes())?))
}

/// Whether a value is that of a text.
fn is_value(value: Option<&Bytes>, text: &str) -> bool {
    match value {
        None => text == "-",
        Some(value) => value.as_slice() == text.as_bytes(),
    }
}

fn has_last(
    alloc: Global,
    own: &OwnWrites,
    range: u32,
    key: &str,
    before: &str,
    last: &str,
) -> Result<bool, Fail> {
    let place = (RangeId(range), Bytes::from_slice(alloc, key.as_bytes())?);
    let before = value(alloc, before)?;
    let found = own.last_value(&place, before.as_ref());
    Ok(is_value(found, last))
}

#[test]
fn a_key_has_the_value_of_its_last_write(rt: HostRuntime) -> Result<(), Fail> {
    let own = own_writes(rt.alloc())?;
    for (range, key, before, last) in LAST {
        assert!(rt;
            has_last(rt.alloc(), &own, range, key, before, last)?,
            "r{range} {key}"
        );
    }
    Ok(())
}

/// What is read through the writes: range, span, pairs.
const READ: [(u32, &str, &str); 7] = [
    (1, "a..e", "a=1 b=3"),
    (1, "b", "b=3"),
    (1, "d", ""),
    (1, "f", "f=6"),
    (1, "a..f", "-"),
    (2, "a..c", "a=5"),
    (2, "c", "-"),
];

fn reads(
    alloc: Global,
    own: &OwnWrites,
    known: &KnownSpans,
    range: u32,
    span: &str,
    rows: &str,
) -> Result<bool, Fail> {
    match read_through(alloc, own, known, &ask(alloc, range, span)?)? {
        None => are_pairs(alloc, None, rows),
        Some(found) => are_pairs(alloc, Some(found.as_slice()), rows),
    }
}

/// A write in a span that isn't known doesn't make it known.
#[test]
fn what_was_fed_is_read_through_what_was_written(rt: HostRuntime) -> Result<(), Fail> {
    let known = known_spans(rt.alloc())?;
    let own = own_writes(rt.alloc())?;
    for (range, span, rows) in READ {
        assert!(rt;
            reads(rt.alloc(), &own, &known, range, span, rows)?,
            "r{range} {span}"
        );
    }
    Ok(())
}

/// The values that were written in a span: range, span, keys with their last values.
const VALUES: [(u32, &str, &str); 4] = [
    (1, "a..d", "a=1 b=3 c=-"),
    (1, "d", "d=-"),
    (1, "d..a", ""),
    (2, "b..c", ""),
];

fn has_values(
    alloc: Global,
    own: &OwnWrites,
    range: u32,
    span: &str,
    text: &str,
) -> Result<bool, Fail> {
    let mut found = Vec::new(alloc);
    for (key, value) in own.values_in(alloc, &ask(alloc, range, span)?)?.as_slice() {
        let value = match value {
            None => Bytes::from_slice(alloc, b"-")?,
            Some(value) => value.clone_in(alloc)?,
        };
        let key = key.clone_in(alloc)?;
        found.push(Pair { key, value })?;
    }
    Ok(are_same(&found, &pairs(alloc, text)?))
}

#[test]
fn the_values_of_a_span_are_in_the_order_of_keys(rt: HostRuntime) -> Result<(), Fail> {
    let own = own_writes(rt.alloc())?;
    for (range, span, text) in VALUES {
        assert!(rt;
            has_values(rt.alloc(), &own, range, span, text)?,
            "r{range} {span}"
        );
    }
    Ok(())
}
