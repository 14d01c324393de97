//! What was fed serves what lies inside it, the first that covers it alone.

use super::texts::{are_pairs, ask, pairs};
use planner::KnownSpans;
use std::alloc::Global;
use std::test::Fail;

/// What is fed, one after the other: range, span, rows.
const FED: [(u32, &str, &str); 5] = [
    (1, "a..e", "a=1 b=2 d=4"),
    (1, "f", "f=6"),
    (2, "a..c", "a=7 c=8"),
    (1, "g", ""),
    (1, "e..h", "f=9 g=9"),
];

/// A span that is fed where none so far covers it.
fn feed(
    alloc: Global,
    known: &mut KnownSpans,
    range: u32,
    span: &str,
    rows: &str,
) -> Result<(), Fail> {
    let ask = ask(alloc, range, span)?;
    match known.served(alloc, &ask)? {
        Some(_) => Err(Fail::from("fed twice")),
        None => Ok(known.add(alloc, &ask, &pairs(alloc, rows)?)?),
    }
}

/// All that is fed.
pub fn known_spans(alloc: Global) -> Result<KnownSpans, Fail> {
    let mut known = KnownSpans::new(alloc);
    for (range, span, rows) in FED {
        feed(alloc, &mut known, range, span, rows)?;
    }
    Ok(known)
}

/// What is served: range, span, rows.
const SERVED: [(u32, &str, &str); 11] = [
    (1, "a..e", "a=1 b=2 d=4"),
    (1, "b..d", "b=2"),
    (1, "b", "b=2"),
    (1, "c", ""),
    (1, "f", "f=6"),
    (1, "e..g", "f=9"),
    (1, "g", ""),
    (1, "a..f", "-"),
    (2, "a..c", "a=7"),
    (2, "c", "-"),
    (3, "a..b", "-"),
];

fn serves(
    alloc: Global,
    known: &KnownSpans,
    range: u32,
    span: &str,
    rows: &str,
) -> Result<bool, Fail> {
    match known.served(alloc, &ask(alloc, range, span)?)? {
        None => are_pairs(alloc, None, rows),
        Some(found) => are_pairs(alloc, Some(found.as_slice()), rows),
    }
}

#[test]
fn the_first_that_covers_a_span_serves_it(rt: HostRuntime) -> Result<(), Fail> {
    let known = known_spans(rt.alloc())?;
    for (range, span, rows) in SERVED {
        assert!(rt;
            serves(rt.alloc(), &known, range, span, rows)?,
            "r{range} {span}"
        );
    }
    Ok(())
}

/// Of which span fed a span is served: range, span, rows of the whole of it.
const COVERING: [(u32, &str, &str); 4] = [
    (1, "b", "a=1 b=2 d=4"),
    (1, "f", "f=6"),
    (1, "f..g", "f=9 g=9"),
    (2, "d", "-"),
];

fn covers(
    alloc: Global,
    known: &KnownSpans,
    range: u32,
    span: &str,
    rows: &str,
) -> Result<bool, Fail> {
    match known.first_covering(alloc, &ask(alloc, range, span)?)? {
        None => are_pairs(alloc, None, rows),
        Some(fed) => are_pairs(alloc, Some(fed.rows.as_slice()), rows),
    }
}

#[test]
fn a_point_is_found_among_wider_spans(rt: HostRuntime) -> Result<(), Fail> {
    let known = known_spans(rt.alloc())?;
    for (range, span, rows) in COVERING {
        assert!(rt;
            covers(rt.alloc(), &known, range, span, rows)?,
            "r{range} {span}"
        );
    }
    Ok(())
}
