//! Spans, pairs and writes as short texts.

use mr_base::{Ask, Bytes, Pair, RangeId, Span};
use std::alloc::Global;
use std::test::Fail;

/// The pairs of a text such as `a=1 b=2`.
pub fn pairs(alloc: Global, text: &str) -> Result<Vec<Pair>, Fail> {
    let mut pairs = Vec::new(alloc);
    for word in text.split(' ') {
        if let Some((key, value)) = word.split_once('=') {
            pairs.push(Pair {
                key: Bytes::from_slice(alloc, key.as_bytes())?,
                value: Bytes::from_slice(alloc, value.as_bytes())?,
            })?;
        }
    }
    Ok(pairs)
}

/// The span of a text such as `a..e`, or of a key such as `f`.
pub fn span(alloc: Global, text: &str) -> Result<Span, Fail> {
    if let Some((lo, hi)) = text.split_once("..") {
        return Ok(Span {
            lo: Bytes::from_slice(alloc, lo.as_bytes())?,
            hi: Bytes::from_slice(alloc, hi.as_bytes())?,
        });
    }
    let mut hi = text.as_bytes().to_vec(alloc)?;
    hi.push(0)?;
    Ok(Span {
        lo: Bytes::from_slice(alloc, text.as_bytes())?,
        hi: Bytes::from_vec(hi),
    })
}

/// A span in a range.
pub fn ask(alloc: Global, range: u32, text: &str) -> Result<Ask, Fail> {
    Ok(Ask {
        range: RangeId(range),
        span: span(alloc, text)?,
    })
}

/// Whether two lists of pairs are the same.
pub fn are_same(left: &[Pair], right: &[Pair]) -> bool {
    left.len() == right.len()
        && left
            .iter()
            .zip(right.iter())
            .all(|(x, y)| x.key == y.key && x.value == y.value)
}

/// Whether these are the pairs of a text; where it is `-`, whether there are none to be known.
pub fn are_pairs(alloc: Global, found: Option<&[Pair]>, text: &str) -> Result<bool, Fail> {
    match found {
        None => Ok(text == "-"),
        Some(found) => Ok(text != "-" && are_same(found, &pairs(alloc, text)?)),
    }
}
