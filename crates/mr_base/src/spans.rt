//! Spans of keys, pairs of key and value, and what a transaction asks and writes.

use crate::byte_string::Bytes;
use crate::ids::RangeId;
use crate::memory::{CloneIn, Memory};
use std::alloc::Global;

/// The keys from `lo` up to and without `hi`.
#[derive(Drop)]
pub struct Span {
    pub lo: Bytes,
    pub hi: Bytes,
}

/// A key with its value.
#[derive(Drop)]
pub struct Pair {
    pub key: Bytes,
    pub value: Bytes,
}

/// A span that a transaction wants to read, in its range.
#[derive(Drop)]
pub struct Ask {
    pub range: RangeId,
    pub span: Span,
}

/// The last value that a transaction gives to a key; without a value the key is deleted.
#[derive(Drop)]
pub struct Write {
    pub range: RangeId,
    pub key: Bytes,
    pub value: Option<Bytes>,
}

impl CloneIn for Span {
    fn clone_in(&self, alloc: Global) -> Result<Span, Memory> {
        Ok(Span {
            lo: self.lo.clone_in(alloc)?,
            hi: self.hi.clone_in(alloc)?,
        })
    }
}

impl CloneIn for Pair {
    fn clone_in(&self, alloc: Global) -> Result<Pair, Memory> {
        Ok(Pair {
            key: self.key.clone_in(alloc)?,
            value: self.value.clone_in(alloc)?,
        })
    }
}

impl CloneIn for Ask {
    fn clone_in(&self, alloc: Global) -> Result<Ask, Memory> {
        Ok(Ask {
            range: self.range,
            span: self.span.clone_in(alloc)?,
        })
    }
}

impl CloneIn for Write {
    fn clone_in(&self, alloc: Global) -> Result<Write, Memory> {
        Ok(Write {
            range: self.range,
            key: self.key.clone_in(alloc)?,
            value: self.value.clone_in(alloc)?,
        })
    }
}
