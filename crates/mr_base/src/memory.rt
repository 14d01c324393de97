//! Want of memory, and copies that may meet it.

ghost use Rattle.std.specs.Prelude.{◌≡◌, IfOk};

use std::alloc::{AllocError, AllocFailed, Global};

/// Memory ran out. It is merged with no other refusal.
#[derive(Clone, Copy, Debug, PartialEq, Eq)]
pub struct Memory;

impl From<AllocError> for Memory {
    fn from(_e: AllocError) -> Memory {
        Memory
    }
}

impl<T: Drop> From<AllocFailed<T>> for Memory {
    fn from(_e: AllocFailed<T>) -> Memory {
        Memory
    }
}

/// A value of which a copy can be made, unless memory runs out.
pub trait CloneIn: Drop {
    /// The same value once more.
    fn clone_in(&self, alloc: Global) -> Result<Self, Memory>
        ensures copy { IfOk result (λ copy. copy ≡ self.now) };
}

impl<T: CloneIn> CloneIn for Option<T> {
    fn clone_in(&self, alloc: Global) -> Result<Option<T>, Memory> {
        match self {
            None => Ok(None),
            Some(value) => Ok(Some(value.clone_in(alloc)?)),
        }
    }
}

impl<A: CloneIn, B: CloneIn> CloneIn for (A, B) {
    fn clone_in(&self, alloc: Global) -> Result<(A, B), Memory> {
        let first = self.0.clone_in(alloc)?;
        let second = self.1.clone_in(alloc)?;
        Ok((first, second))
    }
}

impl CloneIn for u32 {
    fn clone_in(&self, _alloc: Global) -> Result<u32, Memory> {
        Ok(*self)
    }
}

impl CloneIn for u64 {
    fn clone_in(&self, _alloc: Global) -> Result<u64, Memory> {
        Ok(*self)
    }
}

impl CloneIn for usize {
    fn clone_in(&self, _alloc: Global) -> Result<usize, Memory> {
        Ok(*self)
    }
}
