//! The numbers of nodes, ranges, attempts, transactions and messages, each a type of its own.

use crate::memory::{CloneIn, Memory};
use std::alloc::Global;
use std::fmt;

/// A node, numbered from 1 to 64 and written `n1`, `n2`, ..
#[derive(Clone, Copy, PartialEq, Eq, PartialOrd, Ord)]
pub struct NodeId(pub u32);

/// A range, numbered from 1 and written `r1`, `r2`, ..
#[derive(Clone, Copy, PartialEq, Eq, PartialOrd, Ord)]
pub struct RangeId(pub u32);

/// An attempt of a transaction, numbered from 1 over the whole run and written `a1`, `a2`, ..
#[derive(Clone, Copy, PartialEq, Eq, PartialOrd, Ord)]
pub struct AttemptId(pub u32);

/// A transaction, which the scenario names.
#[derive(Clone, Copy, PartialEq, Eq, PartialOrd, Ord)]
pub struct TxnId(pub u32);

/// A message, numbered from 1 in the order sent and written `m1`, `m2`, ..
#[derive(Clone, Copy, PartialEq, Eq, PartialOrd, Ord)]
pub struct MsgId(pub u64);

impl fmt::Display for NodeId {
    ghost use Rattle.mr_base.specs.Ids.{node_text};
    ghost use Rattle.std.specs.Prelude.{Some};

    ghost output = { λ n. Some (node_text n) };

    fn fmt<W: fmt::Write>(&self, f: &mut fmt::Formatter<W>) -> fmt::Result {
        let number = self.0;
        write!(f, "n{number}")
    }
}

impl fmt::Display for RangeId {
    ghost use Rattle.mr_base.specs.Ids.{range_text};
    ghost use Rattle.std.specs.Prelude.{Some};

    ghost output = { λ r. Some (range_text r) };

    fn fmt<W: fmt::Write>(&self, f: &mut fmt::Formatter<W>) -> fmt::Result {
        let number = self.0;
        write!(f, "r{number}")
    }
}

impl fmt::Display for AttemptId {
    ghost use Rattle.mr_base.specs.Ids.{attempt_text};
    ghost use Rattle.std.specs.Prelude.{Some};

    ghost output = { λ a. Some (attempt_text a) };

    fn fmt<W: fmt::Write>(&self, f: &mut fmt::Formatter<W>) -> fmt::Result {
        let number = self.0;
        write!(f, "a{number}")
    }
}

impl fmt::Display for MsgId {
    ghost use Rattle.mr_base.specs.Ids.{message_text};
    ghost use Rattle.std.specs.Prelude.{Some};

    ghost output = { λ m. Some (message_text m) };

    fn fmt<W: fmt::Write>(&self, f: &mut fmt::Formatter<W>) -> fmt::Result {
        let number = self.0;
        write!(f, "m{number}")
    }
}

impl CloneIn for NodeId {
    fn clone_in(&self, _alloc: Global) -> Result<NodeId, Memory> {
        Ok(*self)
    }
}

impl CloneIn for RangeId {
    fn clone_in(&self, _alloc: Global) -> Result<RangeId, Memory> {
        Ok(*self)
    }
}

impl CloneIn for MsgId {
    fn clone_in(&self, _alloc: Global) -> Result<MsgId, Memory> {
        Ok(*self)
    }
}
