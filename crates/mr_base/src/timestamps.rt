//! Timestamps and clock readings.

ghost use Rattle.std.specs.Prelude.{◌≡◌, ◌↔◌, ◌+◌, ◌<◌, ◌^◌, IsTrue, Some};
ghost use Rattle.mr_base.specs.Timestamps.{IsIrreflexive, IsLeast, IsTransitive, IsTotal};

use std::fmt;

/// A point of the one order in which transactions take their place: a wall time in milliseconds, a
/// logical part, and the number of the attempt that owns it, 0 for clocks, leases and closed
/// timestamps. Source: this project's profile, after the hybrid logical clocks of Taft et al., SIGMOD 2020.
#[derive(Clone, Copy, PartialEq, Eq, PartialOrd, Ord)]
pub struct Ts {
    pub wall: u64,
    pub logical: u64,
    pub owner: u32,
}

/// What a clock shows: a wall time in milliseconds and a logical part.
#[derive(Clone, Copy, PartialEq, Eq, PartialOrd, Ord)]
pub struct Reading {
    pub wall: u64,
    pub logical: u64,
}

impl Ts {
    ghost use Rattle.mr_base.specs.Timestamps.{IsBelow, later};

    /// The least timestamp.
    pub const ZERO: Ts = Ts {
        wall: 0,
        logical: 0,
        owner: 0,
    };

    /// The next logical part of the same wall, owned by `owner`.
    pub fn above(self, owner: u32) -> Ts
        requires room { self.logical + 1 < 2 ^ 64 }
        ensures greater { IsBelow self result }
        ensures owned { result.owner ≡ owner }
        ensures next { (result.wall ≡ self.wall) × (result.logical ≡ self.logical + 1) }
    {
        let logical = self.logical + 1;
        Ts {
            logical,
            owner,
            ..self
        }
    }

    /// Whether this timestamp is below the other.
    pub fn is_below(self, other: Ts) -> bool
        ensures { IsTrue result ↔ IsBelow self other }
    {
        self < other
    }

    /// The greater of two timestamps.
    pub fn later(self, other: Ts) -> Ts
        ensures { result ≡ later self other }
    {
        if self < other { other } else { self }
    }
}

impl Reading {
    ghost use Rattle.mr_base.specs.Timestamps.{of_reading};

    /// The timestamp that a clock of this reading gives to `owner`.
    pub fn owned_by(self, owner: u32) -> Ts
        ensures { result ≡ of_reading self owner }
    {
        Ts {
            wall: self.wall,
            logical: self.logical,
            owner,
        }
    }
}

impl fmt::Display for Ts {
    ghost use Rattle.mr_base.specs.Timestamps.{ts_text};
    ghost use Rattle.std.specs.Prelude.{Some};

    ghost output = { λ t. Some (ts_text t) };

    fn fmt<W: fmt::Write>(&self, f: &mut fmt::Formatter<W>) -> fmt::Result {
        let wall = self.wall;
        let logical = self.logical;
        let owner = self.owner;
        write!(f, "{wall}.{logical}.{owner}")
    }
}

/// The order of timestamps is total, nothing is below itself, and nothing below the least.
pub fn order_of_timestamps()
    ensures irreflexive { IsIrreflexive }
    ensures transitive { IsTransitive }
    ensures total { IsTotal }
    ensures least { IsLeast Ts.ZERO }
{}
