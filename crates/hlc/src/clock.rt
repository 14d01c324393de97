//! A clock that ticks move and that never shows less than it gave.

ghost use Rattle.std.specs.Prelude.{◌≡◌, ◌+◌, ◌<◌, ◌≤◌, ◌^◌};
ghost use Rattle.hlc.specs.Readings.{IsEarlier, reading_of, next_of, greater, nothing};

use mr_base::Reading;
use std::marker::Model;

/// A hybrid logical clock: a physical part in milliseconds, which ticks alone move, and the greatest reading
/// that it gave or took in since its node started. Source: Taft et al., SIGMOD 2020, in this project's profile.
#[derive(Drop)]
pub struct Clock {
    physical: u64,
    kept: Reading,
}

impl Model for Clock {
    ghost use Rattle.hlc.specs.Value.{ClockValue};

    ghost Value = { ClockValue };

    ghost view = { λ c. record { physical = c.physical; kept = c.kept } };
}

impl Clock {
    /// A clock that gave no reading yet.
    pub fn new(physical: u64) -> Clock
        ensures { result ≡ record { physical = physical; kept = nothing } }
    {
        Clock {
            physical,
            kept: NOTHING,
        }
    }

    /// Moves the physical part on by so many milliseconds.
    pub fn tick(&mut self, ms: u64)
        requires room { self.old.physical + ms < 2 ^ 53 }
        ensures { self.new ≡ record self.old { physical = self.old.physical + ms } }
    {
        self.physical += ms;
    }

    /// The physical part, in milliseconds.
    pub fn physical(&self) -> u64
        ensures { result ≡ self.now.physical }
    {
        self.physical
    }

    /// What the clock shows: its physical part where that is ahead of what is kept, else what is kept.
    pub fn reading(&self) -> Reading
        ensures shown { result ≡ reading_of self.now.physical self.now.kept }
        ensures ahead { self.now.physical ≤ result.wall }
    {
        if self.physical > self.kept.wall {
            Reading {
                wall: self.physical,
                logical: 0,
            }
        } else {
            self.kept
        }
    }

    /// A reading above each that was given or taken in since the start, which is then kept.
    pub fn now(&mut self) -> Reading
        requires room { (reading_of self.old.physical self.old.kept).logical + 1 < 2 ^ 64 }
        ensures next { result ≡ next_of self.old.physical self.old.kept }
        ensures rises { IsEarlier self.old.kept result }
        ensures kept { self.new ≡ record self.old { kept = result } }
    {
        let next = if self.physical > self.kept.wall {
            Reading {
                wall: self.physical,
                logical: 0,
            }
        } else {
            Reading {
                wall: self.kept.wall,
                logical: self.kept.logical + 1,
            }
        };
        self.kept = next;
        next
    }

    /// Takes in the reading that came with a message: the greater of it and what is kept stays. The
    /// physical part isn't taken in.
    pub fn observe(&mut self, r: Reading)
        ensures { self.new ≡ record self.old { kept = greater self.old.kept r } }
    {
        if self.kept < r {
            self.kept = r;
        }
    }

    /// The node starts again, and its clock keeps nothing of what it gave.
    pub fn restart(&mut self)
        ensures { self.new ≡ record self.old { kept = nothing } }
    {
        self.kept = NOTHING;
    }
}

/// Below each reading that a clock gives.
const NOTHING: Reading = Reading {
    wall: 0,
    logical: 0,
};
