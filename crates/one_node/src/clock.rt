//! The clock of a node.

ghost use Rattle.std.specs.Prelude.{◌≡◌, ◌+◌, ◌<◌, ◌^◌};
ghost use Rattle.one_node.specs.Clock.{reading_of, next_of};

use mr_base::Reading;

/// A hybrid logical clock: the physical part in milliseconds, and the greatest reading that it gave.
/// Source: Taft et al., SIGMOD 2020.
#[derive(Clone, Copy)]
pub struct Clock {
    pub physical: u64,
    pub kept: Reading,
}

impl Clock {
    /// A clock that gave no reading yet.
    pub fn new(physical: u64) -> Clock
        ensures { result ≡ record { physical = physical; kept = record { wall = 0; logical = 0 } } }
    {
        let kept = Reading {
            wall: 0,
            logical: 0,
        };
        Clock { physical, kept }
    }

    /// What the clock shows.
    pub fn reading(self) -> Reading
        ensures { result ≡ reading_of self.physical self.kept }
    {
        if self.physical > self.kept.wall {
            Reading {
                wall: self.physical,
                logical: 0,
            }
        } else {
            self.kept
        }
    }

    /// The reading after which a new one comes, which is then kept.
    pub fn next(self) -> Reading
        requires room { self.kept.logical + 1 < 2 ^ 64 }
        ensures { result ≡ next_of self.physical self.kept }
    {
        if self.physical > self.kept.wall {
            Reading {
                wall: self.physical,
                logical: 0,
            }
        } else {
            Reading {
                wall: self.kept.wall,
                logical: self.kept.logical + 1,
            }
        }
    }
}
