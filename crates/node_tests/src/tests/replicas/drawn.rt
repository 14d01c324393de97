//! Drawn logs and questions, answered twice.

ghost use Rattle.std.specs.Prelude.{◌<◌};

use super::plain::{Plain, all_times, answer as plain_answer};
use super::steps::{Asked, Question, Step, answer, apply};
use mr_base::{AttemptId, Fate, Known, Memory, Ts};
use mvcc_range::Replica;
use std::alloc::Global;

/// Numbers that look drawn.
#[derive(Drop)]
struct Draws(u64);

impl Draws {
    fn below(&mut self, count: u32) -> u32
        requires { 0 < count }
        ensures { result < count }
    {
        self.0 = self
            .0
            .wrapping_mul(6364136223846793005)
            .wrapping_add(1442695040888963407);
        ((self.0 >> 33) as u32) % count
    }

    fn ts(&mut self) -> Ts {
        Ts {
            wall: u64::from(self.below(8)),
            logical: 0,
            owner: self.below(5),
        }
    }

    fn key(&mut self) -> u8 {
        b'a'.saturating_add(self.below(4) as u8)
    }

    fn fate(&mut self) -> Fate {
        match self.below(4) {
            0 => Fate::Aborted,
            1 => Fate::Pushed(self.ts()),
            _ => Fate::Committed(self.ts()),
        }
    }

    fn step(&mut self) -> Step {
        let attempt = self.below(4);
        let key = self.key();
        let ts = self.ts();
        let value = b'p'.saturating_add(self.below(9) as u8);
        match self.below(8) {
            0 => Step::Load { key, ts, value },
            1 | 2 | 3 => Step::Resolve {
                attempt,
                key,
                fate: self.fate(),
            },
            4 => Step::Put {
                attempt,
                key,
                ts,
                value: None,
            },
            _ => Step::Put {
                attempt,
                key,
                ts,
                value: Some(value),
            },
        }
    }

    fn limit(&mut self) -> Option<u64> {
        match self.below(3) {
            0 => None,
            _ => Some(u64::from(self.below(8))),
        }
    }

    fn asked(&mut self) -> Asked {
        let question = match self.below(8) {
            0 => Question::Lowest,
            1 => Question::Newest,
            2 | 3 => Question::Refresh {
                from: self.ts(),
                to: self.ts(),
            },
            _ => Question::Read {
                at: self.ts(),
                limit: self.limit(),
            },
        };
        Asked {
            attempt: self.below(5),
            lo: self.key(),
            hi: self.key().saturating_add(2),
            question,
        }
    }
}

fn drawn_steps(alloc: Global, draws: &mut Draws) -> Result<Vec<Step>, Memory> {
    let mut steps = Vec::new(alloc);
    for _ in 0..3 + draws.below(15) {
        steps.push(draws.step())?;
    }
    Ok(steps)
}

fn drawn_fates(alloc: Global, draws: &mut Draws) -> Result<Vec<Known>, Memory> {
    let mut known = Vec::new(alloc);
    for _ in 0..draws.below(5) {
        known.push(Known {
            attempt: AttemptId(draws.below(4)),
            fate: draws.fate(),
        })?;
    }
    Ok(known)
}

fn replica_of(alloc: Global, steps: &[Step]) -> Result<Replica, Memory> {
    let mut replica = Replica::new(alloc);
    for step in steps {
        apply(alloc, &mut replica, step)?;
    }
    Ok(replica)
}

/// Whether a replica and the definitions answer a drawn question on a drawn log alike.
fn agree(alloc: Global, times: &[Ts], draws: &mut Draws) -> Result<bool, Memory> {
    let steps = drawn_steps(alloc, draws)?;
    let known = drawn_fates(alloc, draws)?;
    let asked = draws.asked();
    let replica = replica_of(alloc, steps.as_slice())?;
    let plain = Plain {
        steps: steps.as_slice(),
        known: known.as_slice(),
        attempt: asked.attempt,
    };
    let got = answer(alloc, &replica, &asked, known.as_slice())?;
    let want = plain_answer(alloc, &plain, times, &asked)?;
    Ok(got.as_str() == want.as_str())
}

/// The number of the first draw on which they differ, if there is one.
pub fn first_difference(alloc: Global, count: u32) -> Result<Option<u32>, Memory> {
    let times = all_times(alloc)?;
    let mut draws = Draws(20261201);
    for number in 0..count {
        if !agree(alloc, times.as_slice(), &mut draws)? {
            return Ok(Some(number));
        }
    }
    Ok(None)
}
