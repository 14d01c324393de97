//! A script that ends with a fault.

ghost use Rattle.std.specs.Prelude.{◌≡◌, []};

use mr_base::{Ask, CloneIn, Fed, ListOf, Memory, Need, Pair, Script, SqlState, Write};
use std::alloc::Global;

/// A script that asks these spans one after the other, whatever it is fed, and then faults.
#[derive(Drop)]
pub struct FaultyScript {
    alloc: Global,
    asks: ListOf<Ask>,
    fed: ListOf<Fed>,
    state: SqlState,
}

impl FaultyScript {
    pub fn new(alloc: Global, asks: ListOf<Ask>, state: SqlState) -> FaultyScript
        ensures { ⟦<FaultyScript as Script>⟧.fed result ≡ [] }
    {
        FaultyScript {
            alloc,
            asks,
            fed: ListOf::new(alloc),
            state,
        }
    }
}

impl Script for FaultyScript {
    ghost use Rattle.std.specs.Prelude.{[], false, ◌-◌, length, slice_get};
    ghost use Rattle.std.specs.Option.{option_map_or};
    ghost use Rattle.mr_base.specs.declared.script.Need.TheVariants as need;

    ghost program = { λ s. record {
      need_after = λ fed. option_map_or need.Ask (slice_get s.asks (length fed)) (need.Fault s.state);
      writes_after = λ fed. [];
      answers_after = λ fed. [];
    } };

    ghost fed = { λ s. s.fed };

    ghost done = { λ s. false };

    ghost phases = { λ s. length s.asks - length s.fed };

    ghost asks = { λ s. 0 };

    fn need(&mut self) -> Result<Need, Memory> {
        match self.asks.as_slice().get(self.fed.len()) {
            None => Ok(Need::Fault(self.state)),
            Some(ask) => Ok(Need::Ask(ask.clone_in(self.alloc)?)),
        }
    }

    fn feed(&mut self, ask: &Ask, rows: &[Pair]) -> Result<(), Memory> {
        let ask = ask.clone_in(self.alloc)?;
        let rows = ListOf::copy_of(self.alloc, rows)?;
        self.fed.push(Fed { ask, rows })?;
        Ok(())
    }

    fn writes(&self) -> &[Write] {
        &[]
    }

    fn restart(&mut self) -> Result<(), Memory> {
        self.fed = ListOf::new(self.alloc);
        Ok(())
    }
}
