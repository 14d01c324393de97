//! A transaction's script: what it asks, what it was fed, and what it writes.

ghost use Rattle.std.specs.Prelude.{◌≡◌, ◌+◌, ◌<◌, ◌⊎◌, ◌++◌, ◌∷◌, [], ℕ, Bool, true, false, List, IfOk, OnOk, length};

use crate::list::ListOf;
use crate::memory::{CloneIn, Memory};
use crate::spans::{Ask, Pair, Write};
use crate::states::SqlState;
use std::alloc::Global;
use std::marker::Model;

/// What a script needs next.
#[derive(Drop)]
pub enum Need {
    /// The rows of a span.
    Ask(Ask),
    /// Nothing: its writes stand.
    Done,
    /// Nothing: it ends with this fault.
    Fault(SqlState),
}

/// A span that was asked, with the rows that it was fed.
#[derive(Drop)]
pub struct Fed {
    pub ask: Ask,
    pub rows: ListOf<Pair>,
}

/// A transaction's list of statements at work. What it needs, writes and answers are functions of what
/// it was made with and of what it was fed since the last restart, and of nothing else. After want of
/// memory nothing is said of a script, and no further call on it is made.
pub trait Script: Drop {
    ghost use Rattle.std.specs.Prelude.{Bool, ℕ, List};
    ghost use Rattle.mr_base.specs.Scripts.{Program, IsDone, AsksFor, IsNearer, fed_with};
    ghost use Rattle.mr_base.specs.declared.script.Fed.{Fed};

    /// What the script was made with, seen as its three functions.
    ghost program: { Self → Program };

    /// What it was fed since the last restart, first things first.
    ghost fed: { Self → List Fed };

    /// Whether `need` has answered that it is done since the last `feed` or `restart`.
    ghost done: { Self → Bool };

    /// How many phases are still to come, and how many asks in the present one, at most.
    ghost phases: { Self → ℕ };

    ghost asks: { Self → ℕ };

    /// What the script needs next.
    fn need(&mut self) -> Result<Need, Memory>
        ensures answer { IfOk result (λ need. need ≡ (program self.new).need_after (fed self.new)) }
        ensures done { IfOk result (λ need. IsDone need → done self.new ≡ true) }
        ensures ends { IfOk result (λ need. AsksFor need → 0 < phases self.old + asks self.old) }
        ensures program { OnOk result (program self.new ≡ program self.old) }
        ensures fed { OnOk result (fed self.new ≡ fed self.old) }
        ensures phases { OnOk result (phases self.new ≡ phases self.old) }
        ensures asks { OnOk result (asks self.new ≡ asks self.old) };

    /// Takes the rows of the span that it needs.
    fn feed(&mut self, ask: &Ask, rows: &[Pair]) -> Result<(), Memory>
        requires { (program self.old).need_after (fed self.old) ≡ Need.Ask ask.now }
        ensures fed { OnOk result (fed self.new ≡ fed self.old ++ fed_with ask.now rows.now ∷ []) }
        ensures program { OnOk result (program self.new ≡ program self.old) }
        ensures not_done { OnOk result (done self.new ≡ false) }
        ensures nearer { OnOk result (IsNearer (phases self.old) (asks self.old) (phases self.new) (asks self.new)) };

    /// The last value of each key that it writes, where `need` has answered that it is done.
    fn writes(&self) -> &[Write]
        ensures { done self.now ≡ true → result.now ≡ (program self.now).writes_after (fed self.now) };

    /// Forgets what it was fed.
    fn restart(&mut self) -> Result<(), Memory>
        ensures fed { OnOk result (fed self.new ≡ []) }
        ensures program { OnOk result (program self.new ≡ program self.old) }
        ensures not_done { OnOk result (done self.new ≡ false) };
}

/// A script that asks a fixed list of spans, whatever it is fed, and then writes a fixed list.
/// It has no statements, so it answers none.
#[derive(Drop)]
pub struct FixedScript {
    alloc: Global,
    asks: ListOf<Ask>,
    writes: ListOf<Write>,
    fed: ListOf<Fed>,
    done: bool,
}

impl FixedScript {
    ghost use Rattle.mr_base.specs.Scripts.{fixed};

    /// The script that asks these spans one after the other, and then makes these writes.
    pub fn new(alloc: Global, asks: ListOf<Ask>, writes: ListOf<Write>) -> FixedScript
        ensures made { ⟦<FixedScript as Script>⟧.program result ≡ fixed asks writes }
        ensures unfed { ⟦<FixedScript as Script>⟧.fed result ≡ [] }
        ensures not_done { ⟦<FixedScript as Script>⟧.done result ≡ false }
        ensures phases { ⟦<FixedScript as Script>⟧.phases result ≡ length asks }
        ensures asks { ⟦<FixedScript as Script>⟧.asks result ≡ 0 }
    {
        FixedScript {
            alloc,
            asks,
            writes,
            fed: ListOf::new(alloc),
            done: false,
        }
    }
}

impl Script for FixedScript {
    ghost use Rattle.std.specs.Prelude.{ℕ, ◌-◌, length};
    ghost use Rattle.mr_base.specs.Scripts.{fixed};

    ghost program = { λ s. fixed s.asks s.writes };

    ghost fed = { λ s. s.fed };

    ghost done = { λ s. s.done };

    ghost phases = { λ s. length s.asks - length s.fed };

    ghost asks = { λ s. 0 };

    fn need(&mut self) -> Result<Need, Memory> {
        match self.asks.as_slice().get(self.fed.len()) {
            None => {
                self.done = true;
                Ok(Need::Done)
            }
            Some(ask) => Ok(Need::Ask(ask.clone_in(self.alloc)?)),
        }
    }

    fn feed(&mut self, ask: &Ask, rows: &[Pair]) -> Result<(), Memory> {
        let ask = ask.clone_in(self.alloc)?;
        let rows = ListOf::copy_of(self.alloc, rows)?;
        self.fed.push(Fed { ask, rows })?;
        self.done = false;
        Ok(())
    }

    fn writes(&self) -> &[Write] {
        self.writes.as_slice()
    }

    fn restart(&mut self) -> Result<(), Memory> {
        self.fed = ListOf::new(self.alloc);
        self.done = false;
        Ok(())
    }
}
