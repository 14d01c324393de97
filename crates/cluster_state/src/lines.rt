//! Lines of the scenario, and the tick inside a `settle` line.

ghost use Rattle.std.specs.Prelude.{◌≡◌, ◌∷◌, [], OnErr, OnOk, Some, false};
ghost use Rattle.journal.specs.declared.events.Event.TheVariants as events;
ghost use Rattle.run_laws.specs.OrderEvents.{IsLineDue, NamesNode};
ghost use Rattle.run_words.specs.History.{Ran, Ticked};
ghost use Rattle.run_words.specs.Steps.{event_of, has_ticked};
ghost use Rattle.cluster_state.specs.Tied.{HasMade, IsTied, IsUnrecorded, past, the_setup};

use crate::hints::restart_hints;
use crate::state::State;
use journal::Event;
use mr_base::Memory;
use node_states::{Move, can_not_move, move_all, move_of};
use replica_states::restart_moved;

impl State {
    /// Runs a line: clocks tick, a node stops or starts. What else a line asks for is done by the calls behind it.
    pub fn line(&mut self, number: u32, event: Event) -> Result<(), Memory>
        requires tied { IsTied self.old }
        requires due { IsLineDue (event_of (past self.old)) (has_ticked (past self.old)) }
        requires names { NamesNode (the_setup self.old) event }
        ensures made { OnOk result (HasMade (Ran number event ∷ []) self.old self.new) }
        ensures err { OnErr result (IsUnrecorded self.old self.new) }
    {
        let moving = move_of(&event);
        if can_not_move(self.nodes.as_slice(), moving) {
            return Err(Memory);
        }
        self.ledger.line(number, event)?;
        self.running = move_all(self.nodes.as_mut_slice(), moving);
        restart_moved(self.ranges.as_mut_slice(), self.nodes.as_slice(), moving);
        restart_hints(self.hints.as_mut_slice(), self.ranges.as_slice(), moving);
        Ok(())
    }

    /// Ticks all clocks inside a `settle` line.
    pub fn ticked(&mut self, ms: u64) -> Result<(), Memory>
        requires tied { IsTied self.old }
        requires line { event_of (past self.old) ≡ Some (events.Settle ms) }
        requires once { has_ticked (past self.old) ≡ false }
        ensures made { OnOk result (HasMade (Ticked ms ∷ []) self.old self.new) }
        ensures err { OnErr result (IsUnrecorded self.old self.new) }
    {
        let moving = Move::TickAll(ms);
        if can_not_move(self.nodes.as_slice(), moving) {
            return Err(Memory);
        }
        self.ledger.ticked(ms)?;
        self.running = move_all(self.nodes.as_mut_slice(), moving);
        Ok(())
    }
}
