//! The plan of a transaction's list of statements.

ghost use Rattle.std.specs.Prelude.{◌≡◌, List, [], false, true, IfOk, OnOk};
ghost use Rattle.mr_base.specs.Scripts.{IsDone};
ghost use Rattle.mr_base.specs.declared.script.Fed.{Fed};
ghost use Rattle.row_locality.specs.Plain.{AreRangesOf};
ghost use Rattle.sql_eval.specs.Evaluation.{Setting, evaluation};
ghost use Rattle.sql_eval.specs.Laws.{HaveTexts, IsSoundSetting};
ghost use Rattle.sql_eval.specs.NextSpan.{answers_in, need_of, program_of, writes_in};
ghost use Rattle.sql_eval.specs.Reads.{served_reads};
ghost use Rattle.planner.specs.FreshAsks.{fresh_asks};
ghost use Rattle.planner.specs.Plans.{PlansAreExecuted, is_done};
ghost use Rattle.planner.specs.Progress.{IsStateOf};
ghost use Rattle.planner.specs.declared.plan.State.TheVariants as states;

use crate::fresh_spans::fresh_asks;
use crate::known_spans::KnownSpans;
use crate::own_writes::OwnWrites;
use crate::phases::Phase;
use crate::progress::{ListStep, Progress, advance};
use crate::setting::PlanSetting;
use descriptors::Catalog;
use mr_base::{
    Ask, Bytes, CloneIn, Fed, ListOf, Memory, Need, Pair, RangeId, Script, SqlState,
    StatementResult, Write,
};
use region_sql::List;
use std::alloc::Global;
use std::marker::Model;
use std::mem;

/// What a list came to: its answers, and the last value of each key that it writes.
#[derive(Drop)]
pub(crate) struct Finished {
    pub(crate) answers: ListOf<StatementResult>,
    pub(crate) own: OwnWrites,
    pub(crate) writes: ListOf<Write>,
}

/// Where a list stands.
#[derive(Drop)]
pub(crate) enum State {
    Working(Progress),
    Done(Finished),
    Faulty(SqlState),
    /// Memory ran out.
    Lost,
}

/// The plan of a transaction's list of statements: a script that asks for the spans that the list reads, and
/// then answers and writes what the list comes to. Source: this project's profile.
#[derive(Drop)]
pub struct Plan {
    alloc: Global,
    setting: PlanSetting,
    known: KnownSpans,
    state: State,
}

impl Model for Plan {
    ghost use Rattle.sql_eval.specs.Laws.{IsSoundSetting};
    ghost use Rattle.planner.specs.Plans.{Planned, is_done};
    ghost use Rattle.planner.specs.Progress.{IsStateOf};

    ghost Value = { Planned };

    ghost view = { λ p. record { setting = p.setting; fed = p.known; done = is_done p.state } };

    ghost invariant = { λ p. IsSoundSetting p.setting × IsStateOf p.setting p.known p.state };
}

/// The state of a list of which nothing was done.
fn first_state(alloc: Global, list: &Result<List, SqlState>) -> State
    ensures state { (s : Setting) → s.list ≡ list.now → IsStateOf s [] result }
    ensures not_done { is_done result ≡ false }
{
    match list {
        Err(state) => State::Faulty(*state),
        Ok(_) => State::Working(Progress {
            done: 0,
            own: OwnWrites::new(alloc),
            answers: ListOf::new(alloc),
            phase: Phase::Ready,
        }),
    }
}

/// The state in which a list at work needs something next, and what it needs.
fn next_state(
    alloc: Global,
    setting: &PlanSetting,
    known: &KnownSpans,
    p: Progress,
) -> Result<(State, Need), Memory>
    requires sound { IsSoundSetting setting.now }
    requires working { IsStateOf setting.now known.now (states.Working p) }
    ensures state { IfOk result (λ x. IsStateOf setting.now known.now x.0) }
    ensures need { IfOk result (λ x. x.1 ≡ need_of (evaluation setting.now (served_reads known.now))) }
    ensures done { IfOk result (λ x. IsDone x.1 → is_done x.0 ≡ true) }
{
    match advance(alloc, setting, known, p)? {
        ListStep::Asks(ask, p) => Ok((State::Working(p), Need::Ask(ask))),
        ListStep::Faulty(code) => Ok((State::Faulty(code), Need::Fault(code))),
        ListStep::Done(p) => {
            let Progress { own, answers, .. } = p;
            let writes = own.writes(alloc)?;
            let finished = Finished {
                answers,
                own,
                writes,
            };
            Ok((State::Done(finished), Need::Done))
        }
    }
}

/// What a list in a state needs next, and the state in which it needs it.
fn step(
    alloc: Global,
    setting: &PlanSetting,
    known: &KnownSpans,
    state: State,
) -> Result<(State, Need), Memory>
    requires sound { IsSoundSetting setting.now }
    requires state { IsStateOf setting.now known.now state }
    ensures state { IfOk result (λ x. IsStateOf setting.now known.now x.0) }
    ensures need { IfOk result (λ x. x.1 ≡ need_of (evaluation setting.now (served_reads known.now))) }
    ensures done { IfOk result (λ x. IsDone x.1 → is_done x.0 ≡ true) }
{
    match state {
        State::Working(p) => next_state(alloc, setting, known, p),
        State::Done(x) => Ok((State::Done(x), Need::Done)),
        State::Faulty(code) => Ok((State::Faulty(code), Need::Fault(code))),
        State::Lost => Err(Memory),
    }
}

/// The answers that a list came to.
fn answers_in(state: &State) -> &[StatementResult]
    ensures { (s : Setting) (fed : List Fed) → IsStateOf s fed state.now → is_done state.now ≡ true
        → result.now ≡ answers_in (evaluation s (served_reads fed)) }
{
    match state {
        State::Done(x) => x.answers.as_slice(),
        _ => &[],
    }
}

/// The writes that a list came to.
fn writes_in(state: &State) -> &[Write]
    ensures { (s : Setting) (fed : List Fed) → IsStateOf s fed state.now → is_done state.now ≡ true
        → result.now ≡ writes_in (evaluation s (served_reads fed)) }
{
    match state {
        State::Done(x) => x.writes.as_slice(),
        _ => &[],
    }
}

impl Plan {
    ghost use Rattle.sql_eval.specs.Evaluation.{Setting};

    /// The plan of a list as it was read, from a gateway in this region, on the tables of a catalog. For each
    /// table of the catalog, in its order, `first_ranges` has the number of its first range.
    pub fn new(
        alloc: Global,
        catalog: &Catalog,
        first_ranges: &[RangeId],
        region: &[u8],
        list: Result<List, SqlState>,
    ) -> Result<Plan, Memory>
        requires ranges { AreRangesOf (record { catalog = catalog.now; first_ranges = first_ranges.now }) }
        requires texts { HaveTexts list }
        ensures program { IfOk result (λ p. ⟦<Plan as Script>⟧.program p ≡ program_of (record {
          layout = record { catalog = catalog.now; first_ranges = first_ranges.now };
          region = region.now;
          list = list;
        })) }
        ensures setting { IfOk result (λ p. p.setting ≡ record {
          layout = record { catalog = catalog.now; first_ranges = first_ranges.now };
          region = region.now;
          list = list;
        }) }
        ensures unfed { IfOk result (λ p. ⟦<Plan as Script>⟧.fed p ≡ []) }
        ensures not_done { IfOk result (λ p. ⟦<Plan as Script>⟧.done p ≡ false) }
    {
        // every catalog is sound
        let _ = catalog.tables();
        let setting = PlanSetting::new(
            catalog.clone_in(alloc)?,
            ListOf::copy_of(alloc, first_ranges)?,
            Bytes::from_slice(alloc, region)?,
            list,
        );
        let state = first_state(alloc, setting.list());
        Ok(Plan {
            alloc,
            setting,
            known: KnownSpans::new(alloc),
            state,
        })
    }

    /// The answers of its statements, once `need` has answered that it is done.
    pub fn results(&self) -> &[StatementResult]
        ensures { ⟦<Plan as Script>⟧.done self.now ≡ true
            → result.now ≡ (⟦<Plan as Script>⟧.program self.now).answers_after (⟦<Plan as Script>⟧.fed self.now) }
    {
        answers_in(&self.state)
    }

    /// What a read of bounded staleness looks at, where the list is one SELECT without a fault before any row
    /// is looked at: the point of the primary key where each of its columns has a term with `=`, else all keys,
    /// in each range of the table, or in the one that a term `crdb_region = 'x'` names, in the order of ranges.
    /// Source: CockroachDB's documentation of bounded staleness reads, in this project's profile.
    pub fn fresh_asks(&self) -> Result<Option<ListOf<Ask>>, Memory>
        ensures { IfOk result (λ asks. asks ≡ fresh_asks self.now.setting) }
    {
        fresh_asks(self.alloc, &self.setting)
    }
}

impl Script for Plan {
    ghost use Rattle.sql_eval.specs.NextSpan.{program_of, phases_after, asks_after};

    ghost program = { λ p. program_of p.setting };

    ghost fed = { λ p. p.fed };

    ghost done = { λ p. p.done };

    ghost phases = { λ p. phases_after p.setting p.fed };

    ghost asks = { λ p. asks_after p.setting p.fed };

    fn need(&mut self) -> Result<Need, Memory> {
        let state = mem::replace(&mut self.state, State::Lost);
        let (state, need) = step(self.alloc, &self.setting, &self.known, state)?;
        self.state = state;
        Ok(need)
    }

    fn feed(&mut self, ask: &Ask, rows: &[Pair]) -> Result<(), Memory> {
        self.known.add(self.alloc, ask, rows)
    }

    fn writes(&self) -> &[Write] {
        writes_in(&self.state)
    }

    fn restart(&mut self) -> Result<(), Memory> {
        self.known = KnownSpans::new(self.alloc);
        self.state = first_state(self.alloc, self.setting.list());
        Ok(())
    }
}

/// What a plan comes to over the spans that it was fed is what executing its list gives on every valid database
/// that agrees with them: its answers and exactly its writes, or its fault.
pub fn plans_are_executed()
    ensures { PlansAreExecuted }
{}
