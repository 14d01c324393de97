//! A list at work, from one span that it needs to the next.

ghost use Rattle.std.specs.Prelude.{◌≡◌, ◌<◌, [], ◌∷◌, ◌++◌, All, IfOk, drop, length};
ghost use Rattle.region_sql.specs.TextLiterals.{TextsAreUtf8};
ghost use Rattle.sql_eval.specs.Laws.{IsSoundSetting};
ghost use Rattle.sql_eval.specs.OwnWrites.{with_writes};
ghost use Rattle.sql_eval.specs.Reads.{served_reads};
ghost use Rattle.planner.specs.Progress.{IsListStep, IsPhaseOfFirst, IsSoundProgress, IsStatementStep, IsStepIn};
ghost use Rattle.planner.specs.declared.phases.Phase.TheVariants as phases;

use crate::known_spans::KnownSpans;
use crate::own_writes::OwnWrites;
use crate::phases::Phase;
use crate::row_writes::StatementOutcome;
use crate::setting::PlanSetting;
use crate::turns::{Turn, go_on};
use mr_base::{Ask, ListOf, Memory, SqlState, StatementResult};
use region_sql::RowStatement;
use std::alloc::Global;

/// How far a list is: how many of its statements are done, what they wrote and answered, and where the next
/// one stands.
#[derive(Drop)]
pub(crate) struct Progress {
    pub(crate) done: usize,
    pub(crate) own: OwnWrites,
    pub(crate) answers: ListOf<StatementResult>,
    pub(crate) phase: Phase,
}

/// How a list goes on: behind a span that it needs, with a fault, or with all of its statements done.
#[derive(Drop)]
pub(crate) enum ListStep {
    Asks(Ask, Progress),
    Faulty(SqlState),
    Done(Progress),
}

/// Goes on with a list as far as what was fed allows.
pub(crate) fn advance(
    alloc: Global,
    setting: &PlanSetting,
    known: &KnownSpans,
    p: Progress,
) -> Result<ListStep, Memory>
    requires sound { IsSoundSetting setting.now }
    requires phase { IsSoundProgress setting.now p }
    ensures { IfOk result (IsListStep setting.now (served_reads known.now) p) }
{
    match setting.list() {
        Err(code) => Ok(ListStep::Faulty(*code)),
        Ok(list) => advance_in(alloc, setting, known, list.as_slice(), p),
    }
}

/// Goes on with the statements of a list, one after the other.
fn advance_in(
    alloc: Global,
    setting: &PlanSetting,
    known: &KnownSpans,
    list: &[RowStatement],
    p: Progress,
) -> Result<ListStep, Memory>
    requires sound { IsSoundSetting setting.now }
    requires texts { All TextsAreUtf8 list.now }
    requires phase { IsPhaseOfFirst setting.now.layout.catalog p.phase (drop p.done list.now) }
    ensures { IfOk result (IsStepIn setting.now list.now (served_reads known.now) p) }
{
    let mut at = p;
    for i in at.done..list.len() {
        match statement_on(alloc, setting, known, list, i, at)? {
            ListStep::Done(next) => at = next,
            step => return Ok(step),
        }
    }
    Ok(ListStep::Done(at))
}

/// Goes on with the next statement of a list.
fn statement_on(
    alloc: Global,
    setting: &PlanSetting,
    known: &KnownSpans,
    list: &[RowStatement],
    place: usize,
    p: Progress,
) -> Result<ListStep, Memory>
    requires sound { IsSoundSetting setting.now }
    requires texts { All TextsAreUtf8 list.now }
    requires place { place < length list.now }
    requires next { place ≡ p.done }
    requires phase { IsPhaseOfFirst setting.now.layout.catalog p.phase (drop p.done list.now) }
    ensures { IfOk result (IsStatementStep setting.now list.now (served_reads known.now) p) }
{
    let Progress {
        own,
        answers,
        phase,
        ..
    } = p;
    match go_on(alloc, setting, &own, known, &list[place], phase)? {
        Turn::Asks(ask, phase) => Ok(ListStep::Asks(
            ask,
            Progress {
                done: place,
                own,
                answers,
                phase,
            },
        )),
        Turn::Faulty(code) => Ok(ListStep::Faulty(code)),
        Turn::Ends(x) => Ok(ListStep::Done(after_statement(place + 1, own, answers, x)?)),
    }
}

/// A list of which so many statements are done, of which the last one came to this.
fn after_statement(
    done: usize,
    own: OwnWrites,
    answers: ListOf<StatementResult>,
    last: StatementOutcome,
) -> Result<Progress, Memory>
    ensures { IfOk result (λ p. p ≡ record {
      done = done;
      own = with_writes own last.writes;
      answers = answers ++ last.answer ∷ [];
      phase = phases.Ready;
    }) }
{
    let StatementOutcome { answer, writes } = last;
    let mut own = own;
    own.make(writes.as_slice())?;
    let mut answers = answers;
    answers.push(answer)?;
    Ok(Progress {
        done,
        own,
        answers,
        phase: Phase::Ready,
    })
}
