//! A transaction is taken through steps, and each of its moves is written down.

ghost use Rattle.std.specs.Prelude.{◌≡◌, [], IsTrue, IfOk, OnOk};
ghost use Rattle.txn_coord.specs.Machine.{IsTimed, machine};
ghost use Rattle.txn_coord.specs.Soundness.{IsOpen, IsSoundTxn};

use super::replies::{Said, fits, reply_of, ts};
use super::texts::move_text;
use mr_base::{
    Ask, AttemptId, Bytes, FixedScript, Kind, ListOf, Memory, MsgId, RangeId, Reading, Script,
    Settings, Span, TxnId, Write,
};
use std::alloc::Global;
use std::process::Abort;
use txn_coord::{Course, Txn};

/// Why a test ends early.
#[derive(Debug, Drop)]
pub enum Stop {
    Memory,
    /// The step may not be made where the transaction stands.
    Unfit,
}

impl From<Memory> for Stop {
    fn from(_e: Memory) -> Stop {
        Stop::Memory
    }
}

/// What is done to a transaction.
#[derive(Clone, Copy)]
pub enum Step {
    /// Its move at this wall, with this fresh attempt.
    Next(u64, u32),
    Take(Said),
    WentOut,
    Exhausted,
    TimedOut(u64),
}

fn is_open(course: &Course) -> bool
    ensures { IsTrue result → IsOpen course.now }
{
    match course {
        Course::Acknowledged => false,
        Course::Over => false,
        _ => true,
    }
}

fn next<S: Script>(alloc: Global, txn: &mut Txn<S>, wall: u64, fresh: u32) -> Result<String, Stop>
    requires { IsSoundTxn (S.done txn.old.script) (machine S.program S.fed txn.old) }
    ensures { OnOk result (IsSoundTxn (S.done txn.new.script) (machine S.program S.fed txn.new)) }
{
    let progress = txn.progress();
    if progress.asked.is_some() {
        return Err(Stop::Unfit);
    }
    if !is_open(&progress.course) {
        return Err(Stop::Unfit);
    }
    let next = txn.next(Reading { wall, logical: 0 }, AttemptId(fresh))?;
    Ok(move_text(alloc, &next)?)
}

fn take<S: Script>(alloc: Global, txn: &mut Txn<S>, said: Said) -> Result<String, Stop>
    requires { IsSoundTxn (S.done txn.old.script) (machine S.program S.fed txn.old) }
    ensures { OnOk result (IsSoundTxn (S.done txn.new.script) (machine S.program S.fed txn.new)) }
{
    let reply = reply_of(alloc, said)?;
    let progress = txn.progress();
    if progress.asked.is_none() {
        return Err(Stop::Unfit);
    }
    if !fits(&progress.course, &reply) {
        return Err(Stop::Unfit);
    }
    txn.take(&reply)?;
    due_text(alloc, txn.due())
}

/// The wall for which a transaction waits.
fn due_text(alloc: Global, due: Option<u64>) -> Result<String, Stop> {
    match due {
        None => Ok(String::new(alloc)),
        Some(wall) => match format!(in alloc; "due {wall}") {
            Err(_) => Err(Stop::Memory),
            Ok(text) => Ok(text),
        },
    }
}

/// What ends or marks a request that is outstanding, without a reply.
fn unanswered<S: Script>(alloc: Global, txn: &mut Txn<S>, step: Step) -> Result<String, Stop>
    requires { IsSoundTxn (S.done txn.old.script) (machine S.program S.fed txn.old) }
    ensures { OnOk result (IsSoundTxn (S.done txn.new.script) (machine S.program S.fed txn.new)) }
{
    let Some(range) = txn.progress().asked else {
        return Err(Stop::Unfit);
    };
    match step {
        Step::WentOut => txn.went_out(),
        Step::Exhausted => txn.exhausted(range),
        Step::TimedOut(message) => txn.timed_out(MsgId(message)),
        _ => return Err(Stop::Unfit),
    }
    Ok(String::new(alloc))
}

/// One step: of a move its text, of a reply the wall for which the transaction waits then, if it does.
fn make_step<S: Script>(alloc: Global, txn: &mut Txn<S>, step: Step) -> Result<String, Stop>
    requires { IsSoundTxn (S.done txn.old.script) (machine S.program S.fed txn.old) }
    ensures { OnOk result (IsSoundTxn (S.done txn.new.script) (machine S.program S.fed txn.new)) }
{
    match step {
        Step::Next(wall, fresh) => next(alloc, txn, wall, fresh),
        Step::Take(said) => take(alloc, txn, said),
        _ => unanswered(alloc, txn, step),
    }
}

/// Takes a transaction through steps, and compares what each says.
pub fn run<S: Script>(
    rt: &impl Abort,
    alloc: Global,
    mut txn: Txn<S>,
    steps: &[(Step, &str)],
) -> Result<(), Stop>
    requires { IsSoundTxn (S.done txn.script) (machine S.program S.fed txn) }
{
    for (made, wanted) in steps {
        let text = make_step(alloc, &mut txn, *made)?;
        assert_eq!(rt; text.as_str(), *wanted);
    }
    Ok(())
}

fn span(alloc: Global, lo: &[u8], hi: &[u8]) -> Result<Span, Memory> {
    Ok(Span {
        lo: Bytes::from_slice(alloc, lo)?,
        hi: Bytes::from_slice(alloc, hi)?,
    })
}

/// A transaction whose script asks this many spans of range 1, and then writes these keys of these ranges:
/// the value `v`, and at key `d` a deletion.
pub fn began(
    alloc: Global,
    kind: Kind,
    asks: u32,
    writes: &[(u32, u8)],
) -> Result<Txn<FixedScript>, Stop>
    requires { IsTimed kind }
    ensures { IfOk result (λ t. IsSoundTxn (⟦<FixedScript as Script>⟧.done t.script) (machine ⟦<FixedScript as Script>⟧.program ⟦<FixedScript as Script>⟧.fed t)) }
{
    let mut spans = ListOf::new(alloc);
    for number in 0..asks {
        let lo = [b'a' + (number % 16) as u8];
        let hi = [b'b' + (number % 16) as u8];
        spans.push(Ask {
            range: RangeId(1),
            span: span(alloc, &lo, &hi)?,
        })?;
    }
    let mut all = ListOf::new(alloc);
    for (range, key) in writes {
        let value = if *key == b'd' {
            None
        } else {
            Some(Bytes::from_slice(alloc, b"v")?)
        };
        all.push(Write {
            range: RangeId(*range),
            key: Bytes::from_slice(alloc, &[*key])?,
            value,
        })?;
    }
    start_with(alloc, kind, FixedScript::new(alloc, spans, all))
}

/// A transaction of this script. Its gateway's clock shows 1000.0, and its first attempt is 1.
pub fn start_with<S: Script>(alloc: Global, kind: Kind, script: S) -> Result<Txn<S>, Stop>
    requires timed { IsTimed kind }
    requires unfed { S.fed script ≡ [] }
    ensures { IfOk result (λ t. IsSoundTxn (S.done t.script) (machine S.program S.fed t)) }
{
    let settings = Settings {
        max_offset: 500,
        lease: 6000,
        lag: 3000,
        lead: 800,
        expire: 5000,
    };
    let start = Reading {
        wall: 1000,
        logical: 0,
    };
    Ok(Txn::begin(
        alloc,
        TxnId(1),
        AttemptId(1),
        kind,
        start,
        &settings,
        script,
    )?)
}

/// A transaction whose first read was uncertain so many times, each time of a version at 1200.0.
pub fn retry_often<S: Script>(alloc: Global, mut txn: Txn<S>, times: u32) -> Result<Txn<S>, Stop>
    requires { IsSoundTxn (S.done txn.script) (machine S.program S.fed txn) }
    ensures { IfOk result (λ t. IsSoundTxn (S.done t.script) (machine S.program S.fed t)) }
{
    let said = Said::Uncertain(ts(1200, 0, 9));
    for made in 0..times {
        let fresh = made.saturating_add(2);
        let _read = next(alloc, &mut txn, 1000, fresh)?;
        let _due = take(alloc, &mut txn, said)?;
        let _retried = next(alloc, &mut txn, 1000, fresh)?;
    }
    Ok(txn)
}
