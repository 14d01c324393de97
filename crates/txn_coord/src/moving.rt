//! What a transaction does next.

ghost use Rattle.std.specs.Prelude.{◌≡◌, ◌⊎◌, ◌<◌, List, [], Some, None, true, IfOk, OnOk, length, option_map, slice_get};
ghost use Rattle.mr_base.specs.Scripts.{IsDone, Program};
ghost use Rattle.mr_base.specs.declared.script.Fed.{Fed};
ghost use Rattle.txn_coord.specs.Asking.{asks, put_of, range_of, refresh_of, resolve_of, sends, unresolved};
ghost use Rattle.txn_coord.specs.Machine.{machine_at, machine_of, need_of, writes_of};
ghost use Rattle.txn_coord.specs.Moving.{Concludes, HasSent, Moves, after_send, gone_on, lay_on, refresh_on, resolved_by, run_on, run_through, sent_course};
ghost use Rattle.txn_coord.specs.Soundness.{IsOpen, IsSoundTxn, IsWriting};
ghost use Rattle.txn_coord.specs.Steps.{HasRun, IsConcluding, IsNeeded, IsToRetry};

use crate::moves::{Move, Refusal};
use crate::progress::{Course, Progress};
use crate::refusing::{begin_attempt, go_to};
use crate::requests::{abort, commit, push, put, range_of, read, refresh, resolve};
use mr_base::{Ask, AttemptId, Fate, Memory, Need, Reading, Request, Script, SqlState, Write};
use std::alloc::Global;
use std::mem;

/// What the transaction does next: what isn't awaited goes out first, then a retry that is due.
pub fn next_move<S: Script>(
    alloc: Global,
    script: &mut S,
    t: &mut Progress,
    clock: Reading,
    fresh: AttemptId,
) -> Result<Move, Memory>
    requires sound { IsSoundTxn (S.done script.old) (machine_at S.program S.fed script.old t.old) }
    requires free { t.old.asked ≡ None }
    requires open { IsOpen t.old.course }
    ensures moves { IfOk result (λ made. Moves (machine_at S.program S.fed script.old t.old)
        clock fresh made (machine_at S.program S.fed script.new t.new)) }
    ensures sound { OnOk result (IsSoundTxn (S.done script.new) (machine_at S.program S.fed script.new t.new)) }
{
    if let Some(request) = unawaited(alloc, script, t)? {
        return send(t, request);
    }
    if let Course::Retrying { .. } = &t.course {
        return retry(alloc, script, t, fresh);
    }
    ask_or_answer(alloc, script, t, clock)
}

/// What goes out without being awaited, if anything is left of it.
fn unawaited<S: Script>(alloc: Global, script: &S, t: &Progress) -> Result<Option<Request>, Memory>
    requires { IsSoundTxn (S.done script.now) (machine_at S.program S.fed script.now t.now) }
    ensures { IfOk result (λ q. q ≡ sends (machine_at S.program S.fed script.now t.now)) }
{
    match &t.course {
        Course::Answering => resolves(alloc, script, t, Fate::Committed(t.at)),
        Course::Retrying { .. } => resolves(alloc, script, t, Fate::Aborted),
        Course::Refused {
            why: Refusal::Aborted { .. },
            ..
        } => resolves(alloc, script, t, Fate::Aborted),
        Course::Refused {
            abort: Some(anchor),
            ..
        } => Ok(Some(abort(t, *anchor))),
        _ => Ok(None),
    }
}

/// The next resolve of what was laid.
fn resolves<S: Script>(
    alloc: Global,
    script: &S,
    t: &Progress,
    fate: Fate,
) -> Result<Option<Request>, Memory>
    requires { (t.now.laid ≡ []) ⊎ IsWriting (S.done script.now) (machine_at S.program S.fed script.now t.now) }
    ensures { IfOk result (λ q. q
        ≡ resolve_of t.now fate (unresolved t.now (writes_of (machine_at S.program S.fed script.now t.now)))) }
{
    let laid = t.laid.len();
    if laid <= t.resolved {
        return Ok(None);
    }
    let writes = script.writes();
    if writes.len() < laid {
        unreachable!();
    }
    resolve(alloc, t, fate, &writes[t.resolved..laid])
}

/// A request goes out that isn't awaited.
fn send(t: &mut Progress, request: Request) -> Result<Move, Memory>
    ensures made { IfOk result (λ made. made ≡ Move.Send (range_of request) request) }
    ensures after { OnOk result (t.new ≡ after_send request t.old) }
{
    let Some(resolved) = t.resolved.checked_add(keys_of(&request)) else {
        return Err(Memory);
    };
    t.resolved = resolved;
    drop_abort(t);
    let range = range_of(&request);
    Ok(Move::Send { range, request })
}

/// No abort is due any more.
fn drop_abort(t: &mut Progress)
    ensures { t.new ≡ record t.old { course = sent_course t.old.course } }
{
    if let Course::Refused { abort, .. } = &mut t.course {
        *abort = None;
    }
}

/// How many keys a resolve has.
fn keys_of(request: &Request) -> usize
    ensures { result ≡ resolved_by request.now }
{
    match request {
        Request::Resolve { keys, .. } => keys.len(),
        _ => 0,
    }
}

/// A new attempt begins.
fn retry<S: Script>(
    alloc: Global,
    script: &mut S,
    t: &mut Progress,
    fresh: AttemptId,
) -> Result<Move, Memory>
    requires sound { IsSoundTxn (S.done script.old) (machine_at S.program S.fed script.old t.old) }
    requires due { IsToRetry t.old.course }
    requires sent { HasSent (machine_at S.program S.fed script.old t.old) }
    ensures moves { IfOk result (λ made. (clock : Reading) → Moves (machine_at S.program S.fed script.old t.old)
        clock fresh made (machine_at S.program S.fed script.new t.new)) }
    ensures sound { OnOk result (IsSoundTxn (S.done script.new) (machine_at S.program S.fed script.new t.new)) }
{
    match mem::replace(&mut t.course, Course::Over) {
        Course::Retrying { cause } => {
            script.restart()?;
            begin_attempt(alloc, t, &cause, fresh)?;
            Ok(Move::Retried {
                attempt: fresh,
                cause,
            })
        }
        _ => unreachable!(),
    }
}

/// What needs no reply is done at once; then comes what is asked, or else the answer.
fn ask_or_answer<S: Script>(
    alloc: Global,
    script: &mut S,
    t: &mut Progress,
    clock: Reading,
) -> Result<Move, Memory>
    requires sound { IsSoundTxn (S.done script.old) (machine_at S.program S.fed script.old t.old) }
    requires free { t.old.asked ≡ None }
    requires open { IsOpen t.old.course }
    requires not_due { ¬ IsToRetry t.old.course }
    requires sent { HasSent (machine_at S.program S.fed script.old t.old) }
    ensures moves { IfOk result (λ made. (fresh : AttemptId) → Moves (machine_at S.program S.fed script.old t.old)
        clock fresh made (machine_at S.program S.fed script.new t.new)) }
    ensures sound { OnOk result (IsSoundTxn (S.done script.new) (machine_at S.program S.fed script.new t.new)) }
{
    if let Some(ask) = go_on(script, t)? {
        let request = read(alloc, t, ask)?;
        return Ok(await_reply(t, request));
    }
    if let Some(request) = asked(alloc, script, t)? {
        return Ok(await_reply(t, request));
    }
    Ok(answer(t, clock))
}

/// What needs no reply is done: the span that the script needs, if it needs one.
fn go_on<S: Script>(script: &mut S, t: &mut Progress) -> Result<Option<Ask>, Memory>
    requires sound { IsSoundTxn (S.done script.old) (machine_at S.program S.fed script.old t.old) }
    requires free { t.old.asked ≡ None }
    ensures gone { OnOk result
        (machine_at S.program S.fed script.new t.new ≡ gone_on (machine_at S.program S.fed script.old t.old)) }
    ensures sound { OnOk result (IsSoundTxn (S.done script.new) (machine_at S.program S.fed script.new t.new)) }
    ensures needed { IfOk result (λ ask. IsNeeded (need_of
        (machine_at S.program S.fed script.new t.new)) t.new.course ask) }
{
    match &t.course {
        Course::Reading => run_on(script, t),
        Course::Laying => {
            lay_on(script.writes(), t);
            Ok(None)
        }
        Course::Refreshing => {
            refresh_on(t);
            Ok(None)
        }
        _ => Ok(None),
    }
}

/// The script is run on: to the span that it needs, or else to its writes or its fault.
fn run_on<S: Script>(script: &mut S, t: &mut Progress) -> Result<Option<Ask>, Memory>
    requires reading { t.old.course ≡ Course.Reading }
    ensures program { OnOk result (S.program script.new ≡ S.program script.old) }
    ensures fed { OnOk result (S.fed script.new ≡ S.fed script.old) }
    ensures done { OnOk result (IsDone (need_of
        (machine_at S.program S.fed script.new t.new)) → S.done script.new ≡ true) }
    ensures run { OnOk result (t.new ≡ run_on (need_of (machine_at S.program S.fed script.old t.old)) (writes_of
        (machine_at S.program S.fed script.old t.old)) t.old) }
    ensures needed { IfOk result (λ ask. IsNeeded (need_of
        (machine_at S.program S.fed script.old t.old)) t.new.course ask) }
{
    match script.need()? {
        Need::Ask(ask) => Ok(Some(ask)),
        Need::Done => {
            run_through(script.writes(), t);
            Ok(None)
        }
        Need::Fault(state) => {
            t.course = Course::Faulting { state };
            Ok(None)
        }
    }
}

/// A list without writes is answered; one with writes lays them.
fn run_through(writes: &[Write], t: &mut Progress)
    ensures { t.new ≡ run_through writes.now t.old }
{
    match writes.first() {
        None => t.course = Course::Answering,
        Some(first) => {
            t.anchor = Some(first.range);
            t.course = Course::Laying;
        }
    }
}

/// Laying ends where each write was laid; then what was read is refreshed where a put was laid above it.
fn lay_on(writes: &[Write], t: &mut Progress)
    requires { t.old.course ≡ Course.Laying }
    ensures { t.new ≡ lay_on writes.now t.old }
{
    if t.laid.len() < writes.len() {
        return;
    }
    if t.read.is_below(t.at) {
        refresh_on(t);
        return;
    }
    t.course = Course::Committing;
}

/// Refreshing ends where each span was refreshed.
fn refresh_on(t: &mut Progress)
    ensures { t.new ≡ refresh_on t.old }
{
    if t.again < t.served.len() {
        t.course = Course::Refreshing;
        return;
    }
    t.course = Course::Committing;
}

/// The request that is asked, other than a read.
fn asked<S: Script>(alloc: Global, script: &S, t: &Progress) -> Result<Option<Request>, Memory>
    requires sound { IsSoundTxn (S.done script.now) (machine_at S.program S.fed script.now t.now) }
    requires run { HasRun t.now.course }
    ensures { IfOk result (λ q. q ≡ asks (machine_at S.program S.fed script.now t.now)) }
{
    match &t.course {
        Course::Laying => next_put(alloc, script.writes(), t),
        Course::Refreshing => next_refresh(alloc, t),
        Course::Pushing { other, back } => Ok(Some(push(t, other, *back))),
        Course::Committing => Ok(t.anchor.map(|anchor| commit(t, anchor))),
        Course::Aborting { .. } => Ok(t.anchor.map(|anchor| abort(t, anchor))),
        _ => Ok(None),
    }
}

fn next_put(alloc: Global, writes: &[Write], t: &Progress) -> Result<Option<Request>, Memory>
    ensures { IfOk result (λ q. q ≡ put_of t.now t.now.anchor (slice_get writes.now (length t.now.laid))) }
{
    let Some(anchor) = t.anchor else {
        return Ok(None);
    };
    let Some(write) = writes.get(t.laid.len()) else {
        return Ok(None);
    };
    Ok(Some(put(alloc, t, anchor, write)?))
}

fn next_refresh(alloc: Global, t: &Progress) -> Result<Option<Request>, Memory>
    ensures { IfOk result (λ q. q ≡ option_map (refresh_of t.now) (slice_get t.now.served t.now.again)) }
{
    let Some(ask) = t.served.as_slice().get(t.again) else {
        return Ok(None);
    };
    Ok(Some(refresh(alloc, t, ask)?))
}

/// A request is made, and its reply awaited.
fn await_reply(t: &mut Progress, request: Request) -> Move
    ensures made { result ≡ Move.Ask (range_of request) request }
    ensures awaits { t.new ≡ record t.old { asked = Some (range_of request) } }
{
    let range = range_of(&request);
    t.asked = Some(range);
    Move::Ask { range, request }
}

/// The answer once the clock has passed its timestamp, or the refusal.
fn answer(t: &mut Progress, clock: Reading) -> Move
    requires { IsConcluding t.old.course }
    ensures { (program : Program) (fed : List Fed)
        → Concludes (machine_of program fed t.old) clock result (machine_of program fed t.new) }
{
    match mem::replace(&mut t.course, Course::Over) {
        Course::Answering => acknowledge(t, clock),
        Course::Faulting { state } => fault(t, clock, state),
        Course::Refused { why, .. } => {
            go_to(t, Course::Over);
            Move::Refuse(why)
        }
        _ => unreachable!(),
    }
}

fn acknowledge(t: &mut Progress, clock: Reading) -> Move
    ensures { (program : Program) (fed : List Fed)
        → Concludes (machine_of program fed (record t.old { course = Course.Answering }))
        clock result (machine_of program fed t.new) }
{
    if clock.wall < t.at.wall {
        t.course = Course::Answering;
        return Move::Wait { until: t.at.wall };
    }
    go_to(t, Course::Acknowledged);
    Move::Ack { ts: t.at }
}

fn fault(t: &mut Progress, clock: Reading, state: SqlState) -> Move
    ensures { (program : Program) (fed : List Fed)
        → Concludes (machine_of program fed (record t.old { course = Course.Faulting state }))
        clock result (machine_of program fed t.new) }
{
    if clock.wall < t.read.wall {
        t.course = Course::Faulting { state };
        return Move::Wait { until: t.read.wall };
    }
    go_to(t, Course::Over);
    Move::Fault { ts: t.read, state }
}
