//! What becomes of a transaction by a reply.

ghost use Rattle.std.specs.Prelude.{◌≡◌, OnOk, Some};
ghost use Rattle.mr_base.specs.Scripts.{AsksFor};
ghost use Rattle.txn_coord.specs.Machine.{machine_at};
ghost use Rattle.txn_coord.specs.Refusing.{goes_to};
ghost use Rattle.txn_coord.specs.Soundness.{IsSoundTxn};
ghost use Rattle.txn_coord.specs.Taking.{Answers, after, after_abort, after_commit, after_push, after_put, after_read, after_refresh, course_back, fed_by, laid_at, learns, pushes, refreshed};

use crate::fates::learned;
use crate::moves::Refusal;
use crate::progress::{Back, Course, Obstacle, Progress};
use crate::refusing::{go_to, refuse, refuse_decided, retry_for};
use mr_base::{
    AttemptId, Bytes, CloneIn, Fate, Known, Memory, Need, Pair, RangeId, Reply, Script, Ts,
};
use range_log::RetryCause;
use std::alloc::Global;
use std::mem;

/// The reply to a request that was asked of this range.
pub fn take_reply<S: Script>(
    alloc: Global,
    script: &mut S,
    t: &mut Progress,
    range: RangeId,
    reply: &Reply,
) -> Result<(), Memory>
    requires sound { IsSoundTxn (S.done script.old) (machine_at S.program S.fed script.old t.old) }
    requires asked { t.old.asked ≡ Some range }
    requires fits { Answers t.old.course reply.now }
    ensures after { OnOk result (machine_at S.program S.fed script.new t.new
        ≡ after reply.now (machine_at S.program S.fed script.old t.old)) }
    ensures sound { OnOk result (IsSoundTxn (S.done script.new) (machine_at S.program S.fed script.new t.new)) }
{
    match mem::replace(&mut t.course, Course::Over) {
        Course::Reading => take_read(alloc, script, t, reply),
        Course::Laying => take_put(alloc, t, range, reply),
        Course::Refreshing => take_refresh(alloc, t, reply),
        Course::Pushing { other, back } => take_push(alloc, t, range, other, back, reply),
        Course::Committing => {
            take_commit(t, range, reply);
            Ok(())
        }
        Course::Aborting { cause } => take_abort(alloc, t, range, cause, reply),
        _ => unreachable!(),
    }
}

/// The intent that stands in the way is pushed.
fn push_other(
    alloc: Global,
    t: &mut Progress,
    key: &Bytes,
    attempt: AttemptId,
    start: Ts,
    anchor: RangeId,
    back: Back,
) -> Result<(), Memory>
    ensures { OnOk result (t.new
        ≡ pushes (record { key = key.now; attempt = attempt; start = start; anchor = anchor }) back t.old) }
{
    let other = Obstacle {
        key: key.clone_in(alloc)?,
        attempt,
        start,
        anchor,
    };
    go_to(t, Course::Pushing { other, back });
    Ok(())
}

/// A fate is learned.
fn learn(alloc: Global, t: &mut Progress, known: Known) -> Result<(), Memory>
    ensures { OnOk result (t.new ≡ learns known t.old) }
{
    t.fates = learned(alloc, t.fates.as_slice(), known)?;
    Ok(())
}

fn take_read<S: Script>(
    alloc: Global,
    script: &mut S,
    t: &mut Progress,
    reply: &Reply,
) -> Result<(), Memory>
    requires needs { AsksFor ((S.program script.old).need_after (S.fed script.old)) }
    requires fits { Answers Course.Reading reply.now }
    ensures { OnOk result (machine_at S.program S.fed script.new t.new
        ≡ after_read reply.now (machine_at S.program S.fed script.old t.old)) }
{
    match reply {
        Reply::Rows { pairs } => serve(script, t, pairs.as_slice()),
        Reply::Uncertain { key, ts } => {
            let key = key.clone_in(alloc)?;
            retry_for(t, RetryCause::Uncertain { key, ts: *ts });
            Ok(())
        }
        Reply::Unknown {
            key,
            attempt,
            start,
            anchor,
        } => push_other(alloc, t, key, *attempt, *start, *anchor, Back::Read),
        _ => unreachable!(),
    }
}

/// Rows are fed to the script, and their span counts as served.
fn serve<S: Script>(script: &mut S, t: &mut Progress, rows: &[Pair]) -> Result<(), Memory>
    requires { AsksFor ((S.program script.old).need_after (S.fed script.old)) }
    ensures { OnOk result (machine_at S.program S.fed script.new t.new
        ≡ fed_by ((S.program script.old).need_after (S.fed script.old)) rows.now
        (machine_at S.program S.fed script.old t.old)) }
{
    match script.need()? {
        Need::Ask(ask) => {
            script.feed(&ask, rows)?;
            t.served.push(ask)?;
            go_to(t, Course::Reading);
            Ok(())
        }
        Need::Done => unreachable!(),
        Need::Fault(_) => unreachable!(),
    }
}

fn take_put(alloc: Global, t: &mut Progress, range: RangeId, reply: &Reply) -> Result<(), Memory>
    requires fits { Answers Course.Laying reply.now }
    ensures { OnOk result (t.new ≡ after_put range reply.now t.old) }
{
    match reply {
        Reply::Laid { ts } => lay(t, *ts),
        Reply::Intent {
            key,
            attempt,
            start,
            anchor,
        } => push_other(alloc, t, key, *attempt, *start, *anchor, Back::Put),
        Reply::NoQuorum { down } => {
            refuse(t, Refusal::NoQuorum { range, down: *down });
            Ok(())
        }
        _ => unreachable!(),
    }
}

/// A put was laid; a higher timestamp raises the write timestamp.
fn lay(t: &mut Progress, ts: Ts) -> Result<(), Memory>
    ensures { OnOk result (t.new ≡ laid_at ts t.old) }
{
    t.laid.push(ts)?;
    t.at = t.at.later(ts);
    t.put_out = true;
    go_to(t, Course::Laying);
    Ok(())
}

fn take_refresh(alloc: Global, t: &mut Progress, reply: &Reply) -> Result<(), Memory>
    requires fits { Answers Course.Refreshing reply.now }
    ensures { OnOk result (t.new ≡ after_refresh reply.now t.old) }
{
    match reply {
        Reply::Refreshed => count_refreshed(t),
        Reply::Newer { ts } => {
            retry_for(t, RetryCause::NewerWrite { ts: *ts });
            Ok(())
        }
        Reply::Unknown {
            key,
            attempt,
            start,
            anchor,
        } => push_other(alloc, t, key, *attempt, *start, *anchor, Back::Refresh),
        _ => unreachable!(),
    }
}

/// One more span is as it was; a sum that passes its type is want of memory.
fn count_refreshed(t: &mut Progress) -> Result<(), Memory>
    ensures { OnOk result (t.new ≡ refreshed t.old) }
{
    if t.again == usize::MAX {
        return Err(Memory);
    }
    t.again += 1;
    go_to(t, Course::Refreshing);
    Ok(())
}

fn take_push(
    alloc: Global,
    t: &mut Progress,
    range: RangeId,
    other: Obstacle,
    back: Back,
    reply: &Reply,
) -> Result<(), Memory>
    requires fits { Answers (Course.Pushing other back) reply.now }
    ensures { OnOk result (t.new ≡ after_push range other back reply.now t.old) }
{
    match reply {
        Reply::Fate { attempt, fate } => {
            go_back(t, back);
            learn(
                alloc,
                t,
                Known {
                    attempt: *attempt,
                    fate: *fate,
                },
            )
        }
        Reply::Live { attempt } => {
            let key = other.key;
            refuse(
                t,
                Refusal::Conflict {
                    key,
                    other: *attempt,
                },
            );
            Ok(())
        }
        Reply::NoQuorum { down } => {
            refuse(t, Refusal::NoQuorum { range, down: *down });
            Ok(())
        }
        _ => unreachable!(),
    }
}

/// The request that met an obstacle is made again.
fn go_back(t: &mut Progress, back: Back)
    ensures { t.new ≡ goes_to (course_back back) t.old }
{
    match back {
        Back::Read => go_to(t, Course::Reading),
        Back::Put => go_to(t, Course::Laying),
        Back::Refresh => go_to(t, Course::Refreshing),
    }
}

fn take_commit(t: &mut Progress, anchor: RangeId, reply: &Reply)
    requires fits { Answers Course.Committing reply.now }
    ensures { t.new ≡ after_commit anchor reply.now t.old }
{
    match reply {
        Reply::Ended => go_to(t, Course::Answering),
        Reply::Aborted { by } => refuse_decided(t, Refusal::Aborted { by: *by }),
        Reply::Pushed { ts } => retry_for(t, RetryCause::Pushed { ts: *ts }),
        Reply::NoQuorum { down } => refuse(
            t,
            Refusal::NoQuorum {
                range: anchor,
                down: *down,
            },
        ),
        _ => unreachable!(),
    }
}

fn take_abort(
    alloc: Global,
    t: &mut Progress,
    anchor: RangeId,
    cause: RetryCause,
    reply: &Reply,
) -> Result<(), Memory>
    requires fits { Answers (Course.Aborting cause) reply.now }
    ensures { OnOk result (t.new ≡ after_abort anchor cause reply.now t.old) }
{
    match reply {
        Reply::Ended => {
            go_to(t, Course::Retrying { cause });
            let own = Known {
                attempt: t.attempt,
                fate: Fate::Aborted,
            };
            learn(alloc, t, own)
        }
        Reply::NoQuorum { down } => {
            refuse(
                t,
                Refusal::NoQuorum {
                    range: anchor,
                    down: *down,
                },
            );
            Ok(())
        }
        _ => unreachable!(),
    }
}
