//! The transaction at its gateway.

ghost use Rattle.std.specs.Prelude.{◌≡◌, [], Some, None, true, IsSome, IfOk, OnOk};

use crate::beginning::begun;
use crate::moves::Move;
use crate::moving::next_move;
use crate::progress::{Course, Progress};
use crate::refusing::{exhaust, time_out, went_out};
use crate::replies::take_reply;
use mr_base::{AttemptId, Kind, Memory, MsgId, RangeId, Reading, Reply, Script, Settings, TxnId};
use std::alloc::Global;
use std::marker::Model;

/// A transaction at its gateway: it reads the spans that its script needs at one timestamp, lays the
/// script's writes, refreshes what it read where a write was laid above that, commits, and resolves what it
/// laid. One request is outstanding at a time. What it is at, and what it does by each reply, is the
/// machine of its specification. After want of memory nothing is said of a transaction, and no further call
/// on it is made. Source: this project's profile, after VanBenschoten et al., SIGMOD 2022, and Taft et al.,
/// SIGMOD 2020.
#[derive(Drop)]
pub struct Txn<S: Script> {
    alloc: Global,
    script: S,
    progress: Progress,
}

impl<S: Script> Model for Txn<S> {
    ghost use Rattle.txn_coord.specs.Machine.{Held};

    ghost Value = { Held S };

    ghost view = { λ t. record { script = t.script; progress = t.progress } };
}

impl<S: Script> Txn<S> {
    ghost use Rattle.txn_coord.specs.Machine.{IsTimed, begun, machine, machine_of, with_progress};
    ghost use Rattle.txn_coord.specs.Moving.{IsAck, Moves, due_of};
    ghost use Rattle.txn_coord.specs.Refusing.{exhausted_at, sent_out, timed_out_at};
    ghost use Rattle.txn_coord.specs.Soundness.{IsOpen, IsSoundTxn};
    ghost use Rattle.txn_coord.specs.Taking.{Answers, after};

    /// A transaction begins with its first attempt, at a reading that its gateway's clock gave to it alone.
    /// Nothing was fed to its script. A sum that passes its type is want of memory, here and below.
    pub fn begin(
        alloc: Global,
        id: TxnId,
        attempt: AttemptId,
        kind: Kind,
        start: Reading,
        s: &Settings,
        script: S,
    ) -> Result<Txn<S>, Memory>
        requires timed { IsTimed kind }
        requires unfed { S.fed script ≡ [] }
        ensures begun { IfOk result (λ t. machine S.program S.fed t
            ≡ machine_of (S.program script) [] (begun id attempt kind start s.now)) }
        ensures sound { IfOk result (λ t. IsSoundTxn (S.done t.script) (machine S.program S.fed t)) }
    {
        let progress = begun(alloc, id, attempt, kind, start, s)?;
        Ok(Txn {
            alloc,
            script,
            progress,
        })
    }

    /// What the transaction does next, by its gateway's clock; a retry alone takes the fresh attempt's number.
    /// No request is outstanding, and no answer was given.
    pub fn next(&mut self, clock: Reading, fresh: AttemptId) -> Result<Move, Memory>
        requires sound { IsSoundTxn (S.done self.old.script) (machine S.program S.fed self.old) }
        requires free { self.old.progress.asked ≡ None }
        requires open { IsOpen self.old.progress.course }
        ensures moves { IfOk result (λ made. Moves (machine S.program S.fed self.old)
            clock fresh made (machine S.program S.fed self.new)) }
        ensures acknowledged { IfOk result (λ made. IsAck made → S.done self.new.script ≡ true) }
        ensures sound { OnOk result (IsSoundTxn (S.done self.new.script) (machine S.program S.fed self.new)) }
    {
        next_move(
            self.alloc,
            &mut self.script,
            &mut self.progress,
            clock,
            fresh,
        )
    }

    /// The reply to the request that is outstanding. It is of a form that a server gives to that request, but
    /// for those on which the next replica is asked.
    pub fn take(&mut self, reply: &Reply) -> Result<(), Memory>
        requires sound { IsSoundTxn (S.done self.old.script) (machine S.program S.fed self.old) }
        requires asked { IsSome self.old.progress.asked }
        requires fits { Answers self.old.progress.course reply.now }
        ensures after { OnOk result (machine S.program S.fed self.new
            ≡ after reply.now (machine S.program S.fed self.old)) }
        ensures sound { OnOk result (IsSoundTxn (S.done self.new.script) (machine S.program S.fed self.new)) }
    {
        let Some(range) = self.progress.asked else {
            unreachable!();
        };
        take_reply(
            self.alloc,
            &mut self.script,
            &mut self.progress,
            range,
            reply,
        )
    }

    /// The request that is outstanding went out as a message.
    pub fn went_out(&mut self)
        requires sound { IsSoundTxn (S.done self.old.script) (machine S.program S.fed self.old) }
        requires asked { IsSome self.old.progress.asked }
        ensures script { self.new.script ≡ self.old.script }
        ensures out { self.new.progress ≡ sent_out self.old.progress }
        ensures sound { IsSoundTxn (S.done self.new.script) (machine S.program S.fed self.new) }
    {
        went_out(&mut self.progress);
    }

    /// All replicas of the range were asked what is outstanding, and none serves it.
    pub fn exhausted(&mut self, range: RangeId)
        requires sound { IsSoundTxn (S.done self.old.script) (machine S.program S.fed self.old) }
        requires asked { self.old.progress.asked ≡ Some range }
        ensures script { self.new.script ≡ self.old.script }
        ensures refused { self.new.progress ≡ exhausted_at range self.old.progress }
        ensures sound { IsSoundTxn (S.done self.new.script) (machine S.program S.fed self.new) }
    {
        exhaust(&mut self.progress, range);
    }

    /// No reply came in time to the request that is outstanding, which went out as this message.
    pub fn timed_out(&mut self, request: MsgId)
        requires sound { IsSoundTxn (S.done self.old.script) (machine S.program S.fed self.old) }
        requires asked { IsSome self.old.progress.asked }
        ensures script { self.new.script ≡ self.old.script }
        ensures refused { self.new.progress ≡ timed_out_at request self.old.progress }
        ensures sound { IsSoundTxn (S.done self.new.script) (machine S.program S.fed self.new) }
    {
        time_out(&mut self.progress, request);
    }

    /// The wall (milliseconds) for which the transaction waits, if its answer stands.
    pub fn due(&self) -> Option<u64>
        ensures { result ≡ due_of self.now.progress }
    {
        match &self.progress.course {
            Course::Answering => Some(self.progress.at.wall),
            Course::Faulting { .. } => Some(self.progress.read.wall),
            _ => None,
        }
    }

    /// How far the transaction has come.
    pub fn progress(&self) -> &Progress
        ensures { result.now ≡ self.now.progress }
    {
        &self.progress
    }

    /// The script, as it stands.
    pub fn script(&self) -> &S
        ensures { result.now ≡ self.now.script }
    {
        &self.script
    }
}
