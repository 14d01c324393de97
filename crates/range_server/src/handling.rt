//! What a server does with each request.

ghost use Rattle.std.specs.Prelude.{◌≡◌, IfOk, IsSome, Some, None};
ghost use Rattle.range_log.specs.Facts.{lease_of};
ghost use Rattle.range_server.specs.Handling.{IsHandled};
ghost use Rattle.range_server.specs.Scene.{IsBeside, applied_by, scene};

use crate::reads::Handled;
use crate::standing::{Moment, Standing};
use mr_base::{Memory, Reply, Request};
use mvcc_range::Intent;
use range_log::RangeLog;
use std::alloc::Global;

impl Standing {
    /// Handles a request.
    pub fn handle(
        &mut self,
        alloc: Global,
        q: &Request,
        now: Moment,
        log: &mut RangeLog,
    ) -> Result<Handled, Memory>
        requires beside { IsBeside self.old log.old.entries }
        requires leased { IsSome (lease_of (applied_by self.old log.old.entries)) }
        ensures { IfOk result (λ handled. IsHandled (scene self.old log.old now) q.now handled log.new self.new) }
    {
        let Some(lease) = self.replica.lease() else {
            unreachable!();
        };
        match q {
            Request::Read {
                attempt,
                span,
                at,
                limit,
                fates,
                ..
            } => self.read(alloc, &lease, *attempt, span, *at, *limit, fates.as_slice()),
            Request::Refresh {
                attempt,
                span,
                from,
                at,
                fates,
                ..
            } => self.refresh(alloc, &lease, *attempt, span, *from, *at, fates.as_slice()),
            Request::Put {
                attempt,
                start,
                anchor,
                at,
                key,
                value,
                fates,
                ..
            } => {
                let asked = Intent {
                    attempt: *attempt,
                    start: *start,
                    anchor: *anchor,
                    ts: *at,
                };
                let known = fates.as_slice();
                let reply = self.put(alloc, &lease, asked, key, value, known, now, log)?;
                Ok(Handled {
                    reply: Some(reply),
                    by: None,
                })
            }
            Request::PushReader { other, at, .. } => {
                let reply = self.push_reader(&lease, *other, *at, now, log)?;
                Ok(Handled {
                    reply: Some(reply),
                    by: None,
                })
            }
            Request::PushWriter {
                attempt,
                other,
                start,
                other_start,
                ..
            } => {
                let reply = self.push_writer(
                    &lease,
                    *attempt,
                    *other,
                    *start,
                    *other_start,
                    now,
                    log,
                )?;
                Ok(Handled {
                    reply: Some(reply),
                    by: None,
                })
            }
            Request::Commit { attempt, at, .. } => {
                let reply = self.commit(&lease, *attempt, *at, now, log)?;
                Ok(Handled {
                    reply: Some(reply),
                    by: None,
                })
            }
            Request::Abort { attempt, .. } => {
                let reply = self.abort(&lease, *attempt, now, log)?;
                Ok(Handled {
                    reply: Some(reply),
                    by: None,
                })
            }
            Request::Resolve {
                attempt,
                keys,
                fate,
                ..
            } => {
                self.resolve(alloc, &lease, *attempt, keys.as_slice(), *fate, now, log)?;
                Ok(Handled {
                    reply: None,
                    by: None,
                })
            }
        }
    }
}
