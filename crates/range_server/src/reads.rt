//! What a server answers to reads and refreshes.

ghost use Rattle.std.specs.Prelude.{◌≡◌, List, ℕ, IfOk, OnOk, Option, MatchOption, Some, None};
ghost use Rattle.mvcc_range.specs.Follows.{Follows};
ghost use Rattle.range_log.specs.Facts.{lease_of};
ghost use Rattle.range_log.specs.declared.entries.Entry.{Entry};
ghost use Rattle.range_server.specs.Reads.{IsReply, IsRightAt, ReadGives, RefreshGives, read_of, refresh_of, seen_by, seen_with};
ghost use Rattle.range_server.specs.Refusals.{not_holder};

use crate::standing::{Standing, not_holder};
use closed_ts::{by_closure, by_lease};
use mr_base::{AttemptId, Known, Memory, Reply, Span, Ts};
use mvcc_range::{ReadAnswer, RefreshAnswer};
use range_log::Lease;
use std::alloc::Global;

/// By what right a replica serves.
#[derive(Clone, Copy)]
pub enum Right {
    /// Its lease.
    Lease,
    /// What its range has closed.
    Closure,
}

/// What was answered, and by what right where that was to a read or a refresh that could be served.
#[derive(Drop)]
pub struct Handled {
    pub reply: Option<Reply>,
    pub by: Option<Right>,
}

impl Standing {
    /// Answers a read of a span at a timestamp, with an uncertainty limit or none. What is served by the lease
    /// counts as read.
    pub fn read(
        &mut self,
        alloc: Global,
        lease: &Lease,
        attempt: AttemptId,
        span: &Span,
        at: Ts,
        limit: Option<u64>,
        known: &[Known],
    ) -> Result<Handled, Memory>
        requires { (entries : List Entry) → Follows self.old.replica entries → lease_of entries ≡ Some lease.now }
        ensures answer { IfOk result (λ handled. (entries : List Entry) → Follows self.old.replica entries
            → IsReply (λ reply. ReadGives self.old entries (read_of attempt span.now at limit known.now) reply handled.by)
            handled.reply) }
        ensures server { IfOk result (λ handled. self.new
            ≡ record self.old { cache = seen_with handled.reply handled.by span.now at self.old.cache }) }
    {
        let Some(right) = self.right_at(lease, at, limit) else {
            return Ok(not_served(lease));
        };
        match self.replica.read(alloc, attempt, span, at, limit, known)? {
            ReadAnswer::Rows(pairs) => {
                self.remember(right, span, at)?;
                Ok(served(Reply::Rows { pairs }, right))
            }
            ReadAnswer::Uncertain { key, ts } => Ok(served(Reply::Uncertain { key, ts }, right)),
            ReadAnswer::Unknown {
                key,
                attempt,
                start,
                anchor,
            } => Ok(served(
                Reply::Unknown {
                    key,
                    attempt,
                    start,
                    anchor,
                },
                right,
            )),
        }
    }

    /// Answers a refresh of a span from one timestamp to another, as a read at the other without a limit.
    pub fn refresh(
        &mut self,
        alloc: Global,
        lease: &Lease,
        attempt: AttemptId,
        span: &Span,
        from: Ts,
        at: Ts,
        known: &[Known],
    ) -> Result<Handled, Memory>
        requires { (entries : List Entry) → Follows self.old.replica entries → lease_of entries ≡ Some lease.now }
        ensures answer { IfOk result (λ handled. (entries : List Entry) → Follows self.old.replica entries
            → IsReply (λ reply. RefreshGives self.old entries (refresh_of attempt span.now from at known.now) reply handled.by)
            handled.reply) }
        ensures server { IfOk result (λ handled. self.new
            ≡ record self.old { cache = seen_with handled.reply handled.by span.now at self.old.cache }) }
    {
        let Some(right) = self.right_at(lease, at, None) else {
            return Ok(not_served(lease));
        };
        match self.replica.refresh(alloc, attempt, span, from, at, known)? {
            RefreshAnswer::Done => {
                self.remember(right, span, at)?;
                Ok(served(Reply::Refreshed, right))
            }
            RefreshAnswer::NewerWrite { ts } => Ok(served(Reply::Newer { ts }, right)),
            RefreshAnswer::Unknown {
                key,
                attempt,
                start,
                anchor,
            } => Ok(served(
                Reply::Unknown {
                    key,
                    attempt,
                    start,
                    anchor,
                },
                right,
            )),
        }
    }

    /// By what right the server serves at a timestamp with this limit: by its lease before what was closed.
    fn right_at(&self, lease: &Lease, at: Ts, limit: Option<u64>) -> Option<Right>
        requires { (entries : List Entry) → Follows self.now.replica entries → lease_of entries ≡ Some lease.now }
        ensures { (entries : List Entry) → Follows self.now.replica entries → IsRightAt self.now entries at limit result }
    {
        if by_lease(lease, self.node, self.boot, at, limit) {
            return Some(Right::Lease);
        }
        if by_closure(self.replica.closed(), at, limit) {
            return Some(Right::Closure);
        }
        None
    }

    /// What is served by the lease counts as read.
    fn remember(&mut self, right: Right, span: &Span, at: Ts) -> Result<(), Memory>
        ensures { OnOk result (self.new ≡ record self.old { cache = seen_by right span.now at self.old.cache }) }
    {
        if let Right::Lease = right {
            self.cache.add(span, at)?;
            return Ok(());
        }
        Ok(())
    }
}

/// What was served.
fn served(reply: Reply, right: Right) -> Handled
    ensures { result ≡ record { reply = Some reply; by = Some right } }
{
    Handled {
        reply: Some(reply),
        by: Some(right),
    }
}

/// Nothing was served; the reply names the lease.
fn not_served(lease: &Lease) -> Handled
    ensures { result ≡ record { reply = Some (not_holder lease.now); by = None } }
{
    Handled {
        reply: Some(not_holder(lease)),
        by: None,
    }
}
