//! A request is handled by the server of its range at a node.

ghost use Rattle.std.specs.Prelude.{◌≡◌, ◌≢◌, ◌≤◌, ◌-◌, ◌+◌, ◌∷◌, ◌++◌, [], Contains, IfOk, MatchOption, OnOk, OnErr, Some, length, take};
ghost use Rattle.journal.specs.declared.entries.JournalEntry.TheVariants as made;
ghost use Rattle.node_states.specs.Appends.{appends};
ghost use Rattle.range_replicas.specs.RangeValue.{replicas};
ghost use Rattle.range_replicas.specs.Sound.{IsSound};
ghost use Rattle.range_server.specs.Scene.{moment};
ghost use Rattle.run_ledger.specs.LedgerValue.{made_all};
ghost use Rattle.run_words.specs.History.{Made};
ghost use Rattle.cluster_state.specs.Answered.{IsAnswered};
ghost use Rattle.cluster_state.specs.Handled.{how_of, serve_of};

use journal::{How, JournalEntry};
use mr_base::{
    AttemptId, CloneIn, Known, ListOf, Memory, NodeId, NodeSet, RangeId, Reading, Reply, Request,
    Settings, Span, Ts,
};
use range_log::RangeLog;
use range_replicas::ReplicatedRange;
use range_server::{Handled, Right};
use std::alloc::Global;

/// The reply to a request, none to a resolve, and the entries that are recorded, oldest first.
#[derive(Drop)]
pub struct Answered {
    pub reply: Option<Reply>,
    pub entries: Vec<JournalEntry>,
}

/// The server of a range at a node handles a request.
pub fn answer_at(
    alloc: Global,
    range: &mut ReplicatedRange,
    node: NodeId,
    clock: Reading,
    settings: &Settings,
    running: NodeSet,
    q: &Request,
) -> Result<Answered, Memory>
    requires sound { IsSound range.old }
    requires replica { Contains (replicas range.old) node }
    ensures { IfOk result (λ answered. IsAnswered node (moment clock settings.now running) q.now range.old range.new
        answered) }
{
    let Some(place) = range.place_of(node) else {
        unreachable!();
    };
    let number = range.number();
    let before = range.log().len();
    let count = range.applied(place);
    let handled = range.handle(alloc, place, q, clock, settings, running)?;
    let appended = entries_past(alloc, number, range.log(), before)?;
    let served = served_entry(alloc, node, q, &handled, count)?;
    let entries = with_served(appended, served)?;
    Ok(Answered {
        reply: handled.reply,
        entries,
    })
}

/// Entries, and behind them the one of what was served, if anything was.
fn with_served(
    entries: Vec<JournalEntry>,
    served: Option<JournalEntry>,
) -> Result<Vec<JournalEntry>, Memory>
    ensures { IfOk result (λ all. MatchOption served (all.items ≡ entries.items)
        (λ e. all.items ≡ entries.items ++ e ∷ [])) }
{
    match served {
        None => Ok(entries),
        Some(served) => {
            let mut all = entries;
            all.push(served)?;
            Ok(all)
        }
    }
}

/// The entries of a log past so many, as the journal has them.
fn entries_past(
    alloc: Global,
    number: RangeId,
    log: &RangeLog,
    before: u64,
) -> Result<Vec<JournalEntry>, Memory>
    requires { before ≤ length log.now.entries }
    ensures { IfOk result (λ entries. made_all entries.items
        ≡ appends number before (take (length log.now.entries - before) log.now.entries)) }
{
    let mut entries = Vec::new(alloc);
    for index in before..log.len() {
        entries.push(JournalEntry::Append {
            range: number,
            index: index + 1,
            entry: log.entry(index + 1).clone_in(alloc)?,
        })?;
    }
    Ok(entries)
}

/// The entry of a read or refresh that was served.
fn served_entry(
    alloc: Global,
    node: NodeId,
    q: &Request,
    handled: &Handled,
    count: u64,
) -> Result<Option<JournalEntry>, Memory>
    ensures { IfOk result (λ served. MatchOption served (serve_of node count q.now handled.now.reply handled.now.by ≡ [])
        (λ e. serve_of node count q.now handled.now.reply handled.now.by ≡ Made e ∷ [])) }
{
    let Some(right) = handled.by else {
        return Ok(None);
    };
    match q {
        Request::Read {
            attempt,
            range,
            span,
            at,
            limit,
            fates,
        } => match &handled.reply {
            Some(Reply::Rows { .. }) => {
                let served = Served {
                    attempt: *attempt,
                    node,
                    range: *range,
                    at: *at,
                    limit: *limit,
                    log: count,
                    by: how_of(right),
                };
                Ok(Some(serve_entry(alloc, served, span, fates)?))
            }
            _ => Ok(None),
        },
        Request::Refresh {
            attempt,
            range,
            span,
            at,
            fates,
            ..
        } => match &handled.reply {
            Some(Reply::Refreshed) => {
                let served = Served {
                    attempt: *attempt,
                    node,
                    range: *range,
                    at: *at,
                    limit: None,
                    log: count,
                    by: how_of(right),
                };
                Ok(Some(serve_entry(alloc, served, span, fates)?))
            }
            _ => Ok(None),
        },
        _ => Ok(None),
    }
}

/// What was served, but for the span and the fates.
#[derive(Clone, Copy)]
struct Served {
    attempt: AttemptId,
    node: NodeId,
    range: RangeId,
    at: Ts,
    limit: Option<u64>,
    log: u64,
    by: How,
}

fn serve_entry(
    alloc: Global,
    s: Served,
    span: &Span,
    fates: &ListOf<Known>,
) -> Result<JournalEntry, Memory>
    ensures { IfOk result (λ e. e ≡ made.Serve s.attempt s.node s.range span.now s.at s.limit s.log s.by fates.now) }
{
    Ok(JournalEntry::Serve {
        attempt: s.attempt,
        node: s.node,
        range: s.range,
        span: span.clone_in(alloc)?,
        at: s.at,
        limit: s.limit,
        log: s.log,
        by: s.by,
        fates: fates.clone_in(alloc)?,
    })
}

fn how_of(right: Right) -> How
    ensures { result ≡ how_of right }
{
    match right {
        Right::Lease => How::Lease,
        Right::Closure => How::Closure,
    }
}
