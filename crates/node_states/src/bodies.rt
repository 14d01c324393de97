//! What the journal shows of a message's body.

ghost use Rattle.std.specs.Prelude.{◌≡◌, IfOk};
ghost use Rattle.journal.specs.declared.entries.JournalEntry.TheVariants as made;
ghost use Rattle.node_states.specs.Ties.{shown_of, shown_reply};
ghost use Rattle.run_words.specs.Askers.{range_asked};

use journal::{JournalEntry, Shown};
use mr_base::{Body, CloneIn, Memory, Message, RangeId, Reply, Request};
use std::alloc::Global;

/// The entry of a message that is sent.
pub fn sent_entry(alloc: Global, m: &Message) -> Result<JournalEntry, Memory>
    ensures { IfOk result (λ e. e ≡ made.Sent m.now.id m.now.from m.now.to m.now.clock (shown_of m.now.body)) }
{
    let body = shown_body(alloc, &m.body)?;
    Ok(JournalEntry::Sent {
        id: m.id,
        from: m.from,
        to: m.to,
        clock: m.clock,
        body,
    })
}

/// A body as it is shown: of rows their number alone.
fn shown_body(alloc: Global, body: &Body) -> Result<Shown, Memory>
    ensures { IfOk result (λ shown. shown ≡ shown_of body.now) }
{
    match body {
        Body::Request(request) => Ok(Shown::Request(request.clone_in(alloc)?)),
        Body::Reply(reply) => shown_answer(alloc, reply),
    }
}

fn shown_answer(alloc: Global, reply: &Reply) -> Result<Shown, Memory>
    ensures { IfOk result (λ shown. shown ≡ shown_reply reply.now) }
{
    match reply {
        Reply::Rows { pairs } => Ok(Shown::Rows {
            count: pairs.len() as u64,
        }),
        _ => Ok(Shown::Reply(reply.clone_in(alloc)?)),
    }
}

/// The range that is asked.
pub fn range_asked(q: &Request) -> RangeId
    ensures { result ≡ range_asked q.now }
{
    match q {
        Request::Read { range, .. } => *range,
        Request::Refresh { range, .. } => *range,
        Request::Put { range, .. } => *range,
        Request::PushReader { range, .. } => *range,
        Request::PushWriter { range, .. } => *range,
        Request::Commit { range, .. } => *range,
        Request::Abort { range, .. } => *range,
        Request::Resolve { range, .. } => *range,
    }
}
