//! Bodies of messages, as the trace shows them.

ghost use Rattle.std.specs.Prelude.{◌≡◌, ◌++◌, OnOk};
ghost use Rattle.journal_text.specs.MessageText.{address_text, fate_of_text, met_text, put_text, read_text, reader_text, refresh_text, reply_text, request_text, resolve_text, writer_text};

use crate::buffer::{Part, TextBuffer};
use crate::logs::{add_fate, add_fates, add_origin, add_uncertain, add_write};
use crate::parts::{add_no_quorum, add_number_or_dash};
use crate::states::add_not_holder;
use journal::Shown;
use mr_base::{AttemptId, Bytes, Fate, Known, Memory, RangeId, Reply, Request, Span, Ts};

/// Adds the kind of a request, for which attempt it is, and to which range it goes.
fn add_head(
    line: &mut TextBuffer,
    kind: &str,
    attempt: AttemptId,
    range: RangeId,
) -> Result<(), Memory>
    ensures { OnOk result (line.new ≡ line.old ++ (kind.now ++ address_text attempt range)) }
{
    line.add_field(kind, &attempt)?;
    line.add_field(" ", &range)
}

/// Adds what a read asks, behind its address.
fn add_read(
    line: &mut TextBuffer,
    span: &Span,
    at: Ts,
    limit: Option<u64>,
    fates: &[Known],
) -> Result<(), Memory>
    ensures { OnOk result (line.new ≡ line.old ++ read_text span.now at limit fates.now) }
{
    line.add_words(" ")?;
    span.add_to(line)?;
    line.add_field(" at ", &at)?;
    line.add_words(" limit ")?;
    add_number_or_dash(line, limit)?;
    line.add_words(" fates ")?;
    add_fates(line, fates)
}

/// Adds what a refresh asks, behind its address.
fn add_refresh(
    line: &mut TextBuffer,
    span: &Span,
    from: Ts,
    at: Ts,
    fates: &[Known],
) -> Result<(), Memory>
    ensures { OnOk result (line.new ≡ line.old ++ refresh_text span.now from at fates.now) }
{
    line.add_words(" ")?;
    span.add_to(line)?;
    line.add_field(" from ", &from)?;
    line.add_field(" at ", &at)?;
    line.add_words(" fates ")?;
    add_fates(line, fates)
}

/// Adds what a put asks, behind its address.
fn add_put(
    line: &mut TextBuffer,
    start: Ts,
    anchor: RangeId,
    at: Ts,
    key: &Bytes,
    value: &Option<Bytes>,
    fates: &[Known],
) -> Result<(), Memory>
    ensures { OnOk result (line.new ≡ line.old ++ put_text start anchor at key.now value.now fates.now) }
{
    line.add_words(" ")?;
    add_origin(line, start, anchor)?;
    line.add_words(" ")?;
    add_write(line, at, key, value)?;
    line.add_words(" fates ")?;
    add_fates(line, fates)
}

/// Adds whom a reader pushes, behind its address.
fn add_push_of_reader(line: &mut TextBuffer, other: AttemptId, at: Ts) -> Result<(), Memory>
    ensures { OnOk result (line.new ≡ line.old ++ reader_text other at) }
{
    line.add_field(" other ", &other)?;
    line.add_field(" reader ", &at)
}

/// Adds whom a writer pushes, behind its address.
fn add_push_of_writer(
    line: &mut TextBuffer,
    other: AttemptId,
    start: Ts,
    other_start: Ts,
) -> Result<(), Memory>
    ensures { OnOk result (line.new ≡ line.old ++ writer_text other start other_start) }
{
    line.add_field(" other ", &other)?;
    line.add_field(" writer ", &start)?;
    line.add_field(" start ", &other_start)
}

/// Adds what is resolved, behind its address.
fn add_resolve(line: &mut TextBuffer, keys: &[Bytes], fate: Fate) -> Result<(), Memory>
    ensures { OnOk result (line.new ≡ line.old ++ resolve_text keys.now fate) }
{
    line.add_words(" keys ")?;
    line.add_joined(",", keys)?;
    line.add_words(" ")?;
    add_fate(line, fate)
}

/// Adds what a gateway asks.
fn add_request(line: &mut TextBuffer, request: &Request) -> Result<(), Memory>
    ensures { OnOk result (line.new ≡ line.old ++ request_text request.now) }
{
    match request {
        Request::Read {
            attempt,
            range,
            span,
            at,
            limit,
            fates,
        } => {
            add_head(line, "read ", *attempt, *range)?;
            add_read(line, span, *at, *limit, fates.as_slice())
        }
        Request::Refresh {
            attempt,
            range,
            span,
            from,
            at,
            fates,
        } => {
            add_head(line, "refresh ", *attempt, *range)?;
            add_refresh(line, span, *from, *at, fates.as_slice())
        }
        Request::Put {
            attempt,
            range,
            start,
            anchor,
            at,
            key,
            value,
            fates,
        } => {
            add_head(line, "put ", *attempt, *range)?;
            add_put(line, *start, *anchor, *at, key, value, fates.as_slice())
        }
        Request::PushReader {
            attempt,
            range,
            other,
            at,
        } => {
            add_head(line, "push ", *attempt, *range)?;
            add_push_of_reader(line, *other, *at)
        }
        Request::PushWriter {
            attempt,
            range,
            other,
            start,
            other_start,
        } => {
            add_head(line, "push ", *attempt, *range)?;
            add_push_of_writer(line, *other, *start, *other_start)
        }
        Request::Commit { attempt, range, at } => {
            add_head(line, "end ", *attempt, *range)?;
            line.add_field(" commit ", at)
        }
        Request::Abort { attempt, range } => {
            add_head(line, "end ", *attempt, *range)?;
            line.add_words(" abort")
        }
        Request::Resolve {
            attempt,
            range,
            keys,
            fate,
        } => {
            add_head(line, "resolve ", *attempt, *range)?;
            add_resolve(line, keys.as_slice(), *fate)
        }
    }
}

/// Adds that an intent was met, with its key and attempt, and where its record stands.
fn add_met(
    line: &mut TextBuffer,
    how: &str,
    key: &Bytes,
    attempt: AttemptId,
    start: Ts,
    anchor: RangeId,
) -> Result<(), Memory>
    ensures { OnOk result (line.new ≡ line.old ++ (how.now ++ met_text key.now attempt start anchor)) }
{
    line.add_words(how)?;
    key.add_to(line)?;
    line.add_field(" ", &attempt)?;
    line.add_words(" ")?;
    add_origin(line, start, anchor)
}

/// Adds the fate of an attempt.
fn add_fate_of(line: &mut TextBuffer, attempt: AttemptId, fate: Fate) -> Result<(), Memory>
    ensures { OnOk result (line.new ≡ line.old ++ fate_of_text attempt fate) }
{
    line.add_field("fate ", &attempt)?;
    line.add_words(" ")?;
    add_fate(line, fate)
}

/// Adds what the node of a replica answers.
fn add_reply(line: &mut TextBuffer, reply: &Reply) -> Result<(), Memory>
    ensures { OnOk result (line.new ≡ line.old ++ reply_text reply.now) }
{
    match reply {
        Reply::Rows { .. } => line.add_words("rows"),
        Reply::Uncertain { key, ts } => add_uncertain(line, key, *ts),
        Reply::Unknown {
            key,
            attempt,
            start,
            anchor,
        } => add_met(line, "unknown ", key, *attempt, *start, *anchor),
        Reply::Laid { ts } => line.add_field("laid ", ts),
        Reply::Intent {
            key,
            attempt,
            start,
            anchor,
        } => add_met(line, "intent ", key, *attempt, *start, *anchor),
        Reply::Refreshed => line.add_words("refreshed"),
        Reply::Newer { ts } => line.add_field("newer ", ts),
        Reply::Fate { attempt, fate } => add_fate_of(line, *attempt, *fate),
        Reply::Live { attempt } => line.add_field("live ", attempt),
        Reply::Ended => line.add_words("ended"),
        Reply::Aborted { by } => line.add_field("aborted ", by),
        Reply::Pushed { ts } => line.add_field("pushed ", ts),
        Reply::NotHolder {
            seq,
            holder,
            expiration,
        } => add_not_holder(line, *seq, *holder, *expiration),
        Reply::NoQuorum { down } => add_no_quorum(line, *down),
        Reply::Down => line.add_words("down"),
    }
}

/// What the journal keeps of a body: of a reply of rows, their number.
impl Part for Shown {
    ghost use Rattle.journal_text.specs.MessageText.{body_text};

    ghost text = { body_text };

    fn add_to(&self, line: &mut TextBuffer) -> Result<(), Memory> {
        match self {
            Shown::Request(request) => add_request(line, request),
            Shown::Rows { count } => line.add_field("rows ", count),
            Shown::Reply(reply) => add_reply(line, reply),
        }
    }
}
