//! The lines that only a trace shows.

ghost use Rattle.std.specs.Prelude.{◌≡◌, ◌++◌, OnOk};
ghost use Rattle.journal_text.specs.StepText.{clock_text, event_line, begin_line, sent_line, message_line, append_line, apply_line, place_text, basis_text, fated_line, retry_line};

use crate::buffer::{Part, TextBuffer};
use crate::logs::{add_cause, add_fate, add_fates};
use crate::parts::{add_name, add_number_or_dash, add_reading};
use journal::{How, Shown};
use mr_base::{
    AttemptId, Bytes, Fate, Known, Memory, MsgId, NodeId, RangeId, Reading, Span, Ts, TxnId,
};
use range_log::{Entry, RetryCause};

/// Adds that a line of the scenario begins.
pub(crate) fn add_event(line: &mut TextBuffer, number: u32) -> Result<(), Memory>
    ensures { OnOk result (line.new ≡ line.old ++ event_line number) }
{
    line.add_field("event ", &number)?;
    line.end_line()
}

/// Adds that a transaction begins.
pub(crate) fn add_begin(
    line: &mut TextBuffer,
    names: &[Bytes],
    txn: TxnId,
    attempt: AttemptId,
    gateway: NodeId,
    start: Ts,
    limit: Option<u64>,
) -> Result<(), Memory>
    ensures { OnOk result (line.new ≡ line.old ++ begin_line names.now txn attempt gateway start limit) }
{
    line.add_words("begin ")?;
    add_name(line, names, txn)?;
    line.add_field(" ", &attempt)?;
    line.add_field(" ", &gateway)?;
    line.add_field(" start ", &start)?;
    line.add_words(" limit ")?;
    add_number_or_dash(line, limit)?;
    line.end_line()
}

/// Adds the clock of a message, or `-` where it has none.
fn add_clock(line: &mut TextBuffer, clock: Option<Reading>) -> Result<(), Memory>
    ensures { OnOk result (line.new ≡ line.old ++ clock_text clock) }
{
    match clock {
        Some(reading) => add_reading(line, reading),
        None => line.add_words("-"),
    }
}

/// Adds that a message is sent.
pub(crate) fn add_sent(
    line: &mut TextBuffer,
    id: MsgId,
    from: NodeId,
    to: NodeId,
    clock: Option<Reading>,
    body: &Shown,
) -> Result<(), Memory>
    ensures { OnOk result (line.new ≡ line.old ++ sent_line id from to clock body.now) }
{
    line.add_field("sent ", &id)?;
    line.add_field(" ", &from)?;
    line.add_field(" ", &to)?;
    line.add_words(" clock ")?;
    add_clock(line, clock)?;
    line.add_words(" ")?;
    body.add_to(line)?;
    line.end_line()
}

/// Adds what becomes of a message.
pub(crate) fn add_message(line: &mut TextBuffer, became: &str, id: MsgId) -> Result<(), Memory>
    ensures { OnOk result (line.new ≡ line.old ++ message_line became.now id) }
{
    line.add_field(became, &id)?;
    line.end_line()
}

/// Adds that an entry is added to the log of a range.
pub(crate) fn add_append(
    line: &mut TextBuffer,
    range: RangeId,
    index: u64,
    entry: &Entry,
) -> Result<(), Memory>
    ensures { OnOk result (line.new ≡ line.old ++ append_line range index entry.now) }
{
    line.add_field("append ", &range)?;
    line.add_field(" ", &index)?;
    line.add_words(" ")?;
    entry.add_to(line)?;
    line.end_line()
}

/// Adds how many entries another replica has applied now.
pub(crate) fn add_apply(
    line: &mut TextBuffer,
    node: NodeId,
    range: RangeId,
    count: u64,
) -> Result<(), Memory>
    ensures { OnOk result (line.new ≡ line.old ++ apply_line node range count) }
{
    line.add_field("apply ", &node)?;
    line.add_field(" ", &range)?;
    line.add_field(" ", &count)?;
    line.end_line()
}

impl Part for How {
    ghost use Rattle.journal_text.specs.StepText.{how_text};

    ghost text = { how_text };

    fn add_to(&self, line: &mut TextBuffer) -> Result<(), Memory> {
        match self {
            How::Lease => line.add_words("lease"),
            How::Closure => line.add_words("closure"),
        }
    }
}

/// Adds to which attempt a replica serves which span.
pub(crate) fn add_place(
    line: &mut TextBuffer,
    attempt: AttemptId,
    node: NodeId,
    range: RangeId,
    span: &Span,
) -> Result<(), Memory>
    ensures { OnOk result (line.new ≡ line.old ++ place_text attempt node range span.now) }
{
    line.add_shown(&attempt)?;
    line.add_field(" ", &node)?;
    line.add_field(" ", &range)?;
    line.add_words(" ")?;
    span.add_to(line)
}

/// Adds as of when a span is served, from how much of the log, by what right, and with which fates.
pub(crate) fn add_basis(
    line: &mut TextBuffer,
    at: Ts,
    limit: Option<u64>,
    log: u64,
    by: How,
    fates: &[Known],
) -> Result<(), Memory>
    ensures { OnOk result (line.new ≡ line.old ++ basis_text at limit log by fates.now) }
{
    line.add_field("at ", &at)?;
    line.add_words(" limit ")?;
    add_number_or_dash(line, limit)?;
    line.add_field(" log ", &log)?;
    line.add_words(" by ")?;
    by.add_to(line)?;
    line.add_words(" fates ")?;
    add_fates(line, fates)
}

/// Adds that an attempt learns a fate.
pub(crate) fn add_fated(
    line: &mut TextBuffer,
    attempt: AttemptId,
    other: AttemptId,
    fate: Fate,
) -> Result<(), Memory>
    ensures { OnOk result (line.new ≡ line.old ++ fated_line attempt other fate) }
{
    line.add_field("fated ", &attempt)?;
    line.add_field(" ", &other)?;
    line.add_words(" ")?;
    add_fate(line, fate)?;
    line.end_line()
}

/// Adds that a transaction reads again.
pub(crate) fn add_retry(
    line: &mut TextBuffer,
    names: &[Bytes],
    txn: TxnId,
    attempt: AttemptId,
    cause: &RetryCause,
) -> Result<(), Memory>
    ensures { OnOk result (line.new ≡ line.old ++ retry_line names.now txn attempt cause.now) }
{
    line.add_words("retry ")?;
    add_name(line, names, txn)?;
    line.add_field(" ", &attempt)?;
    line.add_words(" ")?;
    add_cause(line, cause)?;
    line.end_line()
}
