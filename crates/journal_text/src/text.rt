//! The text of a journal's entries.

ghost use Rattle.std.specs.Prelude.{◌≡◌, ◌++◌, IfOk, OnOk};
ghost use Rattle.journal_text.specs.EntryText.{answer_text, step_text, entry_text, EntryTextStays, TextsStay};

use crate::answers::{add_ack, add_fault, add_lost, add_refusal};
use crate::buffer::TextBuffer;
use crate::modes::Mode;
use crate::states::{
    add_close_refusal, add_flight_line, add_fresh_line, add_lease, add_lease_refusal,
    add_node_line, add_range_line, add_schema, add_sql_refusal,
};
use crate::steps::{
    add_append, add_apply, add_basis, add_begin, add_event, add_fated, add_message, add_place,
    add_retry, add_sent,
};
use journal::JournalEntry;
use mr_base::{Bytes, Memory};
use std::alloc::Global;

/// Adds what every report shows of an entry.
#[tactic(auto, unfolding(crate::specs::EntryText::answer_text))]
fn add_answer(line: &mut TextBuffer, names: &[Bytes], entry: &JournalEntry) -> Result<(), Memory>
    ensures { OnOk result (line.new ≡ line.old ++ answer_text names.now entry.now) }
{
    match entry {
        JournalEntry::Ack { txn, ts, results } => {
            add_ack(line, names, *txn, *ts, results.as_slice())
        }
        JournalEntry::Fault { txn, ts, state } => add_fault(line, names, *txn, *ts, *state),
        JournalEntry::Refuse { txn, why } => add_refusal(line, names, *txn, *why),
        JournalEntry::Lost { txn } => add_lost(line, names, *txn),
        JournalEntry::Lease {
            range,
            seq,
            holder,
            expiration,
        } => add_lease(line, *range, *seq, *holder, *expiration),
        JournalEntry::LeaseRefused { range, why } => add_lease_refusal(line, *range, *why),
        JournalEntry::CloseRefused { range, why } => add_close_refusal(line, *range, *why),
        JournalEntry::SqlRefused { why } => add_sql_refusal(line, why),
        JournalEntry::Schema { ts } => add_schema(line, *ts),
        JournalEntry::ShowRange {
            range,
            seq,
            holder,
            expiration,
            closed,
            log,
        } => add_range_line(line, *range, *seq, *holder, *expiration, *closed, *log),
        JournalEntry::ShowNode {
            node,
            clock,
            running,
            boot,
        } => add_node_line(line, *node, *clock, *running, *boot),
        JournalEntry::ShowFlight { messages } => add_flight_line(line, messages.as_slice()),
        JournalEntry::ShowFresh { node, ranges } => add_fresh_line(line, *node, ranges.as_slice()),
        _ => Ok(()),
    }
}

/// Adds what only a trace shows of an entry.
#[tactic(auto, unfolding(crate::specs::EntryText::step_text))]
fn add_step(line: &mut TextBuffer, names: &[Bytes], entry: &JournalEntry) -> Result<(), Memory>
    ensures { OnOk result (line.new ≡ line.old ++ step_text names.now entry.now) }
{
    match entry {
        JournalEntry::Event { line: number } => add_event(line, *number),
        JournalEntry::Begin {
            txn,
            attempt,
            gateway,
            start,
            limit,
        } => add_begin(line, names, *txn, *attempt, *gateway, *start, *limit),
        JournalEntry::Sent {
            id,
            from,
            to,
            clock,
            body,
        } => add_sent(line, *id, *from, *to, *clock, body),
        JournalEntry::Taken { id } => add_message(line, "taken ", *id),
        JournalEntry::Bounced { id } => add_message(line, "bounced ", *id),
        JournalEntry::Dropped { id } => add_message(line, "dropped ", *id),
        JournalEntry::Append {
            range,
            index,
            entry,
        } => add_append(line, *range, *index, entry),
        JournalEntry::Apply { node, range, count } => add_apply(line, *node, *range, *count),
        JournalEntry::Serve {
            attempt,
            node,
            range,
            span,
            at,
            limit,
            log,
            by,
            fates,
        } => {
            line.add_words("serve ")?;
            add_place(line, *attempt, *node, *range, span)?;
            line.add_words(" ")?;
            add_basis(line, *at, *limit, *log, *by, fates.as_slice())?;
            line.end_line()
        }
        JournalEntry::Fated {
            attempt,
            other,
            fate,
        } => add_fated(line, *attempt, *other, *fate),
        JournalEntry::Retry {
            txn,
            attempt,
            cause,
        } => add_retry(line, names, *txn, *attempt, cause),
        _ => Ok(()),
    }
}

/// Adds what a report of this mode shows of an entry.
#[tactic(auto, unfolding(crate::specs::EntryText::entry_text))]
fn add_entry(
    line: &mut TextBuffer,
    names: &[Bytes],
    entry: &JournalEntry,
    mode: Mode,
) -> Result<(), Memory>
    ensures { OnOk result (line.new ≡ line.old ++ entry_text names.now mode entry.now) }
{
    match mode {
        Mode::Answers => add_answer(line, names, entry),
        Mode::Trace => {
            add_step(line, names, entry)?;
            add_answer(line, names, entry)
        }
        Mode::Summary => Ok(()),
    }
}

/// The lines of an entry, each ended by LF; nothing where a report of this mode doesn't show it. The
/// names are those of the transactions, in the order in which they were read: `TxnId(k)` has the name at
/// place k, from 0 on, and no name where there is none.
pub fn text_of(
    alloc: Global,
    names: &[Bytes],
    entry: &JournalEntry,
    mode: Mode,
) -> Result<Bytes, Memory>
    ensures text { IfOk result (λ text. text ≡ entry_text names.now mode entry.now) }
{
    let mut text = TextBuffer::new(alloc);
    add_entry(&mut text, names, entry, mode)?;
    Ok(text.into_bytes())
}

/// The text of entries stays the same when more transactions are named, as long as these entries name
/// only transactions that had a name before: what was shown need not be shown again.
pub fn texts_stay()
    ensures entry { EntryTextStays }
    ensures texts { TextsStay }
{}
