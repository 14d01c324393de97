//! Parts of the trace that tell of keys, fates and log entries.

ghost use Rattle.std.specs.Prelude.{◌≡◌, ◌<◌, ◌++◌, OnOk};
ghost use Rattle.journal_text.specs.LogText.{cause_text, fate_parts, fate_text, fates_text, hex_digit, load_text, log_lease_text, origin_text, put_entry_text, record_text, resolve_entry_text, state_text, uncertain_text, value_text, write_text};

use crate::buffer::{Part, TextBuffer};
use mr_base::{AttemptId, Bytes, Fate, Known, Memory, RangeId, Span, Ts};
use range_log::{Entry, Lease, RetryCause, TxnState};

/// The digit of a number below 16.
fn hex_digit(number: u8) -> u8
    requires { number < 16 }
    ensures { result ≡ hex_digit number }
{
    if number < 10 {
        b'0' + number
    } else {
        b'a' + (number - 10)
    }
}

/// Bytes stand in a line in hexadecimal.
impl Part for Bytes {
    ghost use Rattle.journal_text.specs.LogText.{hex_text};

    ghost text = { hex_text };

    fn add_to(&self, line: &mut TextBuffer) -> Result<(), Memory> {
        for byte in self.as_slice() {
            line.add_bytes(&[hex_digit(*byte / 16), hex_digit(*byte % 16)])?;
        }
        Ok(())
    }
}

impl Part for Span {
    ghost use Rattle.journal_text.specs.LogText.{span_text};

    ghost text = { span_text };

    fn add_to(&self, line: &mut TextBuffer) -> Result<(), Memory> {
        line.add_words("[")?;
        self.lo.add_to(line)?;
        line.add_words(",")?;
        self.hi.add_to(line)?;
        line.add_words(")")
    }
}

/// Adds a value, or `-` for a deletion.
fn add_value(line: &mut TextBuffer, value: &Option<Bytes>) -> Result<(), Memory>
    ensures { OnOk result (line.new ≡ line.old ++ value_text value.now) }
{
    match value {
        Some(value) => value.add_to(line),
        None => line.add_words("-"),
    }
}

/// Adds a fate, with `between` before its timestamp.
fn add_fate_parts(line: &mut TextBuffer, between: &str, fate: Fate) -> Result<(), Memory>
    ensures { OnOk result (line.new ≡ line.old ++ fate_parts between.now fate) }
{
    match fate {
        Fate::Committed(ts) => {
            line.add_words("committed")?;
            line.add_field(between, &ts)
        }
        Fate::Aborted => line.add_words("aborted"),
        Fate::Pushed(ts) => {
            line.add_words("pushed")?;
            line.add_field(between, &ts)
        }
    }
}

/// Adds a fate.
pub(crate) fn add_fate(line: &mut TextBuffer, fate: Fate) -> Result<(), Memory>
    ensures { OnOk result (line.new ≡ line.old ++ fate_text fate) }
{
    add_fate_parts(line, " ", fate)
}

impl Part for Known {
    ghost use Rattle.journal_text.specs.LogText.{known_text};

    ghost text = { known_text };

    fn add_to(&self, line: &mut TextBuffer) -> Result<(), Memory> {
        line.add_shown(&self.attempt)?;
        line.add_words(":")?;
        add_fate_parts(line, ":", self.fate)
    }
}

/// Adds the fates that a request carries.
pub(crate) fn add_fates(line: &mut TextBuffer, fates: &[Known]) -> Result<(), Memory>
    ensures { OnOk result (line.new ≡ line.old ++ fates_text fates.now) }
{
    if fates.is_empty() {
        line.add_words("-")
    } else {
        line.add_joined(",", fates)
    }
}

/// Adds a version within the uncertainty limit.
pub(crate) fn add_uncertain(line: &mut TextBuffer, key: &Bytes, ts: Ts) -> Result<(), Memory>
    ensures { OnOk result (line.new ≡ line.old ++ uncertain_text key.now ts) }
{
    line.add_words("uncertain ")?;
    key.add_to(line)?;
    line.add_field(" ", &ts)
}

/// Adds why a transaction reads again.
pub(crate) fn add_cause(line: &mut TextBuffer, cause: &RetryCause) -> Result<(), Memory>
    ensures { OnOk result (line.new ≡ line.old ++ cause_text cause.now) }
{
    match cause {
        RetryCause::Uncertain { key, ts } => add_uncertain(line, key, *ts),
        RetryCause::NewerWrite { ts } => line.add_field("newer ", ts),
        RetryCause::Pushed { ts } => line.add_field("pushed ", ts),
    }
}

/// Adds when the transaction of an intent began, and where the record of its attempt stands.
pub(crate) fn add_origin(line: &mut TextBuffer, start: Ts, anchor: RangeId) -> Result<(), Memory>
    ensures { OnOk result (line.new ≡ line.old ++ origin_text start anchor) }
{
    line.add_field("start ", &start)?;
    line.add_field(" anchor ", &anchor)
}

/// Adds what an intent writes.
pub(crate) fn add_write(
    line: &mut TextBuffer,
    ts: Ts,
    key: &Bytes,
    value: &Option<Bytes>,
) -> Result<(), Memory>
    ensures { OnOk result (line.new ≡ line.old ++ write_text ts key.now value.now) }
{
    line.add_field("at ", &ts)?;
    line.add_words(" key ")?;
    key.add_to(line)?;
    line.add_words(" value ")?;
    add_value(line, value)
}

/// Adds a lease as it stands in a log.
fn add_log_lease(line: &mut TextBuffer, lease: &Lease) -> Result<(), Memory>
    ensures { OnOk result (line.new ≡ line.old ++ log_lease_text lease.now) }
{
    line.add_field("lease ", &lease.seq)?;
    line.add_field(" ", &lease.holder)?;
    line.add_field(" boot ", &lease.boot)?;
    line.add_field(" expires ", &lease.expiration)?;
    line.add_field(" low ", &lease.low)
}

/// Adds the state of an attempt.
fn add_state(line: &mut TextBuffer, state: TxnState) -> Result<(), Memory>
    ensures { OnOk result (line.new ≡ line.old ++ state_text state) }
{
    match state {
        TxnState::Pending(ts) => line.add_field("pending ", &ts),
        TxnState::Committed(ts) => line.add_field("committed ", &ts),
        TxnState::Aborted(by) => line.add_field("aborted ", &by),
    }
}

/// Adds the entry of an intent.
fn add_put_entry(
    line: &mut TextBuffer,
    attempt: AttemptId,
    start: Ts,
    anchor: RangeId,
    ts: Ts,
    key: &Bytes,
    value: &Option<Bytes>,
) -> Result<(), Memory>
    ensures { OnOk result (line.new ≡ line.old ++ put_entry_text attempt start anchor ts key.now value.now) }
{
    line.add_field("put ", &attempt)?;
    line.add_words(" ")?;
    add_origin(line, start, anchor)?;
    line.add_words(" ")?;
    add_write(line, ts, key, value)
}

/// Adds the entry by which an intent is resolved.
fn add_resolve_entry(
    line: &mut TextBuffer,
    attempt: AttemptId,
    key: &Bytes,
    fate: Fate,
) -> Result<(), Memory>
    ensures { OnOk result (line.new ≡ line.old ++ resolve_entry_text attempt key.now fate) }
{
    line.add_field("resolve ", &attempt)?;
    line.add_words(" key ")?;
    key.add_to(line)?;
    line.add_words(" ")?;
    add_fate(line, fate)
}

/// Adds the record of an attempt.
fn add_record(line: &mut TextBuffer, attempt: AttemptId, state: TxnState) -> Result<(), Memory>
    ensures { OnOk result (line.new ≡ line.old ++ record_text attempt state) }
{
    line.add_field("record ", &attempt)?;
    line.add_words(" ")?;
    add_state(line, state)
}

/// Adds a pair that a range holds from its making on.
fn add_load(line: &mut TextBuffer, ts: Ts, key: &Bytes, value: &Bytes) -> Result<(), Memory>
    ensures { OnOk result (line.new ≡ line.old ++ load_text ts key.now value.now) }
{
    line.add_field("load ", &ts)?;
    line.add_words(" key ")?;
    key.add_to(line)?;
    line.add_words(" value ")?;
    value.add_to(line)
}

/// An entry of a range's log.
impl Part for Entry {
    ghost use Rattle.journal_text.specs.LogText.{log_entry_text};

    ghost text = { log_entry_text };

    fn add_to(&self, line: &mut TextBuffer) -> Result<(), Memory> {
        match self {
            Entry::Lease(lease) => add_log_lease(line, lease),
            Entry::Put {
                attempt,
                start,
                anchor,
                ts,
                key,
                value,
            } => add_put_entry(line, *attempt, *start, *anchor, *ts, key, value),
            Entry::Resolve { attempt, key, fate } => add_resolve_entry(line, *attempt, key, *fate),
            Entry::State { attempt, state } => add_record(line, *attempt, *state),
            Entry::Close(ts) => line.add_field("close ", ts),
            Entry::Load { ts, key, value } => add_load(line, *ts, key, value),
        }
    }
}
