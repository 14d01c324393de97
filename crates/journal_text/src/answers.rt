//! The lines of answers.

ghost use Rattle.std.specs.Prelude.{◌≡◌, ◌++◌, OnOk};
ghost use Rattle.journal_text.specs.AnswerText.{ack_text, fault_text, refusal_text, lost_text, why_text};

use crate::buffer::{Part, TextBuffer};
use crate::parts::{add_name, add_nodes};
use journal::Why;
use mr_base::{Bytes, Memory, Row, SqlState, StatementResult, Ts, TxnId, Verb};

impl Part for Verb {
    ghost use Rattle.journal_text.specs.AnswerText.{verb_text};

    ghost text = { verb_text };

    fn add_to(&self, line: &mut TextBuffer) -> Result<(), Memory> {
        match self {
            Verb::Insert => line.add_words("insert"),
            Verb::Update => line.add_words("update"),
            Verb::Delete => line.add_words("delete"),
            Verb::Select => line.add_words("select"),
        }
    }
}

impl Part for Row {
    ghost use Rattle.journal_text.specs.AnswerText.{row_text};

    ghost text = { row_text };

    fn add_to(&self, line: &mut TextBuffer) -> Result<(), Memory> {
        line.add_words("  ")?;
        line.add_joined(", ", self.as_slice())?;
        line.end_line()
    }
}

impl Part for StatementResult {
    ghost use Rattle.journal_text.specs.AnswerText.{result_text};

    ghost text = { result_text };

    fn add_to(&self, line: &mut TextBuffer) -> Result<(), Memory> {
        line.add_words("= ")?;
        self.verb.add_to(line)?;
        line.add_field(" ", &self.count)?;
        line.end_line()?;
        line.add_all(self.rows.as_slice())
    }
}

/// Adds an acknowledgement with the answers of the statements.
pub(crate) fn add_ack(
    line: &mut TextBuffer,
    names: &[Bytes],
    txn: TxnId,
    ts: Ts,
    results: &[StatementResult],
) -> Result<(), Memory>
    ensures { OnOk result (line.new ≡ line.old ++ ack_text names.now txn ts results.now) }
{
    line.add_words("ack ")?;
    add_name(line, names, txn)?;
    line.add_field(" ", &ts)?;
    line.end_line()?;
    line.add_all(results)
}

/// Adds a fault of SQL.
pub(crate) fn add_fault(
    line: &mut TextBuffer,
    names: &[Bytes],
    txn: TxnId,
    ts: Ts,
    state: SqlState,
) -> Result<(), Memory>
    ensures { OnOk result (line.new ≡ line.old ++ fault_text names.now txn ts state) }
{
    line.add_words("fault ")?;
    add_name(line, names, txn)?;
    line.add_field(" ", &ts)?;
    line.add_field(" ", &state)?;
    line.end_line()
}

/// Adds why a transaction is refused.
fn add_why(line: &mut TextBuffer, why: Why) -> Result<(), Memory>
    ensures { OnOk result (line.new ≡ line.old ++ why_text why) }
{
    match why {
        Why::Conflict { other } => line.add_field("40001 conflict ", &other),
        Why::Aborted { by } => line.add_field("40001 aborted ", &by),
        Why::Retries => line.add_words("40001 retries"),
        Why::NoLease { range } => line.add_field("nolease ", &range),
        Why::NoQuorum { range, down } => {
            line.add_field("noquorum ", &range)?;
            line.add_words(" ")?;
            add_nodes(line, down)
        }
        Why::Schema { ts } => line.add_field("schema ", &ts),
        Why::Ambiguous { request } => line.add_field("40003 ", &request),
        Why::Timeout { request } => line.add_field("timeout ", &request),
        Why::Stale { range } => line.add_field("stale ", &range),
    }
}

/// Adds a refusal.
pub(crate) fn add_refusal(
    line: &mut TextBuffer,
    names: &[Bytes],
    txn: TxnId,
    why: Why,
) -> Result<(), Memory>
    ensures { OnOk result (line.new ≡ line.old ++ refusal_text names.now txn why) }
{
    line.add_words("refuse ")?;
    add_name(line, names, txn)?;
    line.add_words(" ")?;
    add_why(line, why)?;
    line.end_line()
}

/// Adds that a transaction's gateway stopped before it was answered.
pub(crate) fn add_lost(line: &mut TextBuffer, names: &[Bytes], txn: TxnId) -> Result<(), Memory>
    ensures { OnOk result (line.new ≡ line.old ++ lost_text names.now txn) }
{
    line.add_words("lost ")?;
    add_name(line, names, txn)?;
    line.end_line()
}
