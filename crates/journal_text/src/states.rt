//! The lines of leases, of region statements, and of what a scenario asks to be shown.

ghost use Rattle.std.specs.Prelude.{◌≡◌, ◌++◌, OnOk};
ghost use Rattle.journal_text.specs.StateText.{holding_text, not_holder_text, lease_text, lease_why_text, lease_refusal_text, close_refusal_text, sql_why_text, sql_refusal_text, schema_text, range_line, node_line, flight_line, fresh_line};

use crate::buffer::{Part, TextBuffer};
use crate::parts::{add_no_quorum, add_number_or_dash, add_reading};
use journal::{LeaseWhy, SqlWhy};
use mr_base::{Memory, MsgId, NodeId, RangeId, Reading, Ts};

/// Adds a lease: its sequence, holder and expiration.
fn add_holding(
    line: &mut TextBuffer,
    seq: u32,
    holder: NodeId,
    expiration: u64,
) -> Result<(), Memory>
    ensures { OnOk result (line.new ≡ line.old ++ holding_text seq holder expiration) }
{
    line.add_shown(&seq)?;
    line.add_field(" ", &holder)?;
    line.add_field(" ", &expiration)
}

/// Adds that the lease is another's.
pub(crate) fn add_not_holder(
    line: &mut TextBuffer,
    seq: u32,
    holder: NodeId,
    expiration: u64,
) -> Result<(), Memory>
    ensures { OnOk result (line.new ≡ line.old ++ not_holder_text seq holder expiration) }
{
    line.add_words("notholder ")?;
    add_holding(line, seq, holder, expiration)
}

/// Adds that a range has a new lease.
pub(crate) fn add_lease(
    line: &mut TextBuffer,
    range: RangeId,
    seq: u32,
    holder: NodeId,
    expiration: u64,
) -> Result<(), Memory>
    ensures { OnOk result (line.new ≡ line.old ++ lease_text range seq holder expiration) }
{
    line.add_field("lease ", &range)?;
    line.add_words(" ")?;
    add_holding(line, seq, holder, expiration)?;
    line.end_line()
}

/// Adds why a lease doesn't move, or a timestamp isn't closed.
fn add_lease_why(line: &mut TextBuffer, why: LeaseWhy) -> Result<(), Memory>
    ensures { OnOk result (line.new ≡ line.old ++ lease_why_text why) }
{
    match why {
        LeaseWhy::NotVoter => line.add_words("notvoter"),
        LeaseWhy::Live { expiration } => line.add_field("live ", &expiration),
        LeaseWhy::NotHolder => line.add_words("notholder"),
        LeaseWhy::NoQuorum { down } => add_no_quorum(line, down),
    }
}

/// Adds that a lease doesn't move.
pub(crate) fn add_lease_refusal(
    line: &mut TextBuffer,
    range: RangeId,
    why: LeaseWhy,
) -> Result<(), Memory>
    ensures { OnOk result (line.new ≡ line.old ++ lease_refusal_text range why) }
{
    line.add_field("lease ", &range)?;
    line.add_words(" refused ")?;
    add_lease_why(line, why)?;
    line.end_line()
}

/// Adds that a timestamp isn't closed.
pub(crate) fn add_close_refusal(
    line: &mut TextBuffer,
    range: RangeId,
    why: LeaseWhy,
) -> Result<(), Memory>
    ensures { OnOk result (line.new ≡ line.old ++ close_refusal_text range why) }
{
    line.add_field("close ", &range)?;
    line.add_words(" refused ")?;
    add_lease_why(line, why)?;
    line.end_line()
}

/// Adds why a region statement is refused.
fn add_sql_why(line: &mut TextBuffer, why: &SqlWhy) -> Result<(), Memory>
    ensures { OnOk result (line.new ≡ line.old ++ sql_why_text why.now) }
{
    match why {
        SqlWhy::State(state) => line.add_shown(state),
        SqlWhy::D(number) => line.add_field("D", number),
        SqlWhy::Unplaceable {
            region,
            wanted,
            found,
        } => {
            line.add_words("P1 ")?;
            line.add_bytes(region.as_slice())?;
            line.add_field(" ", wanted)?;
            line.add_field(" ", found)
        }
        SqlWhy::Busy { unfinished, flight } => {
            line.add_field("busy ", unfinished)?;
            line.add_field(" ", flight)
        }
        SqlWhy::Future { wall } => line.add_field("future ", wall),
    }
}

/// Adds that a region statement is refused.
pub(crate) fn add_sql_refusal(line: &mut TextBuffer, why: &SqlWhy) -> Result<(), Memory>
    ensures { OnOk result (line.new ≡ line.old ++ sql_refusal_text why.now) }
{
    line.add_words("sql refused ")?;
    add_sql_why(line, why)?;
    line.end_line()
}

/// Adds that a region statement was accepted while the cluster runs.
pub(crate) fn add_schema(line: &mut TextBuffer, ts: Ts) -> Result<(), Memory>
    ensures { OnOk result (line.new ≡ line.old ++ schema_text ts) }
{
    line.add_field("sql accepted ", &ts)?;
    line.end_line()
}

/// Adds a range with its last lease, its closed timestamp and the length of its log.
pub(crate) fn add_range_line(
    line: &mut TextBuffer,
    range: RangeId,
    seq: u32,
    holder: NodeId,
    expiration: u64,
    closed: Ts,
    log: u64,
) -> Result<(), Memory>
    ensures { OnOk result (line.new ≡ line.old ++ range_line range seq holder expiration closed log) }
{
    line.add_field("range ", &range)?;
    line.add_words(" lease ")?;
    add_holding(line, seq, holder, expiration)?;
    line.add_field(" closed ", &closed)?;
    line.add_field(" log ", &log)?;
    line.end_line()
}

/// Adds a node with its clock, whether it runs, and how often it was started.
pub(crate) fn add_node_line(
    line: &mut TextBuffer,
    node: NodeId,
    clock: Reading,
    running: bool,
    boot: u32,
) -> Result<(), Memory>
    ensures { OnOk result (line.new ≡ line.old ++ node_line node clock running boot) }
{
    line.add_field("node ", &node)?;
    line.add_words(" clock ")?;
    add_reading(line, clock)?;
    line.add_words(if running { " running" } else { " stopped" })?;
    line.add_field(" boot ", &boot)?;
    line.end_line()
}

/// Adds the messages in flight.
pub(crate) fn add_flight_line(line: &mut TextBuffer, messages: &[MsgId]) -> Result<(), Memory>
    ensures { OnOk result (line.new ≡ line.old ++ flight_line messages.now) }
{
    line.add_words("flight ")?;
    if messages.is_empty() {
        line.add_words("-")?;
    } else {
        line.add_joined(" ", messages)?;
    }
    line.end_line()
}

impl Part for (RangeId, Option<u64>) {
    ghost use Rattle.journal_text.specs.StateText.{fresh_range_text};

    ghost text = { fresh_range_text };

    fn add_to(&self, line: &mut TextBuffer) -> Result<(), Memory> {
        let (range, wall) = self;
        line.add_field(" ", range)?;
        line.add_words("=")?;
        add_number_or_dash(line, *wall)
    }
}

/// Adds the freshest walls at which a node's replicas can be read.
pub(crate) fn add_fresh_line(
    line: &mut TextBuffer,
    node: NodeId,
    ranges: &[(RangeId, Option<u64>)],
) -> Result<(), Memory>
    ensures { OnOk result (line.new ≡ line.old ++ fresh_line node ranges.now) }
{
    line.add_field("fresh ", &node)?;
    line.add_all(ranges)?;
    line.end_line()
}
