//! Parts of lines: names, values of columns, numbers, and lists of nodes.

ghost use Rattle.std.specs.Prelude.{◌≡◌, ◌++◌, IfOk, OnOk};
ghost use Rattle.journal.specs.Names.{name_of};
ghost use Rattle.journal_text.specs.Text.{members, no_quorum_text, nodes_text, number_or_dash, quoted, reading_text};

use crate::buffer::{Part, TextBuffer};
use mr_base::{Bytes, Datum, Memory, MsgId, NodeId, NodeSet, Reading, TxnId};
use std::alloc::Global;

impl Part for Datum {
    ghost use Rattle.journal_text.specs.Text.{datum_text};

    ghost text = { datum_text };

    fn add_to(&self, line: &mut TextBuffer) -> Result<(), Memory> {
        match self {
            Datum::Int(number) => line.add_shown(number),
            Datum::Text(bytes) => add_quoted(line, bytes.as_slice()),
            Datum::Bool(true) => line.add_words("true"),
            Datum::Bool(false) => line.add_words("false"),
        }
    }
}

/// Adds a text in single quotes, with each quote in it doubled.
fn add_quoted(line: &mut TextBuffer, bytes: &[u8]) -> Result<(), Memory>
    ensures { OnOk result (line.new ≡ line.old ++ quoted bytes.now) }
{
    line.add_words("'")?;
    for byte in bytes {
        if *byte == b'\'' {
            line.add_words("''")?;
        } else {
            line.add_bytes(&[*byte])?;
        }
    }
    line.add_words("'")
}

impl Part for NodeId {
    ghost use Rattle.mr_base.specs.Ids.{node_text};

    ghost text = { node_text };

    fn add_to(&self, line: &mut TextBuffer) -> Result<(), Memory> {
        line.add_shown(self)
    }
}

impl Part for MsgId {
    ghost use Rattle.mr_base.specs.Ids.{message_text};

    ghost text = { message_text };

    fn add_to(&self, line: &mut TextBuffer) -> Result<(), Memory> {
        line.add_shown(self)
    }
}

/// The nodes of a set, in number order.
#[tactic(auto, unfolding(crate::specs::Text::members, crate::specs::Text::members_to))]
fn members(alloc: Global, set: NodeSet) -> Result<Vec<NodeId>, Memory>
    ensures { IfOk result (λ nodes. nodes.items ≡ members set) }
{
    let mut nodes = Vec::new(alloc);
    for index in 0..64 {
        let node = NodeId(index + 1);
        if set.has(node) {
            nodes.push(node)?;
        }
    }
    Ok(nodes)
}

/// Adds the nodes of a set, in number order, with commas between them.
pub(crate) fn add_nodes(line: &mut TextBuffer, set: NodeSet) -> Result<(), Memory>
    ensures { OnOk result (line.new ≡ line.old ++ nodes_text set) }
{
    let nodes = members(line.alloc(), set)?;
    line.add_joined(",", nodes.as_slice())
}

/// Adds the nodes that are missing for a quorum.
pub(crate) fn add_no_quorum(line: &mut TextBuffer, down: NodeSet) -> Result<(), Memory>
    ensures { OnOk result (line.new ≡ line.old ++ no_quorum_text down) }
{
    line.add_words("noquorum ")?;
    add_nodes(line, down)
}

/// Adds the name of a transaction.
pub(crate) fn add_name(line: &mut TextBuffer, names: &[Bytes], txn: TxnId) -> Result<(), Memory>
    ensures { OnOk result (line.new ≡ line.old ++ name_of names.now txn) }
{
    match names.get(txn.0 as usize) {
        Some(name) => line.add_bytes(name.as_slice()),
        None => Ok(()),
    }
}

/// Adds a reading of a clock.
pub(crate) fn add_reading(line: &mut TextBuffer, reading: Reading) -> Result<(), Memory>
    ensures { OnOk result (line.new ≡ line.old ++ reading_text reading) }
{
    line.add_shown(&reading.wall)?;
    line.add_field(".", &reading.logical)
}

/// Adds a number, or `-` where there is none.
pub(crate) fn add_number_or_dash(line: &mut TextBuffer, number: Option<u64>) -> Result<(), Memory>
    ensures { OnOk result (line.new ≡ line.old ++ number_or_dash number) }
{
    match number {
        Some(number) => line.add_shown(&number),
        None => line.add_words("-"),
    }
}
