//! Each kind of entry with its text, and each public call with ample memory. An entry stands in a function
//! by its place in a family of entries.

mod answers;
mod counts;
mod entries;
mod insert;
mod replies;
mod requests;
mod states;
mod steps;

use journal::{JournalEntry, Shown};
use journal_text::{Mode, text_of};
use mr_base::{Bytes, ListOf, Memory, MsgId, NodeId, NodeSet, Reading, Span, Ts};
use std::alloc::Global;

const START: Ts = Ts {
    wall: 1000,
    logical: 0,
    owner: 1,
};

/// Nodes 2 and 64.
fn stopped() -> NodeSet {
    NodeSet::EMPTY.with(NodeId(64)).with(NodeId(2))
}

fn bytes(alloc: Global, text: &[u8]) -> Result<Bytes, Memory> {
    Bytes::from_slice(alloc, text)
}

fn first_key(alloc: Global) -> Result<Bytes, Memory> {
    bytes(alloc, b"\x00\x80\x00\x00\x00\x00\x00\x00\x01")
}

fn span(alloc: Global) -> Result<Span, Memory> {
    let lo = first_key(alloc)?;
    let hi = bytes(alloc, b"\x00\x80\x00\x00\x00\x00\x00\x00\x01\x00")?;
    Ok(Span { lo, hi })
}

/// A message that carries a body.
fn sent(body: Shown) -> JournalEntry {
    JournalEntry::Sent {
        id: MsgId(7),
        from: NodeId(4),
        to: NodeId(1),
        clock: Some(Reading {
            wall: 1010,
            logical: 2,
        }),
        body,
    }
}

/// Transactions named t1 and t2.
fn names(alloc: Global) -> Result<ListOf<Bytes>, Memory> {
    let mut names = ListOf::new(alloc);
    names.push(bytes(alloc, b"t1")?)?;
    names.push(bytes(alloc, b"t2")?)?;
    Ok(names)
}

/// Which entries are shown.
#[derive(Clone, Copy)]
enum Family {
    Answers,
    Entries,
    Insert,
    Leases,
    Refusals,
    Replies,
    Requests,
    Retries,
    Shows,
    Statements,
    Steps,
}

/// The entry at a place of its family.
fn entry(alloc: Global, family: Family, place: usize) -> Result<JournalEntry, Memory> {
    match family {
        Family::Answers => answers::answer(alloc, place),
        Family::Entries => entries::append(alloc, place),
        Family::Insert => insert::step(alloc, place),
        Family::Leases => Ok(states::lease(place)),
        Family::Refusals => Ok(answers::refusal(place)),
        Family::Replies => replies::replied(alloc, place),
        Family::Requests => requests::asked(alloc, place),
        Family::Retries => steps::retry(alloc, place),
        Family::Shows => states::state(alloc, place),
        Family::Statements => states::statement(alloc, place),
        Family::Steps => Ok(steps::step(place)),
    }
}

/// Whether a report of this mode shows the entry at a place so.
fn is_shown(
    alloc: Global,
    mode: Mode,
    family: Family,
    place: usize,
    wanted: &[u8],
) -> Result<bool, Memory> {
    let entry = entry(alloc, family, place)?;
    let names = names(alloc)?;
    let text = text_of(alloc, names.as_slice(), &entry, mode)?;
    Ok(text.as_slice() == wanted)
}

/// How many entries of a family have these texts, up to the first that hasn't.
fn shown(alloc: Global, mode: Mode, family: Family, texts: &[&[u8]]) -> Result<usize, Memory> {
    for (place, wanted) in texts.iter().enumerate() {
        if !is_shown(alloc, mode, family, place, wanted)? {
            return Ok(place);
        }
    }
    Ok(texts.len())
}
