//! Replies, and whether they fit what is asked.

ghost use Rattle.std.specs.Prelude.{IsTrue};
ghost use Rattle.txn_coord.specs.Taking.{Answers};

use mr_base::{AttemptId, Bytes, Fate, ListOf, Memory, NodeSet, Pair, RangeId, Reply, Ts};
use range_log::RetryCause;
use std::alloc::Global;
use txn_coord::{Back, Course, Obstacle};

/// A reply, with one key and value for all.
#[derive(Clone, Copy)]
pub enum Said {
    Rows,
    Uncertain(Ts),
    Unknown(u32),
    Laid(Ts),
    Intent(u32),
    Refreshed,
    Newer(Ts),
    Fate(u32, Fate),
    Live(u32),
    Ended,
    Aborted(u32),
    Pushed(Ts),
    NoQuorum,
}

pub fn ts(wall: u64, logical: u64, owner: u32) -> Ts {
    Ts {
        wall,
        logical,
        owner,
    }
}

fn key(alloc: Global) -> Result<Bytes, Memory> {
    Bytes::from_slice(alloc, b"k")
}

fn rows(alloc: Global) -> Result<Reply, Memory> {
    let mut pairs = ListOf::new(alloc);
    pairs.push(Pair {
        key: key(alloc)?,
        value: key(alloc)?,
    })?;
    Ok(Reply::Rows { pairs })
}

pub fn reply_of(alloc: Global, said: Said) -> Result<Reply, Memory> {
    match said {
        Said::Rows => rows(alloc),
        Said::Uncertain(ts) => Ok(Reply::Uncertain {
            key: key(alloc)?,
            ts,
        }),
        Said::Unknown(other) => Ok(Reply::Unknown {
            key: key(alloc)?,
            attempt: AttemptId(other),
            start: ts(900, 0, other),
            anchor: RangeId(7),
        }),
        Said::Laid(ts) => Ok(Reply::Laid { ts }),
        Said::Intent(other) => Ok(Reply::Intent {
            key: key(alloc)?,
            attempt: AttemptId(other),
            start: ts(900, 0, other),
            anchor: RangeId(7),
        }),
        Said::Refreshed => Ok(Reply::Refreshed),
        Said::Newer(ts) => Ok(Reply::Newer { ts }),
        Said::Fate(other, fate) => Ok(Reply::Fate {
            attempt: AttemptId(other),
            fate,
        }),
        Said::Live(other) => Ok(Reply::Live {
            attempt: AttemptId(other),
        }),
        Said::Ended => Ok(Reply::Ended),
        Said::Aborted(by) => Ok(Reply::Aborted { by: AttemptId(by) }),
        Said::Pushed(ts) => Ok(Reply::Pushed { ts }),
        Said::NoQuorum => Ok(Reply::NoQuorum { down: NodeSet(6) }),
    }
}

/// Whether a server gives such a reply to what is asked in the course.
pub fn fits(course: &Course, reply: &Reply) -> bool
    ensures { IsTrue result → Answers course.now reply.now }
{
    match course {
        Course::Reading => fits_read(reply),
        Course::Laying => fits_put(reply),
        Course::Refreshing => fits_refresh(reply),
        Course::Pushing { other, back } => fits_push(other, *back, reply),
        Course::Committing => fits_commit(reply),
        Course::Aborting { cause } => fits_abort(cause, reply),
        _ => false,
    }
}

fn fits_read(reply: &Reply) -> bool
    ensures { IsTrue result → Answers Course.Reading reply.now }
{
    match reply {
        Reply::Rows { .. } => true,
        Reply::Uncertain { .. } => true,
        Reply::Unknown { .. } => true,
        _ => false,
    }
}

fn fits_put(reply: &Reply) -> bool
    ensures { IsTrue result → Answers Course.Laying reply.now }
{
    match reply {
        Reply::Laid { .. } => true,
        Reply::Intent { .. } => true,
        Reply::NoQuorum { .. } => true,
        _ => false,
    }
}

fn fits_refresh(reply: &Reply) -> bool
    ensures { IsTrue result → Answers Course.Refreshing reply.now }
{
    match reply {
        Reply::Refreshed => true,
        Reply::Newer { .. } => true,
        Reply::Unknown { .. } => true,
        _ => false,
    }
}

fn fits_push(other: &Obstacle, back: Back, reply: &Reply) -> bool
    ensures { IsTrue result → Answers (Course.Pushing other.now back) reply.now }
{
    match reply {
        Reply::Fate { .. } => true,
        Reply::NoQuorum { .. } => true,
        Reply::Live { .. } => match back {
            Back::Put => true,
            Back::Read => false,
            Back::Refresh => false,
        },
        _ => false,
    }
}

fn fits_commit(reply: &Reply) -> bool
    ensures { IsTrue result → Answers Course.Committing reply.now }
{
    match reply {
        Reply::Ended => true,
        Reply::Aborted { .. } => true,
        Reply::Pushed { .. } => true,
        Reply::NoQuorum { .. } => true,
        _ => false,
    }
}

fn fits_abort(cause: &RetryCause, reply: &Reply) -> bool
    ensures { IsTrue result → Answers (Course.Aborting cause.now) reply.now }
{
    match reply {
        Reply::Ended => true,
        Reply::NoQuorum { .. } => true,
        _ => false,
    }
}
