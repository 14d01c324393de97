//! Why a statement is refused, and the line that says so.

ghost use Rattle.std.specs.Prelude.{◌≡◌, ◌++◌, IfOk, OnOk};
ghost use Rattle.zone_report.specs.Refusals.{refused_line, refusal_text};

use crate::line_parts::{put, put_number};
use mr_base::{Bytes, Memory, SqlState};
use std::alloc::Global;

/// Why a statement is refused.
#[derive(Drop)]
pub enum SqlRefusal {
    /// A state of PostgreSQL's list: the text is no region statement, or what it names is missing or
    /// there already.
    State(SqlState),
    /// A rule of databases with regions, 1 to 9 and 11. (This project's profile.)
    D(u8),
    /// Some range could not be placed. `region` is the home region of the first such range; `wanted`
    /// and `found` are numbers of zones of that region for zone survival, of its nodes where it has
    /// fewer than two, and of voters else.
    Unplaceable {
        region: Bytes,
        wanted: u32,
        found: u32,
    },
}

impl SqlRefusal {
    /// The line that `zones` writes, with its end.
    pub fn line(&self, alloc: Global) -> Result<Bytes, Memory>
        ensures { IfOk result (λ line. line ≡ refused_line self.now) }
    {
        let mut out = Vec::new(alloc);
        put(&mut out, b"sql refused ")?;
        self.put_text(alloc, &mut out)?;
        put(&mut out, b"\n")?;
        Ok(Bytes::from_vec(out))
    }

    fn put_text(&self, alloc: Global, out: &mut Vec<u8>) -> Result<(), Memory>
        ensures { OnOk result (out.new.items ≡ out.old.items ++ refusal_text self.now) }
    {
        match self {
            SqlRefusal::State(state) => put(out, state.code().as_bytes()),
            SqlRefusal::D(number) => {
                put(out, b"D")?;
                put_number(alloc, out, *number as u32)
            }
            SqlRefusal::Unplaceable {
                region,
                wanted,
                found,
            } => put_unplaceable(alloc, out, region, *wanted, *found),
        }
    }
}

fn put_unplaceable(
    alloc: Global,
    out: &mut Vec<u8>,
    region: &Bytes,
    wanted: u32,
    found: u32,
) -> Result<(), Memory>
    ensures { OnOk result (out.new.items ≡ out.old.items ++ refusal_text (SqlRefusal.Unplaceable region.now wanted found)) }
{
    put(out, b"P1 ")?;
    put(out, region.as_slice())?;
    put(out, b" ")?;
    put_number(alloc, out, wanted)?;
    put(out, b" ")?;
    put_number(alloc, out, found)
}
