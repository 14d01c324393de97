//! Statements of both kinds, lists of them, and why a text is none.

ghost use Rattle.std.specs.Prelude.{◌≡◌};
ghost use Rattle.region_sql.specs.declared.statements.ParseFault.TheVariants.{Memory as OutOfMemory};

use crate::region_statements::RegionStatement;
use crate::row_statements::RowStatement;
use mr_base::{ListOf, Memory};

/// One statement.
#[derive(Drop)]
pub enum Statement {
    Region(RegionStatement),
    Row(RowStatement),
}

/// A transaction's row statements, in their order.
pub type List = ListOf<RowStatement>;

/// Why a text is no statement or no list.
#[derive(Clone, Copy)]
pub enum ParseFault {
    /// No form fits; `at` is the place in bytes just after the longest run of tokens with which some
    /// form begins.
    Syntax { at: usize },
    /// The list has more than 64 statements.
    TooMany,
    Memory,
}

impl From<Memory> for ParseFault {
    ghost from_gives = { λ _ e. e ≡ OutOfMemory };

    fn from(_e: Memory) -> ParseFault {
        ParseFault::Memory
    }
}
