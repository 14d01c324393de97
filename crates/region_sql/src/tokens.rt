//! The tokens of statement texts.

ghost use Rattle.std.specs.Prelude.{◌≡◌, IfOk};
ghost use Rattle.region_sql.specs.Tokens.{soft_text};

use crate::region_statements::ColumnType;
use crate::row_statements::Comparison;
use mr_base::{Bytes, Memory};
use std::alloc::Global;

/// A key word, written in any letter case. None is a name unless quoted.
#[derive(Clone, Copy, PartialEq, Eq)]
pub enum Key {
    Add,
    Alter,
    And,
    By,
    /// `count` where `(` is the next token; elsewhere it is a name.
    Count,
    Create,
    Database,
    Delete,
    Drop,
    Failure,
    From,
    Global,
    In,
    Insert,
    Into,
    Key,
    Locality,
    Not,
    Null,
    Primary,
    Region,
    Regional,
    Regions,
    Row,
    Select,
    Set,
    Survive,
    Table,
    Unique,
    Update,
    Use,
    Values,
    Where,
    Zone,
}

/// A word that is a key word where a form has it, and a name elsewhere.
#[derive(Clone, Copy, PartialEq, Eq)]
pub enum Soft {
    Default,
    Placement,
    Restricted,
}

/// A sign that is no comparison.
#[derive(Clone, Copy, PartialEq, Eq)]
pub enum Sign {
    /// (
    Open,
    /// )
    Close,
    /// ,
    Comma,
    /// ;
    Semicolon,
    /// *
    Star,
    /// +
    Plus,
    /// - where no digit follows directly
    Minus,
}

/// A token.
#[derive(Drop)]
pub enum Token {
    Key(Key),
    Soft(Soft),
    /// A word that is no key word, folded to lower case, or what stands between two `"`.
    Name(Bytes),
    /// INT, INT8 or BIGINT; STRING or TEXT; BOOL.
    Type(ColumnType),
    /// TRUE or FALSE.
    Bool(bool),
    /// 1 to 30 digits.
    Integer(i128),
    /// 1 to 30 digits with a `-` directly before them: a literal, or what is taken from a column.
    Negative { literal: i128, by: i128 },
    /// What stands between two `'`, with each `''` in it read as one `'`.
    Text(Bytes),
    Compare(Comparison),
    Sign(Sign),
}

impl Soft {
    /// The word as a name.
    pub(crate) fn text(self, alloc: Global) -> Result<Bytes, Memory>
        ensures { IfOk result (λ b. b ≡ soft_text self) }
    {
        match self {
            Soft::Default => Bytes::from_slice(alloc, b"default"),
            Soft::Placement => Bytes::from_slice(alloc, b"placement"),
            Soft::Restricted => Bytes::from_slice(alloc, b"restricted"),
        }
    }
}
