//! The SQLSTATE codes that this project answers.

ghost use Rattle.std.specs.Prelude.{◌≡◌};

use std::fmt;

/// A SQLSTATE code of the PostgreSQL list; the variant `S22003` is the code 22003.
#[derive(Clone, Copy, PartialEq, Eq)]
pub enum SqlState {
    /// feature_not_supported: a bounded-staleness read that isn't one SELECT
    S0A000,
    /// numeric_value_out_of_range
    S22003,
    /// invalid_text_representation: no region of the database
    S22P02,
    /// not_null_violation
    S23502,
    /// unique_violation
    S23505,
    /// read_only_sql_transaction
    S25006,
    /// invalid_catalog_name
    S3D000,
    /// syntax_error
    S42601,
    /// duplicate_column
    S42701,
    /// undefined_column
    S42703,
    /// datatype_mismatch
    S42804,
    /// undefined_table
    S42P01,
    /// duplicate_database
    S42P04,
    /// duplicate_table
    S42P07,
    /// program_limit_exceeded
    S54000,
}

impl SqlState {
    ghost use Rattle.mr_base.specs.States.{code_of};

    /// The five characters of the code.
    pub fn code(self) -> &'static str
        ensures { result.now ≡ code_of self }
    {
        match self {
            SqlState::S0A000 => "0A000",
            SqlState::S22003 => "22003",
            SqlState::S22P02 => "22P02",
            SqlState::S23502 => "23502",
            SqlState::S23505 => "23505",
            SqlState::S25006 => "25006",
            SqlState::S3D000 => "3D000",
            SqlState::S42601 => "42601",
            SqlState::S42701 => "42701",
            SqlState::S42703 => "42703",
            SqlState::S42804 => "42804",
            SqlState::S42P01 => "42P01",
            SqlState::S42P04 => "42P04",
            SqlState::S42P07 => "42P07",
            SqlState::S54000 => "54000",
        }
    }
}

impl fmt::Display for SqlState {
    ghost use Rattle.mr_base.specs.States.{code_of};
    ghost use Rattle.std.specs.Prelude.{Some};

    ghost output = { λ s. Some (code_of s) };

    fn fmt<W: fmt::Write>(&self, f: &mut fmt::Formatter<W>) -> fmt::Result {
        let code = self.code();
        write!(f, "{code}")
    }
}
