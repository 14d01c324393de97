//! What a generated scenario asks for, one transaction after the other.

use mr_base::NodeId;
use std::fmt;

/// The statement of a transaction, over the table `users`, which has its rows by region, or the global table `promo`.
#[derive(Clone, Copy)]
pub(crate) enum Statement {
    /// Adds the user of this key, with a value.
    InsertUser { key: u32, value: u32 },
    /// Adds one to the value of the user of this key.
    UpdateUser { key: u32 },
    /// Reads the user of this key.
    SelectUser { key: u32 },
    /// Removes the user of this key.
    DeleteUser { key: u32 },
    /// Adds the code of this key, with a percentage.
    InsertPromo { key: u32, percent: u32 },
    /// Counts the codes.
    CountPromo,
}

/// A transaction with what stands round it in the scenario.
#[derive(Clone, Copy)]
pub(crate) struct Transaction {
    /// Counted from 1; the transaction's name is made of it.
    pub number: u32,
    /// The node that runs it.
    pub gateway: NodeId,
    pub statement: Statement,
    /// Whether all messages are delivered behind it.
    pub drains: bool,
}

impl fmt::Display for Statement {
    ghost use Rattle.workload.specs.Generated.{statement_text};
    ghost use Rattle.std.specs.Prelude.{Some};

    ghost output = { λ s. Some (statement_text s) };

    fn fmt<W: fmt::Write>(&self, f: &mut fmt::Formatter<W>) -> fmt::Result {
        match self {
            Statement::InsertUser { key, value } => write!(
                f,
                "INSERT INTO users (id, email, v) VALUES ({key}, 'e{key}', {value})"
            ),
            Statement::UpdateUser { key } => {
                write!(f, "UPDATE users SET v = v + 1 WHERE id = {key}")
            }
            Statement::SelectUser { key } => write!(f, "SELECT * FROM users WHERE id = {key}"),
            Statement::DeleteUser { key } => write!(f, "DELETE FROM users WHERE id = {key}"),
            Statement::InsertPromo { key, percent } => {
                write!(
                    f,
                    "INSERT INTO promo (code, pct) VALUES ('c{key}', {percent})"
                )
            }
            Statement::CountPromo => write!(f, "SELECT count(*) FROM promo"),
        }
    }
}
