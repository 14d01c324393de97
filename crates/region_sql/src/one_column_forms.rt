//! The two statement forms of a cluster of one node and one table.

ghost use Rattle.std.specs.Prelude.{◌≡◌, ℤ, ℕ, ◌++◌, List, IfSome, IfNone, codes};
ghost use Rattle.region_sql.specs.IntText.{IsIntText};
ghost use Rattle.region_sql.specs.OneColumnForms.{IsOneColumnText};
ghost use Rattle.region_sql.specs.declared.one_column_forms.OneColumnStatement.{OneColumnStatement};

use mr_base::{after_head, before_tail};

/// A statement on the table `t (id INT PRIMARY KEY)`.
#[derive(Clone, Copy)]
pub enum OneColumnStatement {
    /// INSERT INTO t (id) VALUES (n)
    Insert(i64),
    /// SELECT * FROM t
    SelectAll,
}

/// The number that a text writes in decimal: digits without leading zeros, after a `-` or not, that fit
/// an i64.
pub fn int_of(text: &[u8]) -> Option<i64>
    ensures found { IfSome result (λ n. IsIntText text.now n) }
    ensures only { IfNone result ((n : ℤ) → ¬ IsIntText text.now n) }
{
    let s = std::str::from_utf8(text).ok()?;
    match text {
        [b'+', ..] => None,
        [b'0', _, ..] => None,
        [b'-', b'0', _, ..] => None,
        _ => s.parse::<i64>().ok(),
    }
}

/// The number between the parentheses of an INSERT.
fn inserted(text: &[u8]) -> Option<i64>
    ensures found { IfSome result (λ n. IsOneColumnText text.now (OneColumnStatement.Insert n)) }
    ensures only { IfNone result ((n : ℤ) → ¬ IsOneColumnText text.now (OneColumnStatement.Insert n)) }
{
    let Some(rest) = after_head(text, b"INSERT INTO t (id) VALUES (") else {
        return None;
    };
    let Some(digits) = before_tail(rest, b")") else {
        return None;
    };
    int_of(digits)
}

/// The statement that the text is, where it is one of the two forms, written exactly so.
#[tactic(auto, using(crate::proofs::NoForm::no_form))]
pub fn one_column_statement(text: &[u8]) -> Option<OneColumnStatement>
    ensures found { IfSome result (λ s. IsOneColumnText text.now s) }
    ensures only { IfNone result ((s : OneColumnStatement) → ¬ IsOneColumnText text.now s) }
{
    if text == b"SELECT * FROM t".as_slice() {
        return Some(OneColumnStatement::SelectAll);
    }
    Some(OneColumnStatement::Insert(inserted(text)?))
}
