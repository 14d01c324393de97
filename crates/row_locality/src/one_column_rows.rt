//! The rows of a table whose one column is its primary key, an INT.

ghost use Rattle.std.specs.Prelude.{◌≡◌, ◌≢◌, ◌++◌, ◌∷◌, [], ℤ, IfOk, IfSome, IfNone};
ghost use Rattle.row_locality.specs.OneColumnRows.{int_pair, int_value, int_place, point_of, the_primary_keys};

use mr_base::{Bytes, CloneIn, Memory, Pair, Span};
use std::alloc::Global;

/// An INT plus 2^63, which orders as the INT does.
fn place(n: i64) -> u64
    ensures { result ≡ int_place n }
{
    if n < 0 {
        (1 << 63) - 1 - (-(n + 1)) as u64
    } else {
        (1 << 63) + n as u64
    }
}

/// The pair of the row that holds the INT alone. Source: this project's profile.
#[tactic(auto, unfolding(crate::specs::OneColumnRows::int_key, crate::specs::OneColumnRows::int_value))]
pub fn one_column_row(alloc: Global, n: i64) -> Result<Pair, Memory>
    ensures pair { IfOk result (λ p. p ≡ int_pair n) }
{
    let key = tagged(alloc, 0, place(n).to_be_bytes())?;
    let value = tagged(alloc, 1, n.to_be_bytes())?;
    Ok(Pair { key, value })
}

/// A tag and eight bytes.
fn tagged(alloc: Global, tag: u8, bytes: [u8; 8]) -> Result<Bytes, Memory>
    ensures { IfOk result (λ b. b ≡ tag ∷ bytes) }
{
    let mut all = Vec::new(alloc);
    all.push(tag)?;
    all.extend_from_slice(&bytes)?;
    Ok(Bytes::from_vec(all))
}

/// The INT that a value holds.
#[tactic(auto, unfolding(crate::specs::OneColumnRows::int_value))]
pub fn one_column_value(value: &[u8]) -> Option<i64>
    ensures found { IfSome result (λ n. value.now ≡ int_value n) }
    ensures only { IfNone result ((n : ℤ) → value.now ≢ int_value n) }
{
    let [1, bytes @ ..] = value else {
        return None;
    };
    let bytes: [u8; 8] = bytes.try_into().ok()?;
    Some(i64::from_be_bytes(bytes))
}

/// The span of the one row that holds the INT.
pub fn one_column_point(alloc: Global, n: i64) -> Result<Span, Memory>
    ensures span { IfOk result (λ s. s ≡ point_of n) }
{
    let Pair { key, value } = one_column_row(alloc, n)?;
    let mut hi = key.clone_in(alloc)?.into_vec();
    hi.push(0)?;
    Ok(Span {
        lo: key,
        hi: Bytes::from_vec(hi),
    })
}

/// The span of all rows.
pub fn one_column_span(alloc: Global) -> Result<Span, Memory>
    ensures span { IfOk result (λ s. s ≡ the_primary_keys) }
{
    Ok(Span {
        lo: Bytes::from_slice(alloc, &[0])?,
        hi: Bytes::from_slice(alloc, &[1])?,
    })
}
