//! Lists with a token between each two of their values.

ghost use Rattle.std.specs.Prelude.{◌≡◌, ℕ, List, [], ◌∷◌, true, false, drop, length, Result, IfSome, IfNone};
ghost use Rattle.region_sql.specs.Reading.{Gives, begins, listed_at};
ghost use Rattle.region_sql.specs.declared.tokens.Token.{Token as AnyToken};

use crate::stuck::Stuck;
use crate::tokens::Token;
use mr_base::ListOf;
use std::alloc::Global;

/// What stands in lists.
pub(crate) trait Listed: Drop {
    /// The kind of the token between each two.
    ghost separator: { ℕ };

    /// What reading one gives.
    ghost reading: { List AnyToken → Result (Self × List AnyToken) ℕ };

    /// Reads one, and answers the tokens after it too.
    fn read(alloc: Global, tokens: &[Token]) -> Result<(Self, &[Token]), Stuck>
        ensures one { Gives (λ x. (x.0, x.1.now)) result (reading tokens.now) };

    /// The tokens after the one that stands between two, where it is the first token.
    fn after_separator(tokens: &[Token]) -> Option<&[Token]>
        ensures found { IfSome result (λ rest. (begins (separator ∷ []) tokens.now ≡ true)
            × (rest.now ≡ drop 1 tokens.now)) }
        ensures none { IfNone result (begins (separator ∷ []) tokens.now ≡ false) };
}

/// One or more, as many as there are.
pub(crate) fn list_of<T: Listed>(
    alloc: Global,
    tokens: &[Token],
) -> Result<(ListOf<T>, &[Token]), Stuck>
    ensures { Gives (λ x. (x.0, x.1.now)) result
        (listed_at (length tokens.now) T.separator T.reading tokens.now) }
{
    let mut items = Vec::new(alloc);
    let mut rest = tokens;
    for _ in 0..tokens.len() {
        let (item, after) = T::read(alloc, rest)?;
        items.push(item)?;
        match T::after_separator(after) {
            Some(more) => rest = more,
            None => return Ok((ListOf::from_vec(items), after)),
        }
    }
    Err(Stuck::At(rest.len()))
}
