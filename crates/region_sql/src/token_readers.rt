//! Readers of single tokens. Each answers what it read and the tokens after it.

ghost use Rattle.std.specs.Prelude.{◌≡◌, [], ◌∷◌, true, false, drop, nat_eq, IfSome, IfNone};
ghost use Rattle.region_sql.specs.Grammar.{word, mark, of_kind, column_type, equals, name, literal, compare, integer, taken_away};
ghost use Rattle.region_sql.specs.Reading.{Gives, parse, begins, first};
ghost use Rattle.region_sql.specs.Tokens.{kind_of, key_number, soft_number, sign_number};

use crate::region_statements::ColumnType;
use crate::row_statements::{Comparison, Literal};
use crate::stuck::Stuck;
use crate::tokens::{Key, Sign, Soft, Token};
use mr_base::{Bytes, CloneIn};
use std::alloc::Global;

/// Whether the token is this key word.
fn is_key(token: &Token, key: Key) -> bool
    ensures { result ≡ nat_eq (key_number key) (kind_of token.now) }
{
    match token {
        Token::Key(found) => key == *found,
        _ => false,
    }
}

/// Whether the token is this sign.
fn is_sign(token: &Token, sign: Sign) -> bool
    ensures { result ≡ nat_eq (sign_number sign) (kind_of token.now) }
{
    match token {
        Token::Sign(found) => sign == *found,
        _ => false,
    }
}

/// Whether the token is this soft key word.
fn is_soft(token: &Token, soft: Soft) -> bool
    ensures { result ≡ nat_eq (soft_number soft) (kind_of token.now) }
{
    match token {
        Token::Soft(found) => soft == *found,
        _ => false,
    }
}

/// The tokens after this key word, where it is the first token.
pub(crate) fn after_key(tokens: &[Token], key: Key) -> Option<&[Token]>
    ensures found { IfSome result (λ rest. (begins (key_number key ∷ []) tokens.now ≡ true)
        × (rest.now ≡ drop 1 tokens.now)) }
    ensures none { IfNone result (begins (key_number key ∷ []) tokens.now ≡ false) }
{
    let (first, rest) = tokens.split_first()?;
    if is_key(first, key) { Some(rest) } else { None }
}

/// The tokens after this sign, where it is the first token.
pub(crate) fn after_sign(tokens: &[Token], sign: Sign) -> Option<&[Token]>
    ensures found { IfSome result (λ rest. (begins (sign_number sign ∷ []) tokens.now ≡ true)
        × (rest.now ≡ drop 1 tokens.now)) }
    ensures none { IfNone result (begins (sign_number sign ∷ []) tokens.now ≡ false) }
{
    let (first, rest) = tokens.split_first()?;
    if is_sign(first, sign) {
        Some(rest)
    } else {
        None
    }
}

/// The tokens after this soft key word, where it is the first token.
fn after_soft(tokens: &[Token], soft: Soft) -> Option<&[Token]>
    ensures found { IfSome result (λ rest. (begins (soft_number soft ∷ []) tokens.now ≡ true)
        × (rest.now ≡ drop 1 tokens.now)) }
    ensures none { IfNone result (begins (soft_number soft ∷ []) tokens.now ≡ false) }
{
    let (first, rest) = tokens.split_first()?;
    if is_soft(first, soft) {
        Some(rest)
    } else {
        None
    }
}

/// Whether the first token is this key word.
pub(crate) fn begins_with_key(tokens: &[Token], key: Key) -> bool
    ensures { result ≡ begins (key_number key ∷ []) tokens.now }
{
    after_key(tokens, key).is_some()
}

/// Whether the first token is this sign.
pub(crate) fn begins_with_sign(tokens: &[Token], sign: Sign) -> bool
    ensures { result ≡ begins (sign_number sign ∷ []) tokens.now }
{
    after_sign(tokens, sign).is_some()
}

/// Whether the first token is this soft key word.
pub(crate) fn begins_with_soft(tokens: &[Token], soft: Soft) -> bool
    ensures { result ≡ begins (soft_number soft ∷ []) tokens.now }
{
    after_soft(tokens, soft).is_some()
}

/// Passes this key word.
#[tactic(auto, using(crate::proofs::OneKind::passed, crate::proofs::OneKind::stuck_before))]
pub(crate) fn pass_key(tokens: &[Token], key: Key) -> Result<&[Token], Stuck>
    ensures { Gives (λ rest. (tt, rest.now)) result (parse (word key) tokens.now) }
{
    match after_key(tokens, key) {
        Some(rest) => Ok(rest),
        None => Err(Stuck::At(tokens.len())),
    }
}

/// Passes this sign.
#[tactic(auto, using(crate::proofs::OneKind::passed, crate::proofs::OneKind::stuck_before))]
pub(crate) fn pass_sign(tokens: &[Token], sign: Sign) -> Result<&[Token], Stuck>
    ensures { Gives (λ rest. (tt, rest.now)) result (parse (mark sign) tokens.now) }
{
    match after_sign(tokens, sign) {
        Some(rest) => Ok(rest),
        None => Err(Stuck::At(tokens.len())),
    }
}

/// Passes this soft key word.
#[tactic(auto, using(crate::proofs::OneKind::passed, crate::proofs::OneKind::stuck_before))]
pub(crate) fn pass_soft(tokens: &[Token], soft: Soft) -> Result<&[Token], Stuck>
    ensures { Gives (λ rest. (tt, rest.now)) result (parse (of_kind (soft_number soft)) tokens.now) }
{
    match after_soft(tokens, soft) {
        Some(rest) => Ok(rest),
        None => Err(Stuck::At(tokens.len())),
    }
}

/// Passes `=`.
pub(crate) fn pass_equals(tokens: &[Token]) -> Result<&[Token], Stuck>
    ensures { Gives (λ rest. (tt, rest.now)) result (parse equals tokens.now) }
{
    match tokens {
        [Token::Compare(Comparison::Eq), rest @ ..] => Ok(rest),
        _ => Err(Stuck::At(tokens.len())),
    }
}

/// The type of a column.
#[tactic(auto, unfolding(crate::specs::Grammar::column_type))]
pub(crate) fn type_of(tokens: &[Token]) -> Result<(ColumnType, &[Token]), Stuck>
    ensures { Gives (λ x. (x.0, x.1.now)) result (parse column_type tokens.now) }
{
    match tokens {
        [Token::Type(ty), rest @ ..] => Ok((*ty, rest)),
        _ => Err(Stuck::At(tokens.len())),
    }
}

/// Whether the first token is a literal.
#[tactic(auto, unfolding(crate::specs::Grammar::literal))]
pub(crate) fn begins_with_literal(tokens: &[Token]) -> bool
    ensures { result ≡ begins (first literal) tokens.now }
{
    matches!(
        tokens,
        [
            Token::Integer(_) | Token::Negative { .. } | Token::Text(_) | Token::Bool(_),
            ..
        ]
    )
}

/// A name: a word that is no key word, or a quoted name.
#[tactic(auto, unfolding(crate::specs::Grammar::name))]
pub(crate) fn name_of(alloc: Global, tokens: &[Token]) -> Result<(Bytes, &[Token]), Stuck>
    ensures { Gives (λ x. (x.0, x.1.now)) result (parse name tokens.now) }
{
    match tokens {
        [Token::Name(text), rest @ ..] => Ok((text.clone_in(alloc)?, rest)),
        [Token::Soft(word), rest @ ..] => Ok((word.text(alloc)?, rest)),
        _ => Err(Stuck::At(tokens.len())),
    }
}

/// A literal.
#[tactic(auto, unfolding(crate::specs::Grammar::literal))]
pub(crate) fn literal_of(alloc: Global, tokens: &[Token]) -> Result<(Literal, &[Token]), Stuck>
    ensures { Gives (λ x. (x.0, x.1.now)) result (parse literal tokens.now) }
{
    match tokens {
        [Token::Integer(n), rest @ ..] => Ok((Literal::Int(*n), rest)),
        [Token::Negative { literal, .. }, rest @ ..] => Ok((Literal::Int(*literal), rest)),
        [Token::Text(text), rest @ ..] => Ok((Literal::Text(text.clone_in(alloc)?), rest)),
        [Token::Bool(b), rest @ ..] => Ok((Literal::Bool(*b), rest)),
        _ => Err(Stuck::At(tokens.len())),
    }
}

/// How a term compares.
#[tactic(auto, unfolding(crate::specs::Grammar::compare))]
pub(crate) fn comparison_of(tokens: &[Token]) -> Result<(Comparison, &[Token]), Stuck>
    ensures { Gives (λ x. (x.0, x.1.now)) result (parse compare tokens.now) }
{
    match tokens {
        [Token::Compare(op), rest @ ..] => Ok((*op, rest)),
        _ => Err(Stuck::At(tokens.len())),
    }
}

/// An integer without a sign of its own.
#[tactic(auto, unfolding(crate::specs::Grammar::integer))]
pub(crate) fn integer_of(tokens: &[Token]) -> Result<(i128, &[Token]), Stuck>
    ensures { Gives (λ x. (x.0, x.1.now)) result (parse integer tokens.now) }
{
    match tokens {
        [Token::Integer(n), rest @ ..] => Ok((*n, rest)),
        _ => Err(Stuck::At(tokens.len())),
    }
}

/// What a minus directly before an integer takes away.
#[tactic(auto, unfolding(crate::specs::Grammar::taken_away))]
pub(crate) fn taken_of(tokens: &[Token]) -> Result<(i128, &[Token]), Stuck>
    ensures { Gives (λ x. (x.0, x.1.now)) result (parse taken_away tokens.now) }
{
    match tokens {
        [Token::Negative { by, .. }, rest @ ..] => Ok((*by, rest)),
        _ => Err(Stuck::At(tokens.len())),
    }
}
