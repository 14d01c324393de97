//! Texts as tokens.

ghost use Rattle.std.specs.Prelude.{◌≡◌, ◌<◌, ◌+◌, ◌≤◌, length, IfOk, IfSome, option_map, option_and_then, pos, take, drop, ◌∷◌};
ghost use Rattle.region_sql.specs.Lexing.{is_word_start, less_at, greater_at, word_at, digits_at, quoted_at, unquoted_at, read_on, text_at, minus_at, sign_at, token_at};

use crate::byte_classes::{ByteClass, run_len};
use crate::numbers::digits_at;
use crate::row_statements::Comparison;
use crate::tokens::{Sign, Token};
use crate::words::word_token;
use mr_base::{Bytes, Memory, is_utf8};
use std::alloc::Global;

/// A word and what follows it.
#[tactic(auto, unfolding(crate::specs::Lexing::word_at))]
fn word_at(alloc: Global, bytes: &[u8]) -> Result<(Token, &[u8]), Memory>
    ensures { IfOk result (λ x. (x.0, x.1.now) ≡ word_at bytes.now) }
{
    let (word, rest) = bytes.split_at(run_len(ByteClass::Word, bytes));
    let word = word.to_ascii_lowercase(alloc)?;
    Ok((word_token(word, rest), rest))
}

/// A quoted name behind its first `"`, and what follows it.
#[tactic(auto, unfolding(crate::specs::Lexing::quoted_at))]
fn quoted_at(alloc: Global, bytes: &[u8]) -> Result<Option<(Token, &[u8])>, Memory>
    ensures { IfOk result (λ o. option_map (λ x. (x.0, x.1.now)) o ≡ quoted_at bytes.now) }
{
    let len = run_len(ByteClass::Quoted, bytes);
    if len == 0 || len == bytes.len() {
        return Ok(None);
    }
    let (name, _) = bytes.split_at(len);
    if !is_utf8(name) {
        return Ok(None);
    }
    let name = Bytes::from_slice(alloc, name)?;
    let (_, rest) = bytes.split_at(len + 1);
    Ok(Some((Token::Name(name), rest)))
}

/// The next byte of a text, or none at its end, and what follows that. A doubled `'` is one byte.
#[tactic(auto, unfolding(crate::specs::Lexing::unquoted_at))]
fn next_byte(bytes: &[u8]) -> Option<(Option<u8>, &[u8])>
    ensures read { option_and_then (λ x. read_on x.0 x.1.now) result ≡ unquoted_at bytes.now }
    ensures shorter { IfSome result (λ x. length x.1.now < length bytes.now) }
{
    match bytes {
        [b'\'', b'\'', more @ ..] => Some((Some(b'\''), more)),
        [b'\'', more @ ..] => Some((None, more)),
        [byte, more @ ..] => Some((Some(*byte), more)),
        [] => None,
    }
}

/// What stands up to the next `'` that isn't doubled, and what follows that.
#[tactic(auto, unfolding(crate::specs::Lexing::unquoted_at), using(crate::proofs::Bytes::push_byte, crate::proofs::Bytes::with_no_bytes))]
fn unquoted_at(alloc: Global, bytes: &[u8]) -> Result<Option<(Vec<u8>, &[u8])>, Memory>
    ensures { IfOk result (λ o. option_map (λ x. (x.0.items, x.1.now)) o ≡ unquoted_at bytes.now) }
{
    let mut text = Vec::new(alloc);
    let mut rest = bytes;
    for _ in 0..bytes.len() {
        let Some((next, more)) = next_byte(rest) else {
            return Ok(None);
        };
        let Some(byte) = next else {
            return Ok(Some((text, more)));
        };
        text.push(byte)?;
        rest = more;
    }
    Ok(None)
}

/// A text behind its first `'`, and what follows it.
#[tactic(auto, unfolding(crate::specs::Lexing::text_at))]
fn text_at(alloc: Global, bytes: &[u8]) -> Result<Option<(Token, &[u8])>, Memory>
    ensures { IfOk result (λ o. option_map (λ x. (x.0, x.1.now)) o ≡ text_at bytes.now) }
{
    let Some((text, rest)) = unquoted_at(alloc, bytes)? else {
        return Ok(None);
    };
    if !is_utf8(&text) {
        return Ok(None);
    }
    Ok(Some((Token::Text(Bytes::from_vec(text)), rest)))
}

/// `-` with the digits that follow directly, and what follows it.
#[tactic(auto, unfolding(crate::specs::Lexing::minus_at))]
fn minus_at(rest: &[u8]) -> (Token, &[u8])
    ensures { (result.0, result.1.now) ≡ minus_at rest.now }
{
    match rest {
        [b'0'..=b'9', ..] => {
            let (by, rest) = digits_at(rest);
            (Token::Negative { literal: -by, by }, rest)
        }
        _ => (Token::Sign(Sign::Minus), rest),
    }
}

/// A sign or a comparison, and what follows it.
#[tactic(auto, unfolding(crate::specs::Lexing::sign_at))]
fn sign_at(first: u8, rest: &[u8]) -> Option<(Token, &[u8])>
    ensures { option_map (λ x. (x.0, x.1.now)) result ≡ sign_at first rest.now }
{
    let token = match first {
        b'(' => Token::Sign(Sign::Open),
        b')' => Token::Sign(Sign::Close),
        b'*' => Token::Sign(Sign::Star),
        b'+' => Token::Sign(Sign::Plus),
        b',' => Token::Sign(Sign::Comma),
        b';' => Token::Sign(Sign::Semicolon),
        b'<' => return Some(less_at(rest)),
        b'=' => Token::Compare(Comparison::Eq),
        b'>' => return Some(greater_at(rest)),
        _ => return None,
    };
    Some((token, rest))
}

/// The token at the front of a text that doesn't begin with a blank, and what follows it.
#[tactic(auto, unfolding(crate::specs::Lexing::token_at))]
pub(crate) fn token_at(alloc: Global, bytes: &[u8]) -> Result<Option<(Token, &[u8])>, Memory>
    ensures { IfOk result (λ o. option_map (λ x. (x.0, x.1.now)) o ≡ token_at bytes.now) }
{
    let Some((first, rest)) = bytes.split_first() else {
        return Ok(None);
    };
    if is_word_start(*first) {
        return Ok(Some(word_at(alloc, bytes)?));
    }
    if first.is_ascii_digit() {
        let (number, rest) = digits_at(bytes);
        return Ok(Some((Token::Integer(number), rest)));
    }
    match *first {
        b'"' => quoted_at(alloc, rest),
        b'\'' => text_at(alloc, rest),
        b'-' => Ok(Some(minus_at(rest))),
        other => Ok(sign_at(other, rest)),
    }
}

/// Whether a word may begin with the byte.
fn is_word_start(byte: u8) -> bool
    ensures { result ≡ is_word_start byte }
{
    byte.is_ascii_alphabetic() || byte == b'_'
}

/// The comparison that begins with `<`, the longest that fits.
fn less_at(rest: &[u8]) -> (Token, &[u8])
    ensures { (result.0, result.1.now) ≡ less_at rest.now }
{
    match rest {
        [b'=', rest @ ..] => (Token::Compare(Comparison::Le), rest),
        [b'>', rest @ ..] => (Token::Compare(Comparison::Ne), rest),
        _ => (Token::Compare(Comparison::Lt), rest),
    }
}

/// The comparison that begins with `>`, the longest that fits.
fn greater_at(rest: &[u8]) -> (Token, &[u8])
    ensures { (result.0, result.1.now) ≡ greater_at rest.now }
{
    match rest {
        [b'=', rest @ ..] => (Token::Compare(Comparison::Ge), rest),
        _ => (Token::Compare(Comparison::Gt), rest),
    }
}
