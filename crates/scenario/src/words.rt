//! Readers of the words of a line. Each answers what it read and what follows it.

ghost use Rattle.std.specs.Prelude.{◌≡◌, ◌≤◌, ◌<◌, length, min, true};
ghost use Rattle.std.specs.Char.{is_ascii_digit};
ghost use Rattle.std.specs.List.{list_all};
ghost use Rattle.scenario.specs.Words.{Gives, after_word, first_word, is_name, is_name_byte, is_number, lettered_at, lettered_in, message_at, name_at, no_id, node_at, number_at, number_in, or_all_at, place_at, range_at, text_at, txn_name_at, value_of, whole, word_at, word_len};

use crate::lines::LineFault;
use mr_base::{Bytes, MsgId, NodeId, RangeId};
use std::alloc::Global;

/// The words don't fit the form of the line.
pub(crate) const NO_FORM: LineFault = LineFault::S(2);

/// The most digits of a number.
const MOST_DIGITS: usize = 16;

/// The longest name.
const LONGEST_NAME: usize = 32;

/// How many bytes stand before the first blank.
#[tactic(auto, using(crate::proofs::WordLemmas::run_is))]
fn word_len(bytes: &[u8]) -> usize
    ensures value { result ≡ word_len bytes.now }
    ensures within { result ≤ length bytes.now }
{
    for (i, byte) in bytes.iter().enumerate() {
        if *byte == b' ' {
            return i;
        }
    }
    bytes.len()
}

/// The bytes before the first blank, and what follows them.
pub(crate) fn split_word(text: &[u8]) -> (&[u8], &[u8])
    ensures word { result.0.now ≡ first_word text.now }
    ensures rest { result.1.now ≡ after_word text.now }
{
    text.split_at(word_len(text))
}

/// All that follows the one blank.
pub(crate) fn text(rest: &[u8]) -> Result<&[u8], LineFault>
    ensures { Gives (λ x. x.now) result (text_at rest.now) }
{
    match rest {
        [b' ', text @ ..] => Ok(text),
        _ => Err(NO_FORM),
    }
}

/// The word behind the one blank.
#[tactic(auto, unfolding(crate::specs::Words::word_at))]
pub(crate) fn word(rest: &[u8]) -> Result<(&[u8], &[u8]), LineFault>
    ensures { Gives (λ x. (x.0.now, x.1.now)) result (word_at rest.now) }
{
    let text = text(rest)?;
    Ok(split_word(text))
}

/// The value, where the line ends here.
pub(crate) fn whole<A: Drop>(rest: &[u8], value: A) -> Result<A, LineFault>
    ensures { Gives (λ x. x) result (whole rest.now value) }
{
    match rest {
        [] => Ok(value),
        _ => Err(NO_FORM),
    }
}

/// Whether a word is a number.
#[tactic(auto, unfolding(crate::specs::Words::is_number))]
fn is_number(word: &[u8]) -> bool
    ensures { result ≡ is_number word.now }
{
    if word.is_empty() || word.len() > MOST_DIGITS || !are_digits(word) {
        return false;
    }
    word.len() == 1 || word[0] != b'0'
}

/// Whether all bytes are digits.
fn are_digits(word: &[u8]) -> bool
    ensures { result ≡ list_all is_ascii_digit word.now }
{
    word.iter().all(|b| b.is_ascii_digit())
}

/// What digits stand for.
fn value_of(digits: &[u8]) -> u64
    requires few { length digits.now ≤ 16 }
    requires digits { list_all is_ascii_digit digits.now ≡ true }
    ensures { result ≡ value_of digits.now }
{
    let mut value: u64 = 0;
    for digit in digits {
        value = 10 * value + u64::from(*digit - b'0');
    }
    value
}

/// The number that a word is.
#[tactic(auto, unfolding(crate::specs::Words::number_in, crate::specs::Words::is_number))]
fn number_in(word: &[u8]) -> Result<u64, LineFault>
    ensures { Gives (λ x. x) result (number_in word.now) }
{
    if is_number(word) {
        Ok(value_of(word))
    } else {
        Err(NO_FORM)
    }
}

/// A number.
#[tactic(auto, unfolding(crate::specs::Words::number_at))]
pub(crate) fn number(rest: &[u8]) -> Result<(u64, &[u8]), LineFault>
    ensures { Gives (λ x. (x.0, x.1.now)) result (number_at rest.now) }
{
    let (word, rest) = word(rest)?;
    let number = number_in(word)?;
    Ok((number, rest))
}

/// The number right behind a letter.
fn lettered_in(letter: u8, word: &[u8]) -> Result<u64, LineFault>
    ensures { Gives (λ x. x) result (lettered_in letter word.now) }
{
    match word {
        [first, digits @ ..] if *first == letter => number_in(digits),
        _ => Err(NO_FORM),
    }
}

/// A letter and, right behind it, a number.
#[tactic(auto, unfolding(crate::specs::Words::lettered_at))]
fn lettered(letter: u8, rest: &[u8]) -> Result<(u64, &[u8]), LineFault>
    ensures { Gives (λ x. (x.0, x.1.now)) result (lettered_at letter rest.now) }
{
    let (word, rest) = word(rest)?;
    let number = lettered_in(letter, word)?;
    Ok((number, rest))
}

/// The number of an id: the greatest u32, which none has, stands for all above it.
fn id_of(number: u64) -> u32
    ensures { result ≡ min number no_id }
{
    u32::try_from(number).unwrap_or(u32::MAX)
}

/// A node.
#[tactic(auto, unfolding(crate::specs::Words::node_at))]
pub(crate) fn node(rest: &[u8]) -> Result<(NodeId, &[u8]), LineFault>
    ensures { Gives (λ x. (x.0, x.1.now)) result (node_at rest.now) }
{
    let (number, rest) = lettered(b'n', rest)?;
    Ok((NodeId(id_of(number)), rest))
}

/// A range.
#[tactic(auto, unfolding(crate::specs::Words::range_at))]
pub(crate) fn range(rest: &[u8]) -> Result<(RangeId, &[u8]), LineFault>
    ensures { Gives (λ x. (x.0, x.1.now)) result (range_at rest.now) }
{
    let (number, rest) = lettered(b'r', rest)?;
    Ok((RangeId(id_of(number)), rest))
}

/// A message.
#[tactic(auto, unfolding(crate::specs::Words::message_at))]
pub(crate) fn message(rest: &[u8]) -> Result<(MsgId, &[u8]), LineFault>
    ensures { Gives (λ x. (x.0, x.1.now)) result (message_at rest.now) }
{
    let (number, rest) = lettered(b'm', rest)?;
    Ok((MsgId(number), rest))
}

/// A node, or None for the word `all`.
#[tactic(auto, unfolding(crate::specs::Words::or_all_at))]
pub(crate) fn node_or_all(rest: &[u8]) -> Result<(Option<NodeId>, &[u8]), LineFault>
    ensures { Gives (λ x. (x.0, x.1.now)) result (or_all_at node_at rest.now) }
{
    let (first, after) = word(rest)?;
    if first == b"all".as_slice() {
        return Ok((None, after));
    }
    let (node, rest) = node(rest)?;
    Ok((Some(node), rest))
}

/// A range, or None for the word `all`.
#[tactic(auto, unfolding(crate::specs::Words::or_all_at))]
pub(crate) fn range_or_all(rest: &[u8]) -> Result<(Option<RangeId>, &[u8]), LineFault>
    ensures { Gives (λ x. (x.0, x.1.now)) result (or_all_at range_at rest.now) }
{
    let (first, after) = word(rest)?;
    if first == b"all".as_slice() {
        return Ok((None, after));
    }
    let (range, rest) = range(rest)?;
    Ok((Some(range), rest))
}

/// Whether a byte may stand in a name.
fn is_name_byte(sign: u8, b: u8) -> bool
    ensures { result ≡ is_name_byte sign b }
{
    matches!(b, b'a'..=b'z' | b'0'..=b'9') || b == sign
}

/// Whether all bytes may stand in a name.
fn are_name_bytes(sign: u8, word: &[u8]) -> bool
    ensures { result ≡ list_all (is_name_byte sign) word.now }
{
    word.iter().all(|b| is_name_byte(sign, *b))
}

/// Whether a word is a name. `sign` may stand in it besides letters and digits.
#[tactic(auto, unfolding(crate::specs::Words::is_name))]
fn is_name(sign: u8, word: &[u8]) -> bool
    ensures { result ≡ is_name sign word.now }
{
    let letter = matches!(word, [b'a'..=b'z', ..]);
    letter && word.len() <= LONGEST_NAME && are_name_bytes(sign, word)
}

/// A name.
#[tactic(auto, unfolding(crate::specs::Words::name_at))]
fn name(alloc: Global, sign: u8, rest: &[u8]) -> Result<(Bytes, &[u8]), LineFault>
    ensures { Gives (λ x. (x.0, x.1.now)) result (name_at sign rest.now) }
{
    let (word, rest) = word(rest)?;
    if !is_name(sign, word) {
        return Err(NO_FORM);
    }
    let name = Bytes::from_slice(alloc, word)?;
    Ok((name, rest))
}

/// The name of a region or a zone.
pub(crate) fn place(alloc: Global, rest: &[u8]) -> Result<(Bytes, &[u8]), LineFault>
    ensures { Gives (λ x. (x.0, x.1.now)) result (place_at rest.now) }
{
    name(alloc, b'-', rest)
}

/// The name of a transaction.
pub(crate) fn txn_name(alloc: Global, rest: &[u8]) -> Result<(Bytes, &[u8]), LineFault>
    ensures { Gives (λ x. (x.0, x.1.now)) result (txn_name_at rest.now) }
{
    name(alloc, b'_', rest)
}
