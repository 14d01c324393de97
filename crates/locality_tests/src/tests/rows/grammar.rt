//! Pairs of which one byte was changed are read exactly where the grammar of pairs has them.

use super::drawn::{Draws, THREE, drawn_row};
use super::{pair_of, read};
use crate::tests::made_tables::{catalog_with, table_in};
use descriptors::Table;
use mr_base::{Bytes, Memory, Pair};
use region_sql::ColumnType;
use std::alloc::Global;
use std::test::Fail;

/// The part that a column has in a key, read off the front of a row's value, and what follows it there.
type Part<'a> = Option<(Vec<u8>, &'a [u8])>;

/// Eight bytes: in a key the sign is turned over.
fn int_part(alloc: Global, bytes: &[u8]) -> Result<Part<'_>, Memory> {
    let [sign, others @ ..] = bytes else {
        return Ok(None);
    };
    if others.len() < 7 {
        return Ok(None);
    }
    let (others, rest) = others.split_at(7);
    let mut part = vec![in alloc; *sign ^ 0x80]?;
    part.extend_from_slice(others)?;
    Ok(Some((part, rest)))
}

/// A text in a key: a zero is followed by 255, and the text by 0 and 1.
fn escaped(alloc: Global, text: &[u8]) -> Result<Vec<u8>, Memory> {
    let mut part = Vec::new(alloc);
    for b in text {
        part.push(*b)?;
        if *b == 0 {
            part.push(255)?;
        }
    }
    part.extend_from_slice(&[0, 1])?;
    Ok(part)
}

/// A length in four bytes, then a text of that length in UTF-8.
fn text_part(alloc: Global, bytes: &[u8]) -> Result<Part<'_>, Memory> {
    let [a, b, c, d, rest @ ..] = bytes else {
        return Ok(None);
    };
    let len = u32::from_be_bytes([*a, *b, *c, *d]) as usize;
    if rest.len() < len {
        return Ok(None);
    }
    let (text, rest) = rest.split_at(len);
    if std::str::from_utf8(text).is_err() {
        return Ok(None);
    }
    Ok(Some((escaped(alloc, text)?, rest)))
}

fn bool_part(alloc: Global, bytes: &[u8]) -> Result<Part<'_>, Memory> {
    match bytes {
        [b, rest @ ..] if *b < 2 => Ok(Some((vec![in alloc; *b]?, rest))),
        _ => Ok(None),
    }
}

/// A column begins with the mark of its type.
fn column_part(alloc: Global, ty: ColumnType, bytes: &[u8]) -> Result<Part<'_>, Memory> {
    match (ty, bytes) {
        (ColumnType::Int, [1, rest @ ..]) => int_part(alloc, rest),
        (ColumnType::String, [2, rest @ ..]) => text_part(alloc, rest),
        (ColumnType::Bool, [3, rest @ ..]) => bool_part(alloc, rest),
        _ => Ok(None),
    }
}

/// The parts that a row's columns have in keys, where the value holds exactly these columns.
fn parts_of(alloc: Global, t: &Table, value: &[u8]) -> Result<Option<Vec<Vec<u8>>>, Memory> {
    let mut parts = Vec::new(alloc);
    let mut rest = value;
    for column in t.columns.as_slice() {
        match column_part(alloc, column.1, rest)? {
            None => return Ok(None),
            Some((part, after)) => {
                parts.push(part)?;
                rest = after;
            }
        }
    }
    Ok(if rest.is_empty() { Some(parts) } else { None })
}

/// Whether a pair is one of a row of the table, by the grammar of pairs.
fn is_pair(alloc: Global, t: &Table, pair: &Pair) -> Result<bool, Memory> {
    let Some(parts) = parts_of(alloc, t, pair.value.as_slice())? else {
        return Ok(false);
    };
    let mut key = vec![in alloc; 0]?;
    for place in t.key.as_slice() {
        if let Some(part) = parts.get(*place) {
            key.extend_from_slice(part)?;
        }
    }
    Ok(key.as_slice() == pair.key.as_slice())
}

/// What is read of a pair is a row with this pair, and nothing is read exactly where the grammar has no such
/// pair.
fn is_read_by_the_grammar(alloc: Global, t: &Table, pair: &Pair) -> Result<bool, Fail> {
    let Some(row) = read(alloc, t, pair)? else {
        return Ok(!is_pair(alloc, t, pair)?);
    };
    match pair_of(alloc, t, &row)? {
        None => Ok(false),
        Some(again) => Ok(
            again.key.as_slice() == pair.key.as_slice()
                && again.value.as_slice() == pair.value.as_slice()
                && is_pair(alloc, t, pair)?,
        ),
    }
}

/// The bytes with one of them changed.
fn changed(alloc: Global, bytes: &[u8], place: usize, by: u8) -> Result<Bytes, Memory> {
    let mut copy = Vec::new(alloc);
    for (i, b) in bytes.iter().enumerate() {
        copy.push(if i == place { *b ^ by } else { *b })?;
    }
    Ok(Bytes::from_vec(copy))
}

/// How many of the pairs with one changed byte are read by the grammar.
fn read_by_the_grammar(alloc: Global, t: &Table, pair: &Pair, by: u8) -> Result<usize, Fail> {
    let (key, value) = (pair.key.as_slice(), pair.value.as_slice());
    let mut count = 0usize;
    for place in 0..key.len() {
        let pair = Pair {
            key: changed(alloc, key, place, by)?,
            value: Bytes::from_slice(alloc, value)?,
        };
        count = count.saturating_add(usize::from(is_read_by_the_grammar(alloc, t, &pair)?));
    }
    for place in 0..value.len() {
        let pair = Pair {
            key: Bytes::from_slice(alloc, key)?,
            value: changed(alloc, value, place, by)?,
        };
        count = count.saturating_add(usize::from(is_read_by_the_grammar(alloc, t, &pair)?));
    }
    Ok(count)
}

/// Whether each byte of a drawn pair may be changed.
fn each_change_is_seen(alloc: Global, t: &Table, draws: &mut Draws) -> Result<bool, Fail> {
    let row = drawn_row(alloc, draws)?;
    let Some(pair) = pair_of(alloc, t, &row)? else {
        return Ok(false);
    };
    let bytes = pair
        .key
        .as_slice()
        .len()
        .saturating_add(pair.value.as_slice().len());
    let by = 1 << (draws.next() % 8);
    Ok(
        is_read_by_the_grammar(alloc, t, &pair)?
            && read_by_the_grammar(alloc, t, &pair, by)? == bytes,
    )
}

#[test]
fn each_byte_of_twenty_pairs_is_changed(rt: HostRuntime) -> Result<(), Fail> {
    let catalog = catalog_with(rt.alloc(), 0, THREE)?;
    let mut draws = Draws(2);
    for drawn in 0..20 {
        let table = table_in(&catalog)?;
        assert!(rt;
            each_change_is_seen(rt.alloc(), table, &mut draws)?,
            "pair {drawn}"
        );
    }
    Ok(())
}
