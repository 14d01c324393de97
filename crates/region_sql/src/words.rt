//! The tokens of words.

ghost use Rattle.std.specs.Prelude.{◌≡◌, map};
ghost use Rattle.std.specs.Map.{lookup};
ghost use Rattle.std.specs.Str.{bytes_eq};
ghost use Rattle.region_sql.specs.Lexing.{key_of, type_of, bool_of, soft_of, count_or_name, word_token};

use crate::byte_classes::opens;
use crate::region_statements::ColumnType;
use crate::tokens::{Key, Soft, Token};
use mr_base::Bytes;

/// The words that are key words wherever they stand.
const KEY_WORDS: [(&[u8], Key); 33] = [
    (b"add", Key::Add),
    (b"alter", Key::Alter),
    (b"and", Key::And),
    (b"by", Key::By),
    (b"create", Key::Create),
    (b"database", Key::Database),
    (b"delete", Key::Delete),
    (b"drop", Key::Drop),
    (b"failure", Key::Failure),
    (b"from", Key::From),
    (b"global", Key::Global),
    (b"in", Key::In),
    (b"insert", Key::Insert),
    (b"into", Key::Into),
    (b"key", Key::Key),
    (b"locality", Key::Locality),
    (b"not", Key::Not),
    (b"null", Key::Null),
    (b"primary", Key::Primary),
    (b"region", Key::Region),
    (b"regional", Key::Regional),
    (b"regions", Key::Regions),
    (b"row", Key::Row),
    (b"select", Key::Select),
    (b"set", Key::Set),
    (b"survive", Key::Survive),
    (b"table", Key::Table),
    (b"unique", Key::Unique),
    (b"update", Key::Update),
    (b"use", Key::Use),
    (b"values", Key::Values),
    (b"where", Key::Where),
    (b"zone", Key::Zone),
];

/// The words for the types of columns.
const TYPE_WORDS: [(&[u8], ColumnType); 6] = [
    (b"int", ColumnType::Int),
    (b"int8", ColumnType::Int),
    (b"bigint", ColumnType::Int),
    (b"string", ColumnType::String),
    (b"text", ColumnType::String),
    (b"bool", ColumnType::Bool),
];

const BOOL_WORDS: [(&[u8], bool); 2] = [(b"true", true), (b"false", false)];

const SOFT_WORDS: [(&[u8], Soft); 3] = [
    (b"default", Soft::Default),
    (b"placement", Soft::Placement),
    (b"restricted", Soft::Restricted),
];

/// What the word stands for in this table.
fn look_up<T: Copy>(words: &[(&[u8], T)], word: &[u8]) -> Option<T>
    ensures { result ≡ lookup (bytes_eq word.now) (map (λ w. (w.0.now, w.1)) words.now) }
{
    for entry in words {
        if word == entry.0 {
            return Some(entry.1);
        }
    }
    None
}

#[tactic(auto, unfolding(crate::specs::Lexing::key_of))]
fn key_of(word: &[u8]) -> Option<Key>
    ensures { result ≡ key_of word.now }
{
    look_up(&KEY_WORDS, word)
}

/// The type of a column that a word names.
#[tactic(auto, unfolding(crate::specs::Lexing::type_of))]
fn type_of(word: &[u8]) -> Option<ColumnType>
    ensures { result ≡ type_of word.now }
{
    look_up(&TYPE_WORDS, word)
}

#[tactic(auto, unfolding(crate::specs::Lexing::bool_of))]
fn bool_of(word: &[u8]) -> Option<bool>
    ensures { result ≡ bool_of word.now }
{
    look_up(&BOOL_WORDS, word)
}

#[tactic(auto, unfolding(crate::specs::Lexing::soft_of))]
fn soft_of(word: &[u8]) -> Option<Soft>
    ensures { result ≡ soft_of word.now }
{
    look_up(&SOFT_WORDS, word)
}

/// `count` before `(`, or else a name.
#[tactic(auto, unfolding(crate::specs::Lexing::count_or_name))]
fn count_or_name(word: Vec<u8>, rest: &[u8]) -> Token
    ensures { result ≡ count_or_name word.items rest.now }
{
    if word.as_slice() == b"count".as_slice() && opens(rest) {
        return Token::Key(Key::Count);
    }
    Token::Name(Bytes::from_vec(word))
}

/// The token of a word in lower case, before what follows it.
#[tactic(auto, unfolding(crate::specs::Lexing::word_token))]
pub(crate) fn word_token(word: Vec<u8>, rest: &[u8]) -> Token
    ensures { result ≡ word_token word.items rest.now }
{
    if let Some(key) = key_of(&word) {
        return Token::Key(key);
    }
    if let Some(ty) = type_of(&word) {
        return Token::Type(ty);
    }
    if let Some(truth) = bool_of(&word) {
        return Token::Bool(truth);
    }
    if let Some(soft) = soft_of(&word) {
        return Token::Soft(soft);
    }
    count_or_name(word, rest)
}
