//! Region statements, row statements and their values.
#![tactic(auto)]

mod byte_classes;
mod databases;
mod lexer;
mod lexing;
mod listing;
mod lists;
mod literals;
mod numbers;
mod one_column_forms;
mod parse;
mod region_readers;
mod region_statements;
mod row_readers;
mod row_statements;
mod statements;
mod stuck;
mod token_readers;
mod tokens;
mod words;

pub use literals::list_texts_are_utf8;
pub use one_column_forms::{OneColumnStatement, int_of, one_column_statement};
pub use parse::{one_meaning, parse_list, parse_statement};
pub use region_statements::{ColumnKey, ColumnType, Goal, Item, Locality, RegionStatement};
pub use row_statements::{
    Comparison, Literal, Literals, RowStatement, Target, Term, Value, Wanted,
};
pub use statements::{List, ParseFault, Statement};
pub use tokens::{Key, Sign, Soft, Token};
