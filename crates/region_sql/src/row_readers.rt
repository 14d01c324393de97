//! Readers of row statements. Each answers what it read and the tokens after it.

ghost use Rattle.std.specs.Prelude.{◌≡◌};
ghost use Rattle.region_sql.specs.Grammar.{name, names, literal, literal_list, row, row_list, term, terms, where_terms, change, value, target, targets, wanted, insert, select, update, delete, row_statement};
ghost use Rattle.region_sql.specs.Reading.{Gives, parse, begins, first};

use crate::listing::{Listed, list_of};
use crate::row_statements::{Literal, Literals, RowStatement, Target, Term, Value, Wanted};
use crate::stuck::Stuck;
use crate::token_readers::{
    after_key, after_sign, begins_with_key, begins_with_literal, begins_with_sign, comparison_of,
    integer_of, literal_of, name_of, pass_equals, pass_key, pass_sign, taken_of,
};
use crate::tokens::{Key, Sign, Token};
use mr_base::{Bytes, ListOf};
use std::alloc::Global;

impl Listed for Bytes {
    ghost use Rattle.region_sql.specs.Tokens.{sign_number};
    ghost use Rattle.region_sql.specs.declared.tokens.Sign.TheVariants.{Comma};

    ghost separator = { sign_number Comma };

    ghost reading = { λ tokens. parse name tokens };

    fn read(alloc: Global, tokens: &[Token]) -> Result<(Bytes, &[Token]), Stuck> {
        name_of(alloc, tokens)
    }

    fn after_separator(tokens: &[Token]) -> Option<&[Token]> {
        after_sign(tokens, Sign::Comma)
    }
}

impl Listed for Literal {
    ghost use Rattle.region_sql.specs.Tokens.{sign_number};
    ghost use Rattle.region_sql.specs.declared.tokens.Sign.TheVariants.{Comma};

    ghost separator = { sign_number Comma };

    ghost reading = { λ tokens. parse literal tokens };

    fn read(alloc: Global, tokens: &[Token]) -> Result<(Literal, &[Token]), Stuck> {
        literal_of(alloc, tokens)
    }

    fn after_separator(tokens: &[Token]) -> Option<&[Token]> {
        after_sign(tokens, Sign::Comma)
    }
}

impl Listed for Literals {
    ghost use Rattle.region_sql.specs.Tokens.{sign_number};
    ghost use Rattle.region_sql.specs.declared.tokens.Sign.TheVariants.{Comma};

    ghost separator = { sign_number Comma };

    ghost reading = { λ tokens. parse row tokens };

    fn read(alloc: Global, tokens: &[Token]) -> Result<(Literals, &[Token]), Stuck> {
        row_of(alloc, tokens)
    }

    fn after_separator(tokens: &[Token]) -> Option<&[Token]> {
        after_sign(tokens, Sign::Comma)
    }
}

impl Listed for Term {
    ghost use Rattle.region_sql.specs.Tokens.{key_number};
    ghost use Rattle.region_sql.specs.declared.tokens.Key.TheVariants.{And};

    ghost separator = { key_number And };

    ghost reading = { λ tokens. parse term tokens };

    fn read(alloc: Global, tokens: &[Token]) -> Result<(Term, &[Token]), Stuck> {
        term_of(alloc, tokens)
    }

    fn after_separator(tokens: &[Token]) -> Option<&[Token]> {
        after_key(tokens, Key::And)
    }
}

impl Listed for Target {
    ghost use Rattle.region_sql.specs.Tokens.{sign_number};
    ghost use Rattle.region_sql.specs.declared.tokens.Sign.TheVariants.{Comma};

    ghost separator = { sign_number Comma };

    ghost reading = { λ tokens. parse target tokens };

    fn read(alloc: Global, tokens: &[Token]) -> Result<(Target, &[Token]), Stuck> {
        target_of(alloc, tokens)
    }

    fn after_separator(tokens: &[Token]) -> Option<&[Token]> {
        after_sign(tokens, Sign::Comma)
    }
}

/// Names with commas.
#[tactic(auto, unfolding(crate::specs::Grammar::names))]
pub(crate) fn names_of(alloc: Global, tokens: &[Token]) -> Result<(ListOf<Bytes>, &[Token]), Stuck>
    ensures { Gives (λ x. (x.0, x.1.now)) result (parse names tokens.now) }
{
    list_of(alloc, tokens)
}

/// A condition: name op literal.
#[tactic(auto, unfolding(crate::specs::Grammar::term))]
fn term_of(alloc: Global, tokens: &[Token]) -> Result<(Term, &[Token]), Stuck>
    ensures { Gives (λ x. (x.0, x.1.now)) result (parse term tokens.now) }
{
    let (column, rest) = name_of(alloc, tokens)?;
    let (op, rest) = comparison_of(rest)?;
    let (literal, rest) = literal_of(alloc, rest)?;
    Ok((
        Term {
            column,
            op,
            literal,
        },
        rest,
    ))
}

#[tactic(auto, unfolding(crate::specs::Grammar::terms))]
fn terms_of(alloc: Global, tokens: &[Token]) -> Result<(ListOf<Term>, &[Token]), Stuck>
    ensures { Gives (λ x. (x.0, x.1.now)) result (parse terms tokens.now) }
{
    list_of(alloc, tokens)
}

/// The conditions of WHERE, none where it is left out.
#[tactic(auto, unfolding(crate::specs::Grammar::where_terms))]
fn where_of(alloc: Global, tokens: &[Token]) -> Result<(ListOf<Term>, &[Token]), Stuck>
    ensures { Gives (λ x. (x.0, x.1.now)) result (parse where_terms tokens.now) }
{
    if !begins_with_key(tokens, Key::Where) {
        return Ok((ListOf::new(alloc), tokens));
    }
    let rest = pass_key(tokens, Key::Where)?;
    terms_of(alloc, rest)
}

#[tactic(auto, unfolding(crate::specs::Grammar::literal_list))]
fn literals_of(alloc: Global, tokens: &[Token]) -> Result<(Literals, &[Token]), Stuck>
    ensures { Gives (λ x. (x.0, x.1.now)) result (parse literal_list tokens.now) }
{
    list_of(alloc, tokens)
}

/// One row of VALUES.
#[tactic(auto, unfolding(crate::specs::Grammar::row))]
fn row_of(alloc: Global, tokens: &[Token]) -> Result<(Literals, &[Token]), Stuck>
    ensures { Gives (λ x. (x.0, x.1.now)) result (parse row tokens.now) }
{
    let rest = pass_sign(tokens, Sign::Open)?;
    let (literals, rest) = literals_of(alloc, rest)?;
    let rest = pass_sign(rest, Sign::Close)?;
    Ok((literals, rest))
}

#[tactic(auto, unfolding(crate::specs::Grammar::row_list))]
fn rows_of(alloc: Global, tokens: &[Token]) -> Result<(ListOf<Literals>, &[Token]), Stuck>
    ensures { Gives (λ x. (x.0, x.1.now)) result (parse row_list tokens.now) }
{
    list_of(alloc, tokens)
}

/// What a column's old value is changed by.
#[derive(Clone, Copy)]
enum Change {
    Plus(i128),
    Minus(i128),
}

/// + integer or - integer
#[tactic(auto, unfolding(crate::specs::Grammar::change))]
fn change_of(tokens: &[Token]) -> Result<(Change, &[Token]), Stuck>
    ensures { Gives (λ x. (x.0, x.1.now)) result (parse change tokens.now) }
{
    if begins_with_sign(tokens, Sign::Plus) {
        let rest = pass_sign(tokens, Sign::Plus)?;
        let (by, rest) = integer_of(rest)?;
        return Ok((Change::Plus(by), rest));
    }
    if begins_with_sign(tokens, Sign::Minus) {
        let rest = pass_sign(tokens, Sign::Minus)?;
        let (by, rest) = integer_of(rest)?;
        return Ok((Change::Minus(by), rest));
    }
    let (by, rest) = taken_of(tokens)?;
    Ok((Change::Minus(by), rest))
}

/// literal, name, name + integer or name - integer
#[tactic(auto, unfolding(crate::specs::Grammar::value))]
fn value_of(alloc: Global, tokens: &[Token]) -> Result<(Value, &[Token]), Stuck>
    ensures { Gives (λ x. (x.0, x.1.now)) result (parse value tokens.now) }
{
    if begins_with_literal(tokens) {
        let (literal, rest) = literal_of(alloc, tokens)?;
        return Ok((Value::Literal(literal), rest));
    }
    let (column, rest) = name_of(alloc, tokens)?;
    if !begins_with_change(rest) {
        return Ok((Value::Column(column), rest));
    }
    let (change, rest) = change_of(rest)?;
    let value = match change {
        Change::Plus(by) => Value::Plus { column, by },
        Change::Minus(by) => Value::Minus { column, by },
    };
    Ok((value, rest))
}

/// Whether a change of a column comes next.
#[tactic(auto, unfolding(crate::specs::Grammar::change, crate::specs::Grammar::taken_away))]
fn begins_with_change(tokens: &[Token]) -> bool
    ensures { result ≡ begins (first change) tokens.now }
{
    matches!(
        tokens,
        [
            Token::Sign(Sign::Plus | Sign::Minus) | Token::Negative { .. },
            ..
        ]
    )
}

/// name = value
#[tactic(auto, unfolding(crate::specs::Grammar::target))]
fn target_of(alloc: Global, tokens: &[Token]) -> Result<(Target, &[Token]), Stuck>
    ensures { Gives (λ x. (x.0, x.1.now)) result (parse target tokens.now) }
{
    let (column, rest) = name_of(alloc, tokens)?;
    let rest = pass_equals(rest)?;
    let (value, rest) = value_of(alloc, rest)?;
    Ok((Target { column, value }, rest))
}

#[tactic(auto, unfolding(crate::specs::Grammar::targets))]
fn targets_of(alloc: Global, tokens: &[Token]) -> Result<(ListOf<Target>, &[Token]), Stuck>
    ensures { Gives (λ x. (x.0, x.1.now)) result (parse targets tokens.now) }
{
    list_of(alloc, tokens)
}

/// What SELECT answers: *, count(*) or names.
#[tactic(auto, unfolding(crate::specs::Grammar::wanted))]
fn wanted_of(alloc: Global, tokens: &[Token]) -> Result<(Wanted, &[Token]), Stuck>
    ensures { Gives (λ x. (x.0, x.1.now)) result (parse wanted tokens.now) }
{
    if begins_with_sign(tokens, Sign::Star) {
        let rest = pass_sign(tokens, Sign::Star)?;
        return Ok((Wanted::All, rest));
    }
    if begins_with_key(tokens, Key::Count) {
        let rest = pass_key(tokens, Key::Count)?;
        let rest = pass_sign(rest, Sign::Open)?;
        let rest = pass_sign(rest, Sign::Star)?;
        let rest = pass_sign(rest, Sign::Close)?;
        return Ok((Wanted::Count, rest));
    }
    let (columns, rest) = names_of(alloc, tokens)?;
    Ok((Wanted::Columns(columns), rest))
}

#[tactic(auto, unfolding(crate::specs::Grammar::insert))]
fn insert_of(alloc: Global, tokens: &[Token]) -> Result<(RowStatement, &[Token]), Stuck>
    ensures { Gives (λ x. (x.0, x.1.now)) result (parse insert tokens.now) }
{
    let rest = pass_key(tokens, Key::Insert)?;
    let rest = pass_key(rest, Key::Into)?;
    let (table, rest) = name_of(alloc, rest)?;
    let rest = pass_sign(rest, Sign::Open)?;
    let (columns, rest) = names_of(alloc, rest)?;
    let rest = pass_sign(rest, Sign::Close)?;
    let rest = pass_key(rest, Key::Values)?;
    let (rows, rest) = rows_of(alloc, rest)?;
    let statement = RowStatement::Insert {
        table,
        columns,
        rows,
    };
    Ok((statement, rest))
}

#[tactic(auto, unfolding(crate::specs::Grammar::select))]
fn select_of(alloc: Global, tokens: &[Token]) -> Result<(RowStatement, &[Token]), Stuck>
    ensures { Gives (λ x. (x.0, x.1.now)) result (parse select tokens.now) }
{
    let rest = pass_key(tokens, Key::Select)?;
    let (wanted, rest) = wanted_of(alloc, rest)?;
    let rest = pass_key(rest, Key::From)?;
    let (table, rest) = name_of(alloc, rest)?;
    let (terms, rest) = where_of(alloc, rest)?;
    let statement = RowStatement::Select {
        table,
        wanted,
        terms,
    };
    Ok((statement, rest))
}

#[tactic(auto, unfolding(crate::specs::Grammar::update))]
fn update_of(alloc: Global, tokens: &[Token]) -> Result<(RowStatement, &[Token]), Stuck>
    ensures { Gives (λ x. (x.0, x.1.now)) result (parse update tokens.now) }
{
    let rest = pass_key(tokens, Key::Update)?;
    let (table, rest) = name_of(alloc, rest)?;
    let rest = pass_key(rest, Key::Set)?;
    let (targets, rest) = targets_of(alloc, rest)?;
    let (terms, rest) = where_of(alloc, rest)?;
    let statement = RowStatement::Update {
        table,
        targets,
        terms,
    };
    Ok((statement, rest))
}

#[tactic(auto, unfolding(crate::specs::Grammar::delete))]
fn delete_of(alloc: Global, tokens: &[Token]) -> Result<(RowStatement, &[Token]), Stuck>
    ensures { Gives (λ x. (x.0, x.1.now)) result (parse delete tokens.now) }
{
    let rest = pass_key(tokens, Key::Delete)?;
    let rest = pass_key(rest, Key::From)?;
    let (table, rest) = name_of(alloc, rest)?;
    let (terms, rest) = where_of(alloc, rest)?;
    Ok((RowStatement::Delete { table, terms }, rest))
}

/// A row statement.
#[tactic(auto, unfolding(crate::specs::Grammar::row_statement), using(crate::proofs::Firsts::of_insert, crate::proofs::Firsts::of_select, crate::proofs::Firsts::of_update))]
pub(crate) fn row_statement_of(
    alloc: Global,
    tokens: &[Token],
) -> Result<(RowStatement, &[Token]), Stuck>
    ensures { Gives (λ x. (x.0, x.1.now)) result (parse row_statement tokens.now) }
{
    if begins_with_key(tokens, Key::Insert) {
        return insert_of(alloc, tokens);
    }
    if begins_with_key(tokens, Key::Select) {
        return select_of(alloc, tokens);
    }
    if begins_with_key(tokens, Key::Update) {
        return update_of(alloc, tokens);
    }
    delete_of(alloc, tokens)
}
