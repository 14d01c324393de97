//! Lists of row statements, and single statements of both kinds.

ghost use Rattle.std.specs.Prelude.{◌≡◌};
ghost use Rattle.region_sql.specs.Grammar.{row_statement, row_statements, region_statement, statement};
ghost use Rattle.region_sql.specs.Reading.{Gives, parse, whole, begins, first};

use crate::region_readers::region_statement_of;
use crate::row_readers::row_statement_of;
use crate::statements::{List, Statement};
use crate::stuck::Stuck;
use crate::token_readers::after_sign;
use crate::tokens::{Key, Sign, Token};
use mr_base::ListOf;
use std::alloc::Global;

/// Whether a row statement comes next.
#[tactic(auto, using(crate::proofs::Firsts::of_row_statement))]
fn begins_with_statement(tokens: &[Token]) -> bool
    ensures { result ≡ begins (first row_statement) tokens.now }
{
    matches!(
        tokens,
        [
            Token::Key(Key::Insert | Key::Select | Key::Update | Key::Delete),
            ..
        ]
    )
}

/// Row statements with `;` between each two and maybe one after the last, as many as there are.
fn statements_of(alloc: Global, tokens: &[Token]) -> Result<(List, &[Token]), Stuck>
    ensures { Gives (λ x. (x.0, x.1.now)) result (parse row_statements tokens.now) }
{
    let mut statements = Vec::new(alloc);
    let mut rest = tokens;
    for _ in 0..tokens.len() {
        let (statement, after) = row_statement_of(alloc, rest)?;
        statements.push(statement)?;
        let Some(more) = after_sign(after, Sign::Semicolon) else {
            return Ok((ListOf::from_vec(statements), after));
        };
        if !begins_with_statement(more) {
            return Ok((ListOf::from_vec(statements), more));
        }
        rest = more;
    }
    Err(Stuck::At(rest.len()))
}

/// The row statements that all of the tokens are.
pub(crate) fn list_of_tokens(alloc: Global, tokens: &[Token]) -> Result<List, Stuck>
    ensures { Gives (λ list. list) result (whole row_statements tokens.now) }
{
    let (list, rest) = statements_of(alloc, tokens)?;
    if !rest.is_empty() {
        return Err(Stuck::At(rest.len()));
    }
    Ok(list)
}

/// Whether a region statement comes next.
#[tactic(auto, using(crate::proofs::Firsts::of_region_statement))]
fn begins_with_region_statement(tokens: &[Token]) -> bool
    ensures { result ≡ begins (first region_statement) tokens.now }
{
    matches!(
        tokens,
        [Token::Key(Key::Create | Key::Alter | Key::Use), ..]
    )
}

/// A statement of either kind, and the tokens after it.
#[tactic(auto, unfolding(crate::specs::Grammar::statement))]
fn statement_of(alloc: Global, tokens: &[Token]) -> Result<(Statement, &[Token]), Stuck>
    ensures { Gives (λ x. (x.0, x.1.now)) result (parse statement tokens.now) }
{
    if begins_with_region_statement(tokens) {
        let (statement, rest) = region_statement_of(alloc, tokens)?;
        return Ok((Statement::Region(statement), rest));
    }
    let (statement, rest) = row_statement_of(alloc, tokens)?;
    Ok((Statement::Row(statement), rest))
}

/// The statement that all of the tokens are.
pub(crate) fn statement_of_tokens(alloc: Global, tokens: &[Token]) -> Result<Statement, Stuck>
    ensures { Gives (λ s. s) result (whole statement tokens.now) }
{
    let (statement, rest) = statement_of(alloc, tokens)?;
    if !rest.is_empty() {
        return Err(Stuck::At(rest.len()));
    }
    Ok(statement)
}
