//! Statements and lists from their texts.

ghost use Rattle.std.specs.Prelude.{◌≡◌, ℕ, ◌<◌, ◌≤◌, List, length, IfOk, IsErrOf};
ghost use Rattle.region_sql.specs.Grammar.{IsListText, IsStatementText, row_statements, statement};
ghost use Rattle.region_sql.specs.Places.{IsPlace};
ghost use Rattle.region_sql.specs.Faults.{IfSyntax};
ghost use Rattle.region_sql.specs.declared.row_statements.RowStatement.{RowStatement as AnyRowStatement};
ghost use Rattle.region_sql.specs.declared.statements.ParseFault.TheVariants.{TooMany};
ghost use Rattle.region_sql.specs.declared.statements.Statement.{Statement as AnyStatement};

use crate::lexing::lex;
use crate::lists::{list_of_tokens, statement_of_tokens};
use crate::statements::{List, ParseFault, Statement};
use crate::stuck::Stuck;
use std::alloc::Global;

/// The most statements of a list.
const MOST_STATEMENTS: usize = 64;

/// Reads a list of row statements with `;` between each two and maybe one after the last.
///
/// # Errors
///
/// `Syntax` where the text is no list, at the place just after the longest run of its tokens with
/// which a list begins. `TooMany` where it is a list of more than 64 statements.
pub fn parse_list(alloc: Global, s: &[u8]) -> Result<List, ParseFault>
    ensures value { IfOk result (λ list. IsListText s.now list) }
    ensures few { IfOk result (λ list. length list ≤ 64) }
    ensures too_many { IsErrOf result TooMany → (list : List AnyRowStatement) × IsListText s.now list × (64 < length list) }
    ensures syntax { IfSyntax result (λ at. (list : List AnyRowStatement) → IsListText s.now list → ⊥) }
    ensures place { IfSyntax result (λ at. IsPlace row_statements s.now at) }
{
    let lexed = lex(alloc, s)?;
    match list_of_tokens(alloc, &lexed.tokens) {
        Ok(list) => {
            if !lexed.is_whole {
                return Err(ParseFault::Syntax { at: lexed.place(0) });
            }
            if list.len() > MOST_STATEMENTS {
                return Err(ParseFault::TooMany);
            }
            Ok(list)
        }
        Err(Stuck::At(left)) => Err(ParseFault::Syntax {
            at: lexed.place(left),
        }),
        Err(Stuck::Memory) => Err(ParseFault::Memory),
    }
}

/// Reads a statement of either kind.
///
/// # Errors
///
/// `Syntax` where the text is no statement, at the place just after the longest run of its tokens with
/// which a statement begins.
pub fn parse_statement(alloc: Global, s: &[u8]) -> Result<Statement, ParseFault>
    ensures value { IfOk result (λ read. IsStatementText s.now read) }
    ensures one { IsErrOf result TooMany → ⊥ }
    ensures syntax { IfSyntax result (λ at. (other : AnyStatement) → IsStatementText s.now other → ⊥) }
    ensures place { IfSyntax result (λ at. IsPlace statement s.now at) }
{
    let lexed = lex(alloc, s)?;
    match statement_of_tokens(alloc, &lexed.tokens) {
        Ok(statement) => {
            if !lexed.is_whole {
                return Err(ParseFault::Syntax { at: lexed.place(0) });
            }
            Ok(statement)
        }
        Err(Stuck::At(left)) => Err(ParseFault::Syntax {
            at: lexed.place(left),
        }),
        Err(Stuck::Memory) => Err(ParseFault::Memory),
    }
}

/// No text is two lists, and none is two statements.
pub fn one_meaning()
    ensures list { (text : List ℕ) (a b : List AnyRowStatement) → IsListText text a → IsListText text b → a ≡ b }
    ensures statement { (text : List ℕ) (a b : AnyStatement) → IsStatementText text a → IsStatementText text b → a ≡ b }
{}
