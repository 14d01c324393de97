//! Statements from their texts.

ghost use Rattle.std.specs.Prelude.{IfOk, IfSome};
ghost use Rattle.descriptors.specs.Changes.{NewNamesAreUtf8};
ghost use Rattle.zone_report.specs.Statements.{IsRead};

use descriptors::new_names_are_utf8;
use mr_base::Memory;
use region_sql::{ParseFault, RegionStatement, Statement, one_meaning, parse_statement};
use std::alloc::Global;

/// The region statement that a text is, if it is one.
pub(crate) fn read(alloc: Global, text: &[u8]) -> Result<Option<RegionStatement>, Memory>
    ensures read { IfOk result (IsRead text.now) }
    ensures names { IfOk result (λ s. IfSome s NewNamesAreUtf8) }
{
    one_meaning();
    new_names_are_utf8();
    match parse_statement(alloc, text) {
        Ok(Statement::Region(s)) => Ok(Some(s)),
        Ok(Statement::Row(_)) => Ok(None),
        Err(ParseFault::Syntax { at: _ }) => Ok(None),
        Err(ParseFault::TooMany) => unreachable!(),
        Err(ParseFault::Memory) => Err(Memory),
    }
}
