//! Readers of region statements. Each answers what it read and the tokens after it.

ghost use Rattle.std.specs.Prelude.{◌≡◌};
ghost use Rattle.region_sql.specs.Grammar.{goal, survive, not_null, column_key, column, item, item_list, table_home, locality, new_table, create, restricted, altered_table, alter, used, region_statement};
ghost use Rattle.region_sql.specs.Reading.{Gives, parse};

use crate::databases::{altered_database_of, new_database_of};
use crate::listing::{Listed, list_of};
use crate::region_statements::{ColumnKey, Goal, Item, Locality, RegionStatement};
use crate::row_readers::names_of;
use crate::stuck::Stuck;
use crate::token_readers::{
    after_sign, begins_with_key, begins_with_soft, name_of, pass_key, pass_sign, pass_soft, type_of,
};
use crate::tokens::{Key, Sign, Soft, Token};
use mr_base::ListOf;
use std::alloc::Global;

impl Listed for Item {
    ghost use Rattle.region_sql.specs.Tokens.{sign_number};
    ghost use Rattle.region_sql.specs.declared.tokens.Sign.TheVariants.{Comma};

    ghost separator = { sign_number Comma };

    ghost reading = { λ tokens. parse item tokens };

    fn read(alloc: Global, tokens: &[Token]) -> Result<(Item, &[Token]), Stuck> {
        item_of(alloc, tokens)
    }

    fn after_separator(tokens: &[Token]) -> Option<&[Token]> {
        after_sign(tokens, Sign::Comma)
    }
}

/// ZONE or REGION
#[tactic(auto, unfolding(crate::specs::Grammar::goal))]
fn goal_of(tokens: &[Token]) -> Result<(Goal, &[Token]), Stuck>
    ensures { Gives (λ x. (x.0, x.1.now)) result (parse goal tokens.now) }
{
    if begins_with_key(tokens, Key::Zone) {
        let rest = pass_key(tokens, Key::Zone)?;
        return Ok((Goal::Zone, rest));
    }
    let rest = pass_key(tokens, Key::Region)?;
    Ok((Goal::Region, rest))
}

/// SURVIVE goal FAILURE
#[tactic(auto, unfolding(crate::specs::Grammar::survive))]
pub(crate) fn survive_of(tokens: &[Token]) -> Result<(Goal, &[Token]), Stuck>
    ensures { Gives (λ x. (x.0, x.1.now)) result (parse survive tokens.now) }
{
    let rest = pass_key(tokens, Key::Survive)?;
    let (goal, rest) = goal_of(rest)?;
    let rest = pass_key(rest, Key::Failure)?;
    Ok((goal, rest))
}

/// Whether a column is NOT NULL.
#[tactic(auto, unfolding(crate::specs::Grammar::not_null))]
fn not_null_of(tokens: &[Token]) -> Result<(bool, &[Token]), Stuck>
    ensures { Gives (λ x. (x.0, x.1.now)) result (parse not_null tokens.now) }
{
    if !begins_with_key(tokens, Key::Not) {
        return Ok((false, tokens));
    }
    let rest = pass_key(tokens, Key::Not)?;
    let rest = pass_key(rest, Key::Null)?;
    Ok((true, rest))
}

/// What a column says of keys.
#[tactic(auto, unfolding(crate::specs::Grammar::column_key))]
fn column_key_of(tokens: &[Token]) -> Result<(ColumnKey, &[Token]), Stuck>
    ensures { Gives (λ x. (x.0, x.1.now)) result (parse column_key tokens.now) }
{
    if begins_with_key(tokens, Key::Primary) {
        let rest = pass_key(tokens, Key::Primary)?;
        let rest = pass_key(rest, Key::Key)?;
        return Ok((ColumnKey::Primary, rest));
    }
    if begins_with_key(tokens, Key::Unique) {
        let rest = pass_key(tokens, Key::Unique)?;
        return Ok((ColumnKey::Unique, rest));
    }
    Ok((ColumnKey::Plain, tokens))
}

#[tactic(auto, unfolding(crate::specs::Grammar::column))]
fn column_of(alloc: Global, tokens: &[Token]) -> Result<(Item, &[Token]), Stuck>
    ensures { Gives (λ x. (x.0, x.1.now)) result (parse column tokens.now) }
{
    let (name, rest) = name_of(alloc, tokens)?;
    let (ty, rest) = type_of(rest)?;
    let (not_null, rest) = not_null_of(rest)?;
    let (key, rest) = column_key_of(rest)?;
    Ok((
        Item::Column {
            name,
            ty,
            not_null,
            key,
        },
        rest,
    ))
}

/// An item of CREATE TABLE.
#[tactic(auto, unfolding(crate::specs::Grammar::item))]
fn item_of(alloc: Global, tokens: &[Token]) -> Result<(Item, &[Token]), Stuck>
    ensures { Gives (λ x. (x.0, x.1.now)) result (parse item tokens.now) }
{
    if !begins_with_key(tokens, Key::Primary) {
        return column_of(alloc, tokens);
    }
    let rest = pass_key(tokens, Key::Primary)?;
    let rest = pass_key(rest, Key::Key)?;
    let rest = pass_sign(rest, Sign::Open)?;
    let (columns, rest) = names_of(alloc, rest)?;
    let rest = pass_sign(rest, Sign::Close)?;
    Ok((Item::Key { columns }, rest))
}

#[tactic(auto, unfolding(crate::specs::Grammar::item_list))]
fn items_of(alloc: Global, tokens: &[Token]) -> Result<(ListOf<Item>, &[Token]), Stuck>
    ensures { Gives (λ x. (x.0, x.1.now)) result (parse item_list tokens.now) }
{
    list_of(alloc, tokens)
}

/// Where a REGIONAL BY TABLE table has its home.
#[tactic(auto, unfolding(crate::specs::Grammar::table_home))]
fn table_home_of(alloc: Global, tokens: &[Token]) -> Result<(Locality, &[Token]), Stuck>
    ensures { Gives (λ x. (x.0, x.1.now)) result (parse table_home tokens.now) }
{
    if begins_with_key(tokens, Key::Primary) {
        let rest = pass_key(tokens, Key::Primary)?;
        let rest = pass_key(rest, Key::Region)?;
        return Ok((Locality::InPrimary, rest));
    }
    let (region, rest) = name_of(alloc, tokens)?;
    Ok((Locality::InRegion { region }, rest))
}

#[tactic(auto, unfolding(crate::specs::Grammar::locality))]
fn locality_of(alloc: Global, tokens: &[Token]) -> Result<(Locality, &[Token]), Stuck>
    ensures { Gives (λ x. (x.0, x.1.now)) result (parse locality tokens.now) }
{
    if begins_with_key(tokens, Key::Global) {
        let rest = pass_key(tokens, Key::Global)?;
        return Ok((Locality::Global, rest));
    }
    let rest = pass_key(tokens, Key::Regional)?;
    let rest = pass_key(rest, Key::By)?;
    if begins_with_key(rest, Key::Row) {
        let rest = pass_key(rest, Key::Row)?;
        return Ok((Locality::ByRow, rest));
    }
    let rest = pass_key(rest, Key::Table)?;
    let rest = pass_key(rest, Key::In)?;
    table_home_of(alloc, rest)
}

#[tactic(auto, unfolding(crate::specs::Grammar::new_table))]
fn new_table_of(alloc: Global, tokens: &[Token]) -> Result<(RegionStatement, &[Token]), Stuck>
    ensures { Gives (λ x. (x.0, x.1.now)) result (parse new_table tokens.now) }
{
    let rest = pass_key(tokens, Key::Table)?;
    let (name, rest) = name_of(alloc, rest)?;
    let rest = pass_sign(rest, Sign::Open)?;
    let (items, rest) = items_of(alloc, rest)?;
    let rest = pass_sign(rest, Sign::Close)?;
    if !begins_with_key(rest, Key::Locality) {
        let locality = None;
        return Ok((
            RegionStatement::CreateTable {
                name,
                items,
                locality,
            },
            rest,
        ));
    }
    let rest = pass_key(rest, Key::Locality)?;
    let (locality, rest) = locality_of(alloc, rest)?;
    let locality = Some(locality);
    Ok((
        RegionStatement::CreateTable {
            name,
            items,
            locality,
        },
        rest,
    ))
}

#[tactic(auto, unfolding(crate::specs::Grammar::create), using(crate::proofs::Firsts::of_new_database))]
fn create_of(alloc: Global, tokens: &[Token]) -> Result<(RegionStatement, &[Token]), Stuck>
    ensures { Gives (λ x. (x.0, x.1.now)) result (parse create tokens.now) }
{
    let rest = pass_key(tokens, Key::Create)?;
    if begins_with_key(rest, Key::Database) {
        return new_database_of(alloc, rest);
    }
    new_table_of(alloc, rest)
}

/// RESTRICTED or DEFAULT
#[tactic(auto, unfolding(crate::specs::Grammar::restricted))]
pub(crate) fn restricted_of(tokens: &[Token]) -> Result<(bool, &[Token]), Stuck>
    ensures { Gives (λ x. (x.0, x.1.now)) result (parse restricted tokens.now) }
{
    if begins_with_soft(tokens, Soft::Restricted) {
        let rest = pass_soft(tokens, Soft::Restricted)?;
        return Ok((true, rest));
    }
    let rest = pass_soft(tokens, Soft::Default)?;
    Ok((false, rest))
}

#[tactic(auto, unfolding(crate::specs::Grammar::altered_table))]
fn altered_table_of(alloc: Global, tokens: &[Token]) -> Result<(RegionStatement, &[Token]), Stuck>
    ensures { Gives (λ x. (x.0, x.1.now)) result (parse altered_table tokens.now) }
{
    let rest = pass_key(tokens, Key::Table)?;
    let (table, rest) = name_of(alloc, rest)?;
    let rest = pass_key(rest, Key::Set)?;
    let rest = pass_key(rest, Key::Locality)?;
    let (locality, rest) = locality_of(alloc, rest)?;
    Ok((RegionStatement::SetLocality { table, locality }, rest))
}

#[tactic(auto, unfolding(crate::specs::Grammar::alter), using(crate::proofs::Firsts::of_altered_database))]
fn alter_of(alloc: Global, tokens: &[Token]) -> Result<(RegionStatement, &[Token]), Stuck>
    ensures { Gives (λ x. (x.0, x.1.now)) result (parse alter tokens.now) }
{
    let rest = pass_key(tokens, Key::Alter)?;
    if begins_with_key(rest, Key::Database) {
        return altered_database_of(alloc, rest);
    }
    altered_table_of(alloc, rest)
}

#[tactic(auto, unfolding(crate::specs::Grammar::used))]
fn used_of(alloc: Global, tokens: &[Token]) -> Result<(RegionStatement, &[Token]), Stuck>
    ensures { Gives (λ x. (x.0, x.1.now)) result (parse used tokens.now) }
{
    let rest = pass_key(tokens, Key::Use)?;
    let (name, rest) = name_of(alloc, rest)?;
    Ok((RegionStatement::Use { name }, rest))
}

/// A region statement.
#[tactic(auto, unfolding(crate::specs::Grammar::region_statement), using(crate::proofs::Firsts::of_create, crate::proofs::Firsts::of_alter))]
pub(crate) fn region_statement_of(
    alloc: Global,
    tokens: &[Token],
) -> Result<(RegionStatement, &[Token]), Stuck>
    ensures { Gives (λ x. (x.0, x.1.now)) result (parse region_statement tokens.now) }
{
    if begins_with_key(tokens, Key::Create) {
        return create_of(alloc, tokens);
    }
    if begins_with_key(tokens, Key::Alter) {
        return alter_of(alloc, tokens);
    }
    used_of(alloc, tokens)
}
