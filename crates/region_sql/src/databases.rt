//! Readers of what is said of databases. Each answers what it read and the tokens after it.

ghost use Rattle.std.specs.Prelude.{◌≡◌};
ghost use Rattle.region_sql.specs.Forms.{as_value};
ghost use Rattle.region_sql.specs.Grammar.{more_regions, maybe_survive, database_regions, new_database, alteration, altered_database};
ghost use Rattle.region_sql.specs.Reading.{Gives, parse};

use crate::region_readers::{restricted_of, survive_of};
use crate::region_statements::{Goal, RegionStatement};
use crate::row_readers::names_of;
use crate::stuck::Stuck;
use crate::token_readers::{begins_with_key, name_of, pass_key, pass_soft};
use crate::tokens::{Key, Soft, Token};
use mr_base::{Bytes, ListOf};
use std::alloc::Global;

/// [REGIONS names]
#[tactic(auto, unfolding(crate::specs::Grammar::more_regions))]
fn more_regions_of(alloc: Global, tokens: &[Token]) -> Result<(ListOf<Bytes>, &[Token]), Stuck>
    ensures { Gives (λ x. (x.0, x.1.now)) result (parse more_regions tokens.now) }
{
    if !begins_with_key(tokens, Key::Regions) {
        return Ok((ListOf::new(alloc), tokens));
    }
    let rest = pass_key(tokens, Key::Regions)?;
    names_of(alloc, rest)
}

/// [SURVIVE goal FAILURE]
#[tactic(auto, unfolding(crate::specs::Grammar::maybe_survive), using(crate::proofs::Firsts::of_survive))]
fn maybe_survive_of(tokens: &[Token]) -> Result<(Option<Goal>, &[Token]), Stuck>
    ensures { Gives (λ x. (x.0, x.1.now)) result (parse maybe_survive tokens.now) }
{
    if !begins_with_key(tokens, Key::Survive) {
        return Ok((None, tokens));
    }
    let (goal, rest) = survive_of(tokens)?;
    Ok((Some(goal), rest))
}

/// The regions of a new database.
#[derive(Drop)]
struct NewRegions {
    primary: Bytes,
    others: ListOf<Bytes>,
    goal: Option<Goal>,
}

/// PRIMARY REGION name [REGIONS names] [SURVIVE goal FAILURE]
#[tactic(auto, unfolding(crate::specs::Grammar::database_regions))]
fn database_regions_of(alloc: Global, tokens: &[Token]) -> Result<(NewRegions, &[Token]), Stuck>
    ensures { Gives (λ x. (((x.0.primary, x.0.others), x.0.goal), x.1.now)) result (parse database_regions tokens.now) }
{
    let rest = pass_key(tokens, Key::Primary)?;
    let rest = pass_key(rest, Key::Region)?;
    let (primary, rest) = name_of(alloc, rest)?;
    let (others, rest) = more_regions_of(alloc, rest)?;
    let (goal, rest) = maybe_survive_of(rest)?;
    Ok((
        NewRegions {
            primary,
            others,
            goal,
        },
        rest,
    ))
}

/// DATABASE name, and what is said of its regions
#[tactic(auto, unfolding(crate::specs::Grammar::new_database), using(crate::proofs::Firsts::of_database_regions))]
pub(crate) fn new_database_of(
    alloc: Global,
    tokens: &[Token],
) -> Result<(RegionStatement, &[Token]), Stuck>
    ensures { Gives (λ x. (x.0, x.1.now)) result (parse new_database tokens.now) }
{
    let rest = pass_key(tokens, Key::Database)?;
    let (name, rest) = name_of(alloc, rest)?;
    if !begins_with_key(rest, Key::Primary) {
        let statement = RegionStatement::CreateDatabase {
            name,
            primary: None,
            regions: ListOf::new(alloc),
            goal: None,
        };
        return Ok((statement, rest));
    }
    let (said, rest) = database_regions_of(alloc, rest)?;
    let statement = RegionStatement::CreateDatabase {
        name,
        primary: Some(said.primary),
        regions: said.others,
        goal: said.goal,
    };
    Ok((statement, rest))
}

/// What is done to a database.
#[tactic(auto, unfolding(crate::specs::Grammar::alteration), using(crate::proofs::Firsts::of_survive))]
fn alteration_of(
    alloc: Global,
    database: Bytes,
    tokens: &[Token],
) -> Result<(RegionStatement, &[Token]), Stuck>
    ensures { Gives (λ x. (x.0, x.1.now)) result (parse (as_value alteration (λ change. change database)) tokens.now) }
{
    if begins_with_key(tokens, Key::Set) {
        let rest = pass_key(tokens, Key::Set)?;
        let rest = pass_key(rest, Key::Primary)?;
        let rest = pass_key(rest, Key::Region)?;
        let (region, rest) = name_of(alloc, rest)?;
        return Ok((RegionStatement::SetPrimary { database, region }, rest));
    }
    if begins_with_key(tokens, Key::Add) {
        let rest = pass_key(tokens, Key::Add)?;
        let rest = pass_key(rest, Key::Region)?;
        let (region, rest) = name_of(alloc, rest)?;
        return Ok((RegionStatement::AddRegion { database, region }, rest));
    }
    if begins_with_key(tokens, Key::Drop) {
        let rest = pass_key(tokens, Key::Drop)?;
        let rest = pass_key(rest, Key::Region)?;
        let (region, rest) = name_of(alloc, rest)?;
        return Ok((RegionStatement::DropRegion { database, region }, rest));
    }
    if begins_with_key(tokens, Key::Survive) {
        let (goal, rest) = survive_of(tokens)?;
        return Ok((RegionStatement::Survive { database, goal }, rest));
    }
    let rest = pass_soft(tokens, Soft::Placement)?;
    let (restricted, rest) = restricted_of(rest)?;
    Ok((
        RegionStatement::Placement {
            database,
            restricted,
        },
        rest,
    ))
}

/// DATABASE name, and what is done to it
#[tactic(auto, unfolding(crate::specs::Grammar::altered_database))]
pub(crate) fn altered_database_of(
    alloc: Global,
    tokens: &[Token],
) -> Result<(RegionStatement, &[Token]), Stuck>
    ensures { Gives (λ x. (x.0, x.1.now)) result (parse altered_database tokens.now) }
{
    let rest = pass_key(tokens, Key::Database)?;
    let (name, rest) = name_of(alloc, rest)?;
    alteration_of(alloc, name, rest)
}
