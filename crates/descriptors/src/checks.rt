//! Which refusal a statement meets, the first of the table.

ghost use Rattle.std.specs.Prelude.{◌≡◌, ℕ, ◌||◌, List, Some, IfOk, length, nat_le};
ghost use Rattle.descriptors.specs.Columns.{make_no_table};
ghost use Rattle.descriptors.specs.Contents.{database_named};
ghost use Rattle.descriptors.specs.Refusals.{named_database, refusal_of};

use crate::columns::make_no_table;
use crate::database::Database;
use crate::lists::{has_name, has_twice};
use crate::refusals::CatalogRefusal;
use crate::rules::{
    are_too_few, count_made, count_without, first_of, has_all, has_home, survives_region,
};
use crate::store::Store;
use mr_base::{Bytes, Memory, SqlState};
use region_sql::{Goal, Item, Locality, RegionStatement};

impl Store {
    /// Why a statement is refused, if it is. Source: this project's profile.
    pub(crate) fn refusal(&self, s: &RegionStatement) -> Result<Option<CatalogRefusal>, Memory>
        ensures { IfOk result (λ refusal. refusal ≡ refusal_of self.now s.now) }
    {
        match s {
            RegionStatement::CreateDatabase {
                name,
                primary,
                regions,
                goal,
            } => Ok(self.refusal_of_create_database(
                name.as_slice(),
                primary,
                regions.as_slice(),
                *goal,
            )),
            RegionStatement::Use { name: database }
            | RegionStatement::SetPrimary { database, .. }
            | RegionStatement::AddRegion { database, .. }
            | RegionStatement::DropRegion { database, .. }
            | RegionStatement::Survive { database, .. }
            | RegionStatement::Placement { database, .. } => {
                Ok(self.refusal_at_database(s, database.as_slice()))
            }
            RegionStatement::CreateTable {
                name,
                items,
                locality,
            } => self.refusal_of_create_table(name.as_slice(), items.as_slice(), locality),
            RegionStatement::SetLocality { table, locality } => {
                Ok(self.refusal_of_set_locality(table.as_slice(), locality))
            }
        }
    }

    /// CREATE DATABASE
    fn refusal_of_create_database(
        &self,
        name: &[u8],
        primary: &Option<Bytes>,
        regions: &[Bytes],
        goal: Option<Goal>,
    ) -> Option<CatalogRefusal>
        ensures { result ≡ refusal_of self.now (RegionStatement.CreateDatabase name.now primary.now regions.now goal) }
    {
        let away = !has_all(self.regions.as_slice(), primary, regions);
        first_of(&[
            (
                self.database(name).is_some(),
                CatalogRefusal::State(SqlState::S42P04),
            ),
            (away, CatalogRefusal::D(1)),
            (has_twice(regions), CatalogRefusal::D(2)),
            (
                are_too_few(goal, count_made(primary, regions)),
                CatalogRefusal::D(5),
            ),
            (self.is_full(), CatalogRefusal::D(8)),
        ])
    }

    /// Whether there are as many databases as may be.
    fn is_full(&self) -> bool
        ensures { result ≡ nat_le 16 (length self.now.databases) }
    {
        self.entries.len() >= 16
    }

    /// Whether a table of these items can't be made.
    fn makes_no_table(&self, items: &[Item]) -> Result<bool, Memory>
        ensures { IfOk result (λ none. none ≡ (nat_le 64 (length self.now.tables) || make_no_table items.now)) }
    {
        if self.tables.len() >= 64 {
            return Ok(true);
        }
        make_no_table(self.alloc, items)
    }

    /// USE and ALTER DATABASE, which name a database.
    fn refusal_at_database(&self, s: &RegionStatement, name: &[u8]) -> Option<CatalogRefusal>
        requires { named_database s.now ≡ Some name.now }
        ensures { result ≡ refusal_of self.now s.now }
    {
        let Some(database) = self.database(name) else {
            return Some(CatalogRefusal::State(SqlState::S3D000));
        };
        match s {
            RegionStatement::SetPrimary { region, .. } => {
                self.refusal_of_set_primary(database, region.as_slice())
            }
            RegionStatement::AddRegion { region, .. } => {
                self.refusal_of_add_region(database, region.as_slice())
            }
            RegionStatement::DropRegion { region, .. } => {
                self.refusal_of_drop_region(name, database, region.as_slice())
            }
            RegionStatement::Survive { goal, .. } => self.refusal_of_survive(database, *goal),
            RegionStatement::Placement { restricted, .. } => {
                self.refusal_of_placement(database, *restricted)
            }
            _ => None,
        }
    }

    /// ALTER DATABASE .. SET PRIMARY REGION
    fn refusal_of_set_primary(&self, database: &Database, region: &[u8]) -> Option<CatalogRefusal>
        ensures { (name : List ℕ) → database_named name self.now.databases ≡ Some database.now
            → result ≡ refusal_of self.now (RegionStatement.SetPrimary name region.now) }
    {
        let away = !has_name(self.regions.as_slice(), region);
        first_of(&[
            (!database.has_regions() && away, CatalogRefusal::D(1)),
            (database.misses_region(region), CatalogRefusal::D(3)),
        ])
    }

    /// ALTER DATABASE .. ADD REGION
    fn refusal_of_add_region(&self, database: &Database, region: &[u8]) -> Option<CatalogRefusal>
        ensures { (name : List ℕ) → database_named name self.now.databases ≡ Some database.now
            → result ≡ refusal_of self.now (RegionStatement.AddRegion name region.now) }
    {
        let away = !has_name(self.regions.as_slice(), region);
        let again = has_name(database.regions.as_slice(), region);
        first_of(&[
            (away, CatalogRefusal::D(1)),
            (again, CatalogRefusal::D(2)),
            (!database.has_regions(), CatalogRefusal::D(4)),
        ])
    }

    /// ALTER DATABASE .. DROP REGION
    fn refusal_of_drop_region(
        &self,
        name: &[u8],
        database: &Database,
        region: &[u8],
    ) -> Option<CatalogRefusal>
        ensures { database_named name.now self.now.databases ≡ Some database.now
            → result ≡ refusal_of self.now (RegionStatement.DropRegion name.now region.now) }
    {
        let few = count_without(region, database.regions.as_slice()) < 3;
        first_of(&[
            (database.misses_region(region), CatalogRefusal::D(3)),
            (!database.has_regions(), CatalogRefusal::D(4)),
            (survives_region(database.goal) && few, CatalogRefusal::D(5)),
            (database.is_primary(region), CatalogRefusal::D(6)),
            (has_home(&self.tables, name, region), CatalogRefusal::D(9)),
        ])
    }

    /// ALTER DATABASE .. SURVIVE
    fn refusal_of_survive(&self, database: &Database, goal: Goal) -> Option<CatalogRefusal>
        ensures { (name : List ℕ) → database_named name self.now.databases ≡ Some database.now
            → result ≡ refusal_of self.now (RegionStatement.Survive name goal) }
    {
        let few = database.regions.len() < 3;
        let restricted = database.restricted;
        first_of(&[
            (!database.has_regions(), CatalogRefusal::D(4)),
            (survives_region(goal) && few, CatalogRefusal::D(5)),
            (survives_region(goal) && restricted, CatalogRefusal::D(11)),
        ])
    }

    /// ALTER DATABASE .. PLACEMENT
    fn refusal_of_placement(&self, database: &Database, restricted: bool) -> Option<CatalogRefusal>
        ensures { (name : List ℕ) → database_named name self.now.databases ≡ Some database.now
            → result ≡ refusal_of self.now (RegionStatement.Placement name restricted) }
    {
        let survives = survives_region(database.goal);
        first_of(&[
            (!database.has_regions(), CatalogRefusal::D(4)),
            (restricted && survives, CatalogRefusal::D(11)),
        ])
    }

    /// ALTER TABLE .. SET LOCALITY
    fn refusal_of_set_locality(&self, name: &[u8], locality: &Locality) -> Option<CatalogRefusal>
        ensures { result ≡ refusal_of self.now (RegionStatement.SetLocality name.now locality.now) }
    {
        match self.current_database() {
            Some(database) => first_of(&[
                (
                    self.table(name).is_none(),
                    CatalogRefusal::State(SqlState::S42P01),
                ),
                (database.misses_locality(locality), CatalogRefusal::D(3)),
                (!database.has_regions(), CatalogRefusal::D(7)),
            ]),
            None => Some(CatalogRefusal::State(SqlState::S3D000)),
        }
    }

    /// CREATE TABLE
    fn refusal_of_create_table(
        &self,
        name: &[u8],
        items: &[Item],
        locality: &Option<Locality>,
    ) -> Result<Option<CatalogRefusal>, Memory>
        ensures { IfOk result (λ refusal. refusal ≡ refusal_of self.now (RegionStatement.CreateTable name.now items.now locality.now)) }
    {
        match self.current_database() {
            Some(database) => {
                let none = self.makes_no_table(items)?;
                Ok(first_of(&[
                    (
                        self.table(name).is_some(),
                        CatalogRefusal::State(SqlState::S42P07),
                    ),
                    (
                        database.misses_some_locality(locality),
                        CatalogRefusal::D(3),
                    ),
                    (database.needs_none(locality), CatalogRefusal::D(7)),
                    (none, CatalogRefusal::D(8)),
                ]))
            }
            None => Ok(Some(CatalogRefusal::State(SqlState::S3D000))),
        }
    }
}
