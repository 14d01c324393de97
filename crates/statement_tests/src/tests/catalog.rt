//! Statements with the code that each must get, one after the other.

ghost use Rattle.std.specs.Prelude.{◌≡◌, ◌∷◌, [], IfOk, codes};
ghost use Rattle.descriptors.specs.Changes.{NewNamesAreUtf8};

use descriptors::{Catalog, CatalogRefusal, new_names_are_utf8};
use mr_base::{Bytes, CloneIn, ListOf, Memory};
use region_sql::{RegionStatement, Statement, parse_statement};
use std::alloc::Global;
use std::test::Fail;

/// The codes of the rules of databases with regions.
const RULES: [&str; 12] = [
    "none", "D1", "D2", "D3", "D4", "D5", "D6", "D7", "D8", "D9", "none", "D11",
];

/// The code of an answer.
fn code(answer: Result<(), CatalogRefusal>) -> &'static str {
    match answer {
        Ok(()) => "ok",
        Err(CatalogRefusal::State(state)) => state.code(),
        Err(CatalogRefusal::D(rule)) => RULES.get(usize::from(rule)).copied().unwrap_or("none"),
        Err(CatalogRefusal::Memory) => "memory",
    }
}

/// Statements in a cluster of the regions east, west, europe and asia, each behind its code.
static CHANGES: &str = "\
-- before any database
3D000 CREATE TABLE t (id INT PRIMARY KEY, id STRING UNIQUE)
3D000 USE x
3D000 ALTER TABLE t SET LOCALITY GLOBAL
-- a database of two regions
ok CREATE DATABASE d PRIMARY REGION east REGIONS west
D5 ALTER DATABASE d SURVIVE REGION FAILURE
D1 ALTER DATABASE d ADD REGION mars
D2 ALTER DATABASE d ADD REGION west
D6 ALTER DATABASE d DROP REGION east
42P04 CREATE DATABASE d
3D000 ALTER DATABASE x SURVIVE ZONE FAILURE
42P01 ALTER TABLE u SET LOCALITY GLOBAL
-- which refusal goes first at CREATE DATABASE
42P04 CREATE DATABASE d PRIMARY REGION mars
42P04 CREATE DATABASE d PRIMARY REGION east REGIONS west, west
42P04 CREATE DATABASE d PRIMARY REGION east REGIONS west SURVIVE REGION FAILURE
D1 CREATE DATABASE n PRIMARY REGION mars REGIONS west, west
D1 CREATE DATABASE n PRIMARY REGION mars REGIONS west SURVIVE REGION FAILURE
D2 CREATE DATABASE n PRIMARY REGION east REGIONS west, west SURVIVE REGION FAILURE
D5 CREATE DATABASE n PRIMARY REGION east REGIONS west SURVIVE REGION FAILURE
-- a database without regions
ok CREATE DATABASE bare
D1 ALTER DATABASE bare ADD REGION mars
D4 ALTER DATABASE bare ADD REGION asia
D4 ALTER DATABASE bare DROP REGION asia
D4 ALTER DATABASE bare SURVIVE REGION FAILURE
D4 ALTER DATABASE bare SURVIVE ZONE FAILURE
D4 ALTER DATABASE bare PLACEMENT RESTRICTED
D1 ALTER DATABASE bare SET PRIMARY REGION mars
D7 CREATE TABLE t (id INT PRIMARY KEY, id STRING UNIQUE) LOCALITY GLOBAL
ok CREATE TABLE t (id INT PRIMARY KEY, s STRING UNIQUE)
42P07 CREATE TABLE t (id INT PRIMARY KEY, s STRING UNIQUE) LOCALITY GLOBAL
42P07 CREATE TABLE t (id INT PRIMARY KEY, id STRING UNIQUE)
D7 ALTER TABLE t SET LOCALITY GLOBAL
42P01 ALTER TABLE u SET LOCALITY GLOBAL
-- it gets a region
ok ALTER DATABASE bare SET PRIMARY REGION asia
D3 ALTER DATABASE bare SET PRIMARY REGION mars
D3 ALTER DATABASE bare DROP REGION europe
D3 ALTER TABLE t SET LOCALITY REGIONAL BY TABLE IN europe
42P01 ALTER TABLE u SET LOCALITY REGIONAL BY TABLE IN europe
42P07 CREATE TABLE t (id INT PRIMARY KEY, s STRING UNIQUE) LOCALITY REGIONAL BY TABLE IN europe
D3 CREATE TABLE v (id INT PRIMARY KEY, id STRING UNIQUE) LOCALITY REGIONAL BY TABLE IN europe
D8 CREATE TABLE v (id INT PRIMARY KEY, id STRING UNIQUE)
D8 CREATE TABLE v (id INT PRIMARY KEY, crdb_region STRING UNIQUE)
D8 CREATE TABLE v (id INT PRIMARY KEY, s STRING PRIMARY KEY)
D8 CREATE TABLE v (id INT, s STRING UNIQUE)
D8 CREATE TABLE v (a INT PRIMARY KEY, b INT, c INT, d INT, e INT, f INT, g INT, h INT, i INT, j INT, k INT, l INT, m INT, n INT, o INT, p INT, q INT)
ok CREATE TABLE v (a INT PRIMARY KEY, b INT, c INT, d INT, e INT, f INT, g INT, h INT, i INT, j INT, k INT, l INT, m INT, n INT, o INT, p INT)
ok ALTER TABLE t SET LOCALITY REGIONAL BY TABLE IN asia
-- restricted, then surviving the loss of a region
ok USE d
ok ALTER DATABASE d PLACEMENT RESTRICTED
D5 ALTER DATABASE d SURVIVE REGION FAILURE
ok ALTER DATABASE d ADD REGION europe
D11 ALTER DATABASE d SURVIVE REGION FAILURE
ok ALTER DATABASE d PLACEMENT DEFAULT
ok ALTER DATABASE d SURVIVE REGION FAILURE
D11 ALTER DATABASE d PLACEMENT RESTRICTED
D5 ALTER DATABASE d DROP REGION east
ok CREATE TABLE p (id INT PRIMARY KEY, s STRING UNIQUE) LOCALITY REGIONAL BY TABLE IN west
D5 ALTER DATABASE d DROP REGION west
ok ALTER DATABASE d ADD REGION asia
D9 ALTER DATABASE d DROP REGION west
ok CREATE TABLE q (id INT PRIMARY KEY, s STRING UNIQUE) LOCALITY REGIONAL BY TABLE IN east
D6 ALTER DATABASE d DROP REGION east
ok ALTER DATABASE d SET PRIMARY REGION asia
ok ALTER DATABASE d DROP REGION europe
";

/// Once there are 16 databases: what is wrong with a new one itself goes behind its name and their number.
static SIXTEEN_DATABASES: &str = "\
D8 CREATE DATABASE g
42P04 CREATE DATABASE d
D1 CREATE DATABASE g PRIMARY REGION mars
D2 CREATE DATABASE g PRIMARY REGION east REGIONS west, west
D5 CREATE DATABASE g PRIMARY REGION east REGIONS west SURVIVE REGION FAILURE
";

/// Once there are 64 tables: the name goes before their number, and so do regions.
static SIXTY_FOUR_TABLES: &str = "\
42P07 CREATE TABLE t0 (id INT PRIMARY KEY)
42P07 CREATE TABLE p (id INT PRIMARY KEY)
D3 CREATE TABLE z (id INT PRIMARY KEY) LOCALITY REGIONAL BY TABLE IN europe
D8 CREATE TABLE z (id INT PRIMARY KEY)
ok CREATE DATABASE bare_too
D7 CREATE TABLE z (id INT PRIMARY KEY) LOCALITY GLOBAL
D8 CREATE TABLE z (id INT PRIMARY KEY)
";

/// The statement that a text is.
fn read(alloc: Global, text: &str) -> Result<RegionStatement, Fail>
    ensures { IfOk result NewNamesAreUtf8 }
{
    new_names_are_utf8();
    match parse_statement(alloc, text.as_bytes()) {
        Ok(Statement::Region(statement)) => Ok(statement),
        Ok(_) | Err(_) => Err(Fail::from("no region statement")),
    }
}

/// Carries out a statement.
fn answer(alloc: Global, catalog: &mut Catalog, text: &str) -> Result<&'static str, Fail> {
    let statement = read(alloc, text)?;
    Ok(code(catalog.apply(&statement)))
}

/// The first line whose statement gets another code than it says, if there is one.
fn first_wrong<'a>(
    alloc: Global,
    catalog: &mut Catalog,
    script: &'a str,
) -> Result<Option<&'a str>, Fail> {
    for line in script.lines() {
        let Some((code, text)) = line.split_once(' ') else {
            return Ok(Some(line));
        };
        if code != "--" && answer(alloc, catalog, text)? != code {
            return Ok(Some(line));
        }
    }
    Ok(None)
}

/// The regions of the cluster.
fn four_names(alloc: Global) -> Result<ListOf<Bytes>, Memory>
    ensures { IfOk result (λ l. l ≡ codes "east" ∷ codes "west" ∷ codes "europe" ∷ codes "asia" ∷ []) }
{
    let mut regions = ListOf::new(alloc);
    regions.push(Bytes::from_slice(alloc, b"east")?)?;
    regions.push(Bytes::from_slice(alloc, b"west")?)?;
    regions.push(Bytes::from_slice(alloc, b"europe")?)?;
    regions.push(Bytes::from_slice(alloc, b"asia")?)?;
    Ok(regions)
}

/// A catalog over four regions.
fn four_regions(alloc: Global) -> Result<Catalog, Memory> {
    let regions = four_names(alloc)?;
    Catalog::new(alloc, regions.as_slice())
}

/// A statement before its number and behind it.
type Numbered = (&'static str, &'static str);

const DATABASES: Numbered = ("CREATE DATABASE f", "");

const TABLES: Numbered = ("CREATE TABLE t", " (id INT PRIMARY KEY)");

/// Makes databases or tables, numbered from 0, and says how many there are when there may be no more.
fn fill(alloc: Global, catalog: &mut Catalog, (before, behind): Numbered) -> Result<u32, Fail> {
    for made in 0..100 {
        let text = format!(in alloc; "{before}{made}{behind}")?;
        if answer(alloc, catalog, &text)? == "D8" {
            return Ok(made);
        }
    }
    Ok(100)
}

/// Makes tables in a copy of a catalog.
fn fill_a_copy(alloc: Global, catalog: &Catalog) -> Result<u32, Fail> {
    let mut copy = catalog.clone_in(alloc)?;
    fill(alloc, &mut copy, TABLES)
}

/// Whether one more table would be taken.
fn takes_a_table(alloc: Global, catalog: &Catalog) -> Result<bool, Fail> {
    let table = read(alloc, "CREATE TABLE z (id INT PRIMARY KEY)")?;
    Ok(catalog.refusal(&table)?.is_none())
}

/// A catalog after all changes.
fn changed(alloc: Global) -> Result<Catalog, Fail> {
    let mut catalog = four_regions(alloc)?;
    match first_wrong(alloc, &mut catalog, CHANGES)? {
        None => Ok(catalog),
        Some(line) => Err(Fail::from(line)),
    }
}

#[test]
fn each_statement_gets_its_code(rt: HostRuntime) -> Result<(), Fail> {
    let catalog = changed(rt.alloc())?;
    assert!(rt; catalog.table(b"q").is_some());
    assert!(rt; catalog.table(b"v").is_none());
    assert!(rt; catalog.database(b"d").is_some());
    assert_eq!(rt; catalog.tables().len(), 4);
    Ok(())
}

#[test]
fn databases_are_16(rt: HostRuntime) -> Result<(), Fail> {
    let alloc = rt.alloc();
    let mut catalog = changed(alloc)?;
    assert_eq!(rt; fill(alloc, &mut catalog, DATABASES)?, 14);
    assert!(rt; first_wrong(alloc, &mut catalog, SIXTEEN_DATABASES)?.is_none());
    Ok(())
}

#[test]
fn tables_are_64(rt: HostRuntime) -> Result<(), Fail> {
    let alloc = rt.alloc();
    let mut catalog = changed(alloc)?;
    assert_eq!(rt; fill(alloc, &mut catalog, TABLES)?, 60);
    assert!(rt; first_wrong(alloc, &mut catalog, SIXTY_FOUR_TABLES)?.is_none());
    Ok(())
}

#[test]
fn a_copy_is_changed_alone(rt: HostRuntime) -> Result<(), Fail> {
    let catalog = changed(rt.alloc())?;
    let made = fill_a_copy(rt.alloc(), &catalog)?;
    assert_eq!(rt; made, 60);
    assert!(rt; takes_a_table(rt.alloc(), &catalog)?);
    Ok(())
}
