//! Tables to test with, as statements make them.

ghost use Rattle.std.specs.Prelude.{◌≡◌, ◌∷◌, [], map, IfOk};
ghost use Rattle.std.specs.List.{range_with_len};
ghost use Rattle.descriptors.specs.Changes.{NewNamesAreUtf8};
ghost use Rattle.descriptors.specs.Sound.{IsSoundTable};

use descriptors::{Catalog, Table, new_names_are_utf8};
use mr_base::{Bytes, ListOf, Memory};
use region_sql::{RegionStatement, Statement, parse_statement};
use std::alloc::Global;
use std::test::Fail;

/// The names of sixteen regions: the letters from a to p.
fn sixteen_names(alloc: Global) -> Result<ListOf<Bytes>, Memory>
    ensures { IfOk result (λ names. names ≡ map (λ b. b ∷ []) (range_with_len 97 16)) }
{
    let mut names = ListOf::new(alloc);
    for place in 0..16 {
        names.push(Bytes::from_slice(alloc, &[b'a' + place])?)?;
    }
    Ok(names)
}

/// A catalog without databases over sixteen regions.
fn sixteen_regions(alloc: Global) -> Result<Catalog, Memory> {
    let names = sixteen_names(alloc)?;
    Catalog::new(alloc, names.as_slice())
}

/// The statement that a text is.
fn read(alloc: Global, text: &str) -> Result<RegionStatement, Fail>
    ensures { IfOk result NewNamesAreUtf8 }
{
    new_names_are_utf8();
    match parse_statement(alloc, text.as_bytes()) {
        Ok(Statement::Region(statement)) => Ok(statement),
        Ok(_) | Err(_) => Err(Fail::from("no region statement")),
    }
}

/// Carries out a statement that is accepted.
pub fn carry_out(alloc: Global, catalog: &mut Catalog, text: &str) -> Result<(), Fail> {
    let statement = read(alloc, text)?;
    match catalog.apply(&statement) {
        Ok(()) => Ok(()),
        Err(_) => Err(Fail::from("refused")),
    }
}

/// The statement that makes a database of the first so many regions.
fn database_of(alloc: Global, regions: u8) -> Result<String, Fail> {
    let mut text = String::new(alloc);
    text.push_str("CREATE DATABASE d PRIMARY REGION a")?;
    for place in 1..regions.min(16) {
        text.push_str(if place == 1 { " REGIONS " } else { ", " })?;
        text.push(char::from(b'a' + place))?;
    }
    Ok(text)
}

/// A catalog with a table `t`, which a statement makes, in a database of the first so many regions, or of
/// none.
pub fn catalog_with(alloc: Global, regions: u8, table: &str) -> Result<Catalog, Fail> {
    let mut catalog = sixteen_regions(alloc)?;
    if regions == 0 {
        carry_out(alloc, &mut catalog, "CREATE DATABASE d")?;
    } else {
        carry_out(alloc, &mut catalog, &database_of(alloc, regions)?)?;
    }
    carry_out(alloc, &mut catalog, table)?;
    Ok(catalog)
}

/// The table of a name.
fn table_named<'a>(catalog: &'a Catalog, name: &[u8]) -> Result<&'a Table, Fail>
    ensures { IfOk result (λ t. IsSoundTable t.now) }
{
    match catalog.table(name) {
        Some(table) => Ok(table),
        None => Err(Fail::from("no table")),
    }
}

/// The table `t` of a catalog.
pub fn table_in(catalog: &Catalog) -> Result<&Table, Fail>
    ensures { IfOk result (λ t. IsSoundTable t.now) }
{
    table_named(catalog, b"t")
}
