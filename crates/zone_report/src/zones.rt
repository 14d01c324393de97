//! The nodes of a cluster, and the catalog over them.

ghost use Rattle.std.specs.Prelude.{◌≡◌, [], None, Some, IfOk, IsSomeAnd, OnErr, OnOk};
ghost use Rattle.descriptors.specs.Changes.{NewNamesAreUtf8, after};
ghost use Rattle.descriptors.specs.Refusals.{refusal_of as catalog_refusal};
ghost use Rattle.zone_report.specs.Nodes.{AreNodes, regions_of};
ghost use Rattle.zone_report.specs.Ranges.{ranges};
ghost use Rattle.zone_report.specs.Refusals.{first_lack, of_catalog};
ghost use Rattle.zone_report.specs.Report.{report_text};
ghost use Rattle.zone_report.specs.Statements.{CarriesOut, next, refusal_of, unless_refused};

use crate::changes::first_lack;
use crate::refused::SqlRefusal;
use crate::regions::regions_of;
use crate::report::{Format, report_of};
use crate::statements::read;
use descriptors::{Catalog, CatalogRefusal};
use mr_base::{Bytes, CloneIn, ListOf, Memory, NodeInfo, SqlState};
use region_sql::RegionStatement;
use std::alloc::Global;
use std::marker::Model;

/// The nodes of a cluster, and the databases and tables over them, each range of which can be placed.
#[derive(Drop)]
pub struct Zones {
    alloc: Global,
    nodes: ListOf<NodeInfo>,
    catalog: Catalog,
}

impl Model for Zones {
    ghost use Rattle.zone_report.specs.Statements.{IsPlaceable, Zoned};

    ghost Value = { Zoned };

    ghost view = { λ z. record { nodes = z.nodes; contents = z.catalog } };

    ghost invariant = { λ z. IsPlaceable (record { nodes = z.nodes; contents = z.catalog }) };
}

impl Zones {
    /// The nodes of a cluster, without databases.
    pub fn new(alloc: Global, nodes: &[NodeInfo]) -> Result<Zones, Memory>
        requires { AreNodes nodes.now }
        ensures { IfOk result (λ z. z ≡ record { nodes = nodes.now; contents = record { regions = regions_of nodes.now; databases = []; tables = []; current = None } }) }
    {
        let regions = regions_of(alloc, nodes)?;
        let catalog = Catalog::new(alloc, regions.as_slice())?;
        let nodes = ListOf::copy_of(alloc, nodes)?;
        Ok(Zones {
            alloc,
            nodes,
            catalog,
        })
    }

    /// Carries out the statement that a text is, or says why it is refused. Nothing is changed after a
    /// refusal or want of memory.
    pub fn statement(&mut self, text: &[u8]) -> Result<Option<SqlRefusal>, Memory>
        ensures done { IfOk result (λ answer. CarriesOut text.now self.old answer self.new) }
        ensures unchanged { OnErr result (self.new ≡ self.old) }
    {
        match read(self.alloc, text)? {
            Some(s) => self.carry_out(&s),
            None => Ok(Some(SqlRefusal::State(SqlState::S42601))),
        }
    }

    /// Carries out a statement, or says why it is refused.
    fn carry_out(&mut self, s: &RegionStatement) -> Result<Option<SqlRefusal>, Memory>
        requires { NewNamesAreUtf8 s.now }
        ensures answer { IfOk result (λ answer. answer ≡ refusal_of self.old (Some s.now)) }
        ensures changed { OnOk result (self.new ≡ next self.old (Some s.now)) }
        ensures unchanged { OnErr result (self.new ≡ self.old) }
    {
        if let Some(refusal) = self.catalog.refusal(s)? {
            return refused(refusal);
        }
        match s {
            RegionStatement::Use { .. } => self.change_current(s),
            _ => self.change_if_placeable(s),
        }
    }

    /// Carries out a statement that changes no range.
    fn change_current(&mut self, s: &RegionStatement) -> Result<Option<SqlRefusal>, Memory>
        requires names { NewNamesAreUtf8 s.now }
        requires accepted { catalog_refusal self.old.contents s.now ≡ None }
        requires kept { ranges (after self.old.contents s.now) ≡ ranges self.old.contents }
        ensures answer { IfOk result (λ answer. answer ≡ None) }
        ensures changed { OnOk result (self.new ≡ record self.old { contents = after self.old.contents s.now }) }
        ensures unchanged { OnErr result (self.new ≡ self.old) }
    {
        apply(&mut self.catalog, s)?;
        Ok(None)
    }

    /// Carries out a statement, unless some range could not be placed afterwards.
    fn change_if_placeable(&mut self, s: &RegionStatement) -> Result<Option<SqlRefusal>, Memory>
        requires names { NewNamesAreUtf8 s.now }
        requires accepted { catalog_refusal self.old.contents s.now ≡ None }
        ensures answer { IfOk result (λ answer. answer ≡ first_lack self.old.nodes (ranges (after self.old.contents s.now))) }
        ensures changed { OnOk result (self.new ≡ record self.old { contents = unless_refused (first_lack self.old.nodes (ranges (after self.old.contents s.now))) self.old.contents (after self.old.contents s.now) }) }
        ensures unchanged { OnErr result (self.new ≡ self.old) }
    {
        let changed = self.changed(s)?;
        let lack = first_lack(self.alloc, self.nodes.as_slice(), &self.catalog, &changed)?;
        if lack.is_some() {
            return Ok(lack);
        }
        self.catalog = changed;
        Ok(None)
    }

    /// A copy of the catalog that a statement changed.
    fn changed(&self, s: &RegionStatement) -> Result<Catalog, Memory>
        requires names { NewNamesAreUtf8 s.now }
        requires accepted { catalog_refusal self.now.contents s.now ≡ None }
        ensures { IfOk result (λ changed. changed ≡ after self.now.contents s.now) }
    {
        let mut changed = self.catalog.clone_in(self.alloc)?;
        apply(&mut changed, s)?;
        Ok(changed)
    }

    /// The configuration of each range, and as text its placement too, in table and then region order.
    /// The ranges are numbered from 1.
    pub fn report(&self, format: Format) -> Result<Bytes, Memory>
        ensures { IfOk result (λ text. text ≡ report_text format self.now) }
    {
        report_of(self.alloc, self.nodes.as_slice(), &self.catalog, format)
    }
}

/// The catalog's refusal as an answer.
fn refused(refusal: CatalogRefusal) -> Result<Option<SqlRefusal>, Memory>
    ensures { IfOk result (λ answer. IsSomeAnd answer (λ why. of_catalog refusal ≡ Some why)) }
{
    match refusal {
        CatalogRefusal::State(state) => Ok(Some(SqlRefusal::State(state))),
        CatalogRefusal::D(number) => Ok(Some(SqlRefusal::D(number))),
        CatalogRefusal::Memory => Err(Memory),
    }
}

/// Carries out a statement that the catalog accepts.
fn apply(catalog: &mut Catalog, s: &RegionStatement) -> Result<(), Memory>
    requires names { NewNamesAreUtf8 s.now }
    requires accepted { catalog_refusal catalog.old s.now ≡ None }
    ensures changed { OnOk result (catalog.new ≡ after catalog.old s.now) }
    ensures unchanged { OnErr result (catalog.new ≡ catalog.old) }
{
    match catalog.apply(s) {
        Ok(()) => Ok(()),
        Err(CatalogRefusal::Memory) => Err(Memory),
        Err(_) => unreachable!(),
    }
}
