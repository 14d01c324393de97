//! A database and its regions.

ghost use Rattle.std.specs.Prelude.{◌≡◌, [], ◌∷◌, IfOk, OnOk, OnErr, position, option_and_then, if◌then◌else◌};
ghost use Rattle.std.specs.Option.{option_copied};
ghost use Rattle.std.specs.Str.{bytes_eq};

use crate::lists::{place_of, without};
use mr_base::{Bytes, CloneIn, ListOf, Memory};
use region_sql::{Goal, RegionStatement};
use std::alloc::Global;

/// A database. Its regions stand in catalog order: the primary region as first named, then the others
/// as listed or added; `primary` is a place among them. `restricted` databases place their ordinary
/// tables in the home region alone.
#[derive(Drop)]
pub struct Database {
    pub name: Bytes,
    pub regions: ListOf<Bytes>,
    pub primary: Option<usize>,
    pub goal: Goal,
    pub restricted: bool,
}

impl Database {
    ghost use Rattle.descriptors.specs.Refusals.{has_regions, primary_region};
    ghost use Rattle.descriptors.specs.Changes.{altered, with_first_region, with_primary, with_region, without_region};

    /// Carries out ALTER DATABASE; other statements change nothing. It is unchanged after want of memory.
    pub(crate) fn alter(&mut self, alloc: Global, s: &RegionStatement) -> Result<(), Memory>
        ensures ok { OnOk result (self.new ≡ altered s.now self.old) }
        ensures err { OnErr result (self.new ≡ self.old) }
        ensures name { self.new.name ≡ self.old.name }
    {
        match s {
            RegionStatement::SetPrimary { region, .. } => {
                self.set_primary(alloc, region.as_slice())
            }
            RegionStatement::AddRegion { region, .. } => self.add_region(alloc, region.as_slice()),
            RegionStatement::DropRegion { region, .. } => {
                self.drop_region(alloc, region.as_slice())
            }
            RegionStatement::Survive { goal, .. } => {
                self.goal = *goal;
                Ok(())
            }
            RegionStatement::Placement { restricted, .. } => {
                self.restricted = *restricted;
                Ok(())
            }
            _ => Ok(()),
        }
    }

    /// Another of its regions as the primary one, or its first region.
    fn set_primary(&mut self, alloc: Global, region: &[u8]) -> Result<(), Memory>
        ensures ok { OnOk result (self.new ≡ (if has_regions self.old then with_primary region.now self.old else with_first_region region.now self.old)) }
        ensures err { OnErr result (self.new ≡ self.old) }
        ensures name { self.new.name ≡ self.old.name }
    {
        if self.has_regions() {
            self.primary = place_of(self.regions.as_slice(), region);
            return Ok(());
        }
        self.regions = one_region(alloc, region)?;
        self.primary = Some(0);
        Ok(())
    }

    /// Another region.
    fn add_region(&mut self, alloc: Global, region: &[u8]) -> Result<(), Memory>
        ensures ok { OnOk result (self.new ≡ with_region region.now self.old) }
        ensures err { OnErr result (self.new ≡ self.old) }
        ensures name { self.new.name ≡ self.old.name }
    {
        let region = Bytes::from_slice(alloc, region)?;
        self.regions.push(region)?;
        Ok(())
    }

    /// A region less, the primary one being the same region.
    fn drop_region(&mut self, alloc: Global, region: &[u8]) -> Result<(), Memory>
        ensures ok { OnOk result (self.new ≡ without_region region.now self.old) }
        ensures err { OnErr result (self.new ≡ self.old) }
        ensures name { self.new.name ≡ self.old.name }
    {
        let regions = without(alloc, region, self.regions.as_slice())?;
        self.primary = self.place_of_primary(regions.as_slice());
        self.regions = regions;
        Ok(())
    }

    /// The place of the primary region among these.
    fn place_of_primary(&self, regions: &[Bytes]) -> Option<usize>
        ensures { result ≡ option_and_then (λ primary. position (bytes_eq primary) regions.now) (primary_region self.now) }
    {
        let primary = self.primary_region()?;
        place_of(regions, primary.as_slice())
    }

    /// The primary region, if there is one.
    pub(crate) fn primary_region(&self) -> Option<&Bytes>
        ensures { option_copied result ≡ primary_region self.now }
    {
        self.regions.as_slice().get(self.primary?)
    }
}

/// A region as a list.
fn one_region(alloc: Global, region: &[u8]) -> Result<ListOf<Bytes>, Memory>
    ensures { IfOk result (λ regions. regions ≡ region.now ∷ []) }
{
    let mut regions = ListOf::new(alloc);
    regions.push(Bytes::from_slice(alloc, region)?)?;
    Ok(regions)
}

impl CloneIn for Database {
    fn clone_in(&self, alloc: Global) -> Result<Database, Memory> {
        Ok(Database {
            name: self.name.clone_in(alloc)?,
            regions: self.regions.clone_in(alloc)?,
            primary: self.primary,
            goal: self.goal,
            restricted: self.restricted,
        })
    }
}
