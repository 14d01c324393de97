//! Spans to look up in the partitions of a table.

ghost use Rattle.std.specs.Prelude.{◌≡◌, ◌++◌, map, IfOk, OnOk};
ghost use Rattle.std.specs.Option.{option_copied};
ghost use Rattle.sql_eval.specs.Search.{ask_of};
ghost use Rattle.local_search.specs.LookupOrder.{lookup_in};

use crate::table_partitions::Partition;
use mr_base::{Ask, Bytes, CloneIn, ListOf, Memory, Span};
use std::alloc::Global;
use std::marker::Model;

/// A span to look up in a partition, in the index of a number.
#[derive(Drop)]
pub struct Lookup {
    pub(crate) region: Option<Bytes>,
    pub(crate) index: usize,
    pub(crate) ask: Ask,
}

impl Model for Lookup {
    ghost use Rattle.sql_eval.specs.Search.{Lookup as DefinedLookup};

    ghost Value = { DefinedLookup };

    ghost view = { λ l. record {
      partition = record {
        range = l.ask.range;
        region = l.region;
      };
      index = l.index;
      span = l.ask.span;
    } };
}

impl Lookup {
    /// A span in a partition.
    pub(crate) fn new(
        alloc: Global,
        partition: &Partition,
        index: usize,
        span: &Span,
    ) -> Result<Lookup, Memory>
        ensures { IfOk result (λ l. l ≡ lookup_in index span.now partition.now) }
    {
        Ok(Lookup {
            region: partition.region.clone_in(alloc)?,
            index,
            ask: Ask {
                range: partition.range,
                span: span.clone_in(alloc)?,
            },
        })
    }

    /// The span in the range of its partition.
    pub fn ask(&self) -> &Ask
        ensures { result.now ≡ ask_of self.now }
    {
        &self.ask
    }

    /// The region of the partition, where the table is REGIONAL BY ROW.
    pub fn region(&self) -> Option<&[u8]>
        ensures { option_copied result ≡ self.now.partition.region }
    {
        match &self.region {
            None => None,
            Some(region) => Some(region.as_slice()),
        }
    }

    /// The number of the index: 0 is the primary key, and 1, 2, .. are the UNIQUE columns in declared order.
    pub fn index(&self) -> usize
        ensures { result ≡ self.now.index }
    {
        self.index
    }
}

impl CloneIn for Lookup {
    fn clone_in(&self, alloc: Global) -> Result<Lookup, Memory> {
        Ok(Lookup {
            region: self.region.clone_in(alloc)?,
            index: self.index,
            ask: self.ask.clone_in(alloc)?,
        })
    }
}

/// A span in each of these partitions, behind other look-ups.
pub(crate) fn push_lookups(
    alloc: Global,
    lookups: &mut ListOf<Lookup>,
    index: usize,
    span: &Span,
    partitions: &[Partition],
) -> Result<(), Memory>
    ensures { OnOk result (lookups.new ≡ lookups.old ++ map (lookup_in index span.now) partitions.now) }
{
    for partition in partitions {
        lookups.push(Lookup::new(alloc, partition, index, span)?)?;
    }
    Ok(())
}

/// The spans of look-ups in their order, as a search takes them.
pub fn asks(alloc: Global, lookups: &[Lookup]) -> Result<Vec<Ask>, Memory>
    ensures { IfOk result (λ asks. asks.items ≡ map ask_of lookups.now) }
{
    let mut asks = Vec::new(alloc);
    for lookup in lookups {
        asks.push(lookup.ask().clone_in(alloc)?)?;
    }
    Ok(asks)
}
