//! A search through spans, one after the other.

ghost use Rattle.std.specs.Prelude.{◌≡◌, ◌<◌, ◌==◌, ◌&&◌, ◌++◌, not, length, IfOk, OnOk, OnErr};
ghost use Rattle.std.specs.Option.{IsSome, option_copied};
ghost use Rattle.local_search.specs.Searching.{begun, next_in, after_rows};

use mr_base::{Ask, CloneIn, ListOf, Memory, Pair};
use std::alloc::Global;
use std::marker::Model;

/// A search that asks spans in turn, the near one first, and keeps the pairs found. It may end at the first
/// span with a pair. Source: CockroachDB's locality optimized search, in this project's profile.
#[derive(Drop)]
pub struct Search {
    alloc: Global,
    order: Vec<Ask>,
    stops: bool,
    answered: usize,
    found: Vec<Pair>,
}

impl Model for Search {
    ghost use Rattle.local_search.specs.Searching.{Searching};

    ghost Value = { Searching };

    ghost view = { λ s. record {
      order = s.order.items;
      stops = s.stops;
      answered = s.answered;
      found = s.found.items;
    } };
}

impl Search {
    /// A search through the spans of a table's partitions, that at the place `first` before the others.
    /// `stop` ends it at the first span with a pair.
    pub fn new(alloc: Global, spans: &[Ask], first: usize, stop: bool) -> Result<Search, Memory>
        requires { first < length spans.now }
        ensures { IfOk result (λ s. s ≡ begun spans.now first stop) }
    {
        let mut order = Vec::new(alloc);
        order.push(spans[first].clone_in(alloc)?)?;
        push_copies(alloc, &mut order, &spans[..first])?;
        push_copies(alloc, &mut order, &spans[first + 1..])?;
        Ok(Search {
            alloc,
            order,
            stops: stop,
            answered: 0,
            found: Vec::new(alloc),
        })
    }

    /// The span that is asked next, or none where the search is done.
    pub fn next(&self) -> Option<&Ask>
        ensures { option_copied result ≡ next_in self.now }
    {
        if ends_at(self.stops, self.found.as_slice()) {
            return None;
        }
        self.order.as_slice().get(self.answered)
    }

    /// Takes the pairs of the span that is asked next. After want of memory the search is as it was.
    pub fn found(&mut self, rows: &[Pair]) -> Result<(), Memory>
        requires { IsSome (next_in self.old) }
        ensures ok { OnOk result (self.new ≡ after_rows self.old rows.now) }
        ensures err { OnErr result (self.new ≡ self.old) }
    {
        push_copies(self.alloc, &mut self.found, rows)?;
        self.answered += 1;
        Ok(())
    }

    /// The pairs found so far.
    pub fn rows(&self) -> &[Pair]
        ensures { result.now ≡ self.now.found }
    {
        self.found.as_slice()
    }
}

/// Whether a search ends with these pairs.
fn ends_at(stops: bool, found: &[Pair]) -> bool
    ensures { result ≡ (stops && not (length found.now == 0)) }
{
    stops && !found.is_empty()
}

/// Copies at the end of a list, which stays as it is after want of memory.
fn push_copies<T: CloneIn>(alloc: Global, list: &mut Vec<T>, items: &[T]) -> Result<(), Memory>
    ensures ok { OnOk result (list.new.items ≡ list.old.items ++ items.now) }
    ensures err { OnErr result (list.new.items ≡ list.old.items) }
{
    let mut copies = ListOf::copy_of(alloc, items)?.into_vec();
    list.append(&mut copies)?;
    Ok(())
}
