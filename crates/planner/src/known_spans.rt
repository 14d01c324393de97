//! The spans that were fed, kept so that those which cover an ask are found.

ghost use Rattle.std.specs.Prelude.{◌≡◌, ◌++◌, ◌∷◌, [], List, None, IfOk, OnOk, OnErr, length, filter, map, option_map, option_to_list, slice_get};
ghost use Rattle.std.specs.Option.{option_copied};
ghost use Rattle.mr_base.specs.Scripts.{fed_with};
ghost use Rattle.mr_base.specs.declared.script.Fed.{Fed};
ghost use Rattle.mr_base.specs.declared.spans.Pair.{Pair};
ghost use Rattle.row_locality.specs.Pairs.{key_value};
ghost use Rattle.row_locality.specs.Spans.{is_in, is_inside};
ghost use Rattle.sql_eval.specs.Reads.{covers, served_reads};
ghost use Rattle.planner.specs.Numbered.{AreNumbered, first_covering, is_point, those_numbered};

use crate::own_writes::Place;
use mr_base::{Ask, Bytes, CloneIn, Fed, ListOf, Memory, Pair, Span};
use std::alloc::Global;
use std::collections::BTreeMap;
use std::marker::Model;

/// The spans that were fed, first things first, each with its rows. A span of one key is found by its range and
/// key.
#[derive(Drop)]
pub struct KnownSpans {
    fed: Vec<Fed>,
    numbers: Numbers,
}

impl Model for KnownSpans {
    ghost use Rattle.std.specs.Prelude.{List};
    ghost use Rattle.mr_base.specs.declared.script.Fed.{Fed};
    ghost use Rattle.planner.specs.Numbered.{AreNumbered};

    ghost Value = { List Fed };

    ghost view = { λ k. k.fed.items };

    ghost invariant = { λ k. AreNumbered k.fed.items k.numbers.points.entries k.numbers.wide.items };
}

impl KnownSpans {
    /// Nothing was fed.
    pub fn new(alloc: Global) -> KnownSpans
        ensures { result ≡ [] }
    {
        KnownSpans {
            fed: Vec::new(alloc),
            numbers: Numbers::new(alloc),
        }
    }

    /// A span that none so far covers was fed these rows. After want of memory nothing has changed.
    pub fn add(&mut self, alloc: Global, ask: &Ask, rows: &[Pair]) -> Result<(), Memory>
        requires { served_reads self.old ask.now ≡ None }
        ensures added { OnOk result (self.new ≡ self.old ++ fed_with ask.now rows.now ∷ []) }
        ensures err { OnErr result (self.new ≡ self.old) }
    {
        let fed = Fed {
            ask: ask.clone_in(alloc)?,
            rows: ListOf::copy_of(alloc, rows)?,
        };
        self.fed.reserve(1)?;
        let number = self.fed.as_slice().len();
        self.numbers.add(alloc, ask, number)?;
        self.fed.push_reserved(fed);
        Ok(())
    }

    /// The first span fed that covers an ask.
    pub fn first_covering(&self, alloc: Global, ask: &Ask) -> Result<Option<&Fed>, Memory>
        ensures { IfOk result (λ fed. option_copied fed ≡ first_covering ask.now self.now) }
    {
        if !is_point(&ask.span) {
            return Ok(first_of(self.fed.as_slice(), ask));
        }
        let place = (ask.range, ask.span.lo.clone_in(alloc)?);
        match self.numbers.points.get(&place) {
            Some(number) => Ok(fed_at(self.fed.as_slice(), *number)),
            None => Ok(first_numbered(self.fed.as_slice(), self.numbers.wide.as_slice(), ask)),
        }
    }

    /// The rows of a span, where what was fed tells them.
    pub fn served(&self, alloc: Global, ask: &Ask) -> Result<Option<ListOf<Pair>>, Memory>
        ensures { IfOk result (λ rows. option_map (map key_value) rows ≡ served_reads self.now ask.now) }
    {
        match self.first_covering(alloc, ask)? {
            None => Ok(None),
            Some(fed) => Ok(Some(rows_within(alloc, &ask.span, fed.rows.as_slice())?)),
        }
    }
}

/// The numbers of the spans that were fed: of a place, where the span of that key was fed, and of the wider ones
/// in their order.
#[derive(Drop)]
struct Numbers {
    points: BTreeMap<Place, usize>,
    wide: Vec<usize>,
}

impl Numbers {
    fn new(alloc: Global) -> Numbers
        ensures { AreNumbered [] result.points.entries result.wide.items }
    {
        Numbers {
            points: BTreeMap::new(alloc),
            wide: Vec::new(alloc),
        }
    }

    /// A span that none so far covers was fed, and has this number.
    fn add(&mut self, alloc: Global, ask: &Ask, number: usize) -> Result<(), Memory>
        ensures ok { OnOk result ((fed : List Fed) (rows : List Pair)
            → AreNumbered fed self.old.points.entries self.old.wide.items → number ≡ length fed
            → first_covering ask.now fed ≡ None
            → AreNumbered (fed ++ fed_with ask.now rows ∷ []) self.new.points.entries self.new.wide.items) }
        ensures points { OnErr result (self.new.points.entries ≡ self.old.points.entries) }
        ensures wide { OnErr result (self.new.wide.items ≡ self.old.wide.items) }
    {
        if !is_point(&ask.span) {
            self.wide.push(number)?;
            return Ok(());
        }
        let place = (ask.range, ask.span.lo.clone_in(alloc)?);
        self.points.insert(place, number)?;
        Ok(())
    }
}

/// Whether the span holds one key alone, its lower end: the upper end is the same followed by a zero byte.
fn is_point(s: &Span) -> bool
    ensures { result ≡ is_point s.now }
{
    match s.hi.as_slice().split_last() {
        Some((last, front)) => *last == 0 && front == s.lo.as_slice(),
        None => false,
    }
}

/// Whether a span lies inside another.
fn is_inside(inner: &Span, outer: &Span) -> bool
    ensures { result ≡ is_inside inner.now outer.now }
{
    if inner.lo < outer.lo {
        return false;
    }
    !(outer.hi < inner.hi)
}

/// Whether what was fed covers an ask.
fn covers(ask: &Ask, fed: &Fed) -> bool
    ensures { result ≡ covers ask.now fed.now }
{
    if ask.range != fed.ask.range {
        return false;
    }
    is_inside(&ask.span, &fed.ask.span)
}

/// The first that covers an ask.
fn first_of<'a>(fed: &'a [Fed], ask: &Ask) -> Option<&'a Fed>
    ensures { option_copied result ≡ first_covering ask.now fed.now }
{
    fed.iter().find(|f| covers(ask, f))
}

/// The span fed of a number.
fn fed_at(fed: &[Fed], number: usize) -> Option<&Fed>
    ensures { option_copied result ≡ slice_get fed.now number }
{
    fed.get(number)
}

/// The span fed of a number, where it covers an ask.
fn covering_at<'a>(fed: &'a [Fed], number: usize, ask: &Ask) -> Option<&'a Fed>
    ensures { option_copied result ≡ first_covering ask.now (option_to_list (slice_get fed.now number)) }
{
    let Some(f) = fed_at(fed, number) else {
        return None;
    };
    if covers(ask, f) {
        return Some(f);
    }
    None
}

/// The first of these numbers that covers an ask.
#[tactic(auto, using(crate::proofs::CoveringLemmas::first_step))]
fn first_numbered<'a>(fed: &'a [Fed], numbers: &[usize], ask: &Ask) -> Option<&'a Fed>
    ensures { option_copied result ≡ first_covering ask.now (those_numbered fed.now numbers.now) }
{
    for number in numbers {
        if let Some(f) = covering_at(fed, *number, ask) {
            return Some(f);
        }
    }
    None
}

/// Whether a key lies in a span.
fn is_in(span: &Span, key: &Bytes) -> bool
    ensures { result ≡ is_in span.now key.now }
{
    if *key < span.lo {
        return false;
    }
    *key < span.hi
}

/// The rows whose keys lie in a span.
fn rows_within(alloc: Global, span: &Span, rows: &[Pair]) -> Result<ListOf<Pair>, Memory>
    ensures { IfOk result (λ within. within ≡ filter (λ p. is_in span.now p.key) rows.now) }
{
    let mut within = ListOf::new(alloc);
    for row in rows {
        if is_in(span, &row.key) {
            within.push(row.clone_in(alloc)?)?;
        }
    }
    Ok(within)
}
