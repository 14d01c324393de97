//! Reading the lines of a scenario.

ghost use Rattle.std.specs.Prelude.{◌≡◌, ◌≤◌, ◌<◌, [], ℕ, Ok, Err, false, length, IfOk, IfErr, OnErr, IfSome, IfNone, Contains};
ghost use Rattle.scenario.specs.Judgements.{is_out_of_range, repeats_a_name};
ghost use Rattle.scenario.specs.Lines.{fault_of, IsRead, is_skipped, nothing_seen, reads, said, told_by};
ghost use Rattle.scenario.specs.Sound.{LinesAreSound};
ghost use Rattle.journal.specs.Names.{name_of};

use crate::forms::Form;
use crate::grammar::{form_of, named};
use crate::judgements::{
    awaits_nothing, begins_wrongly, is_out_of_order, is_out_of_range, meets_wrong_state,
    misses_message, names_nothing, repeats_a_name,
};
use crate::lines::{Line, LineFault};
use crate::seen::Seen;
use crate::seen_nodes::SeenNodes;
use crate::taking::take;
use crate::txn_names::TxnNames;
use crate::world::World;
use mr_base::{Bytes, ListOf, TxnId};
use std::alloc::Global;
use std::marker::Model;

/// The most bytes of a line, without its end.
const MOST_BYTES: usize = 4096;

/// The most lines that aren't skipped.
const MOST_LINES: u32 = 200_000;

/// The lines of a scenario that were read so far, as far as the next one depends on them.
#[derive(Drop)]
pub struct Scenario {
    alloc: Global,
    seen: Seen,
}

impl Model for Scenario {
    ghost use Rattle.std.specs.Prelude.{◌≤◌, length};
    ghost use Rattle.scenario.specs.declared.seen.Seen.{Seen};

    ghost Value = { Seen };

    ghost view = { λ s. s.seen };

    ghost invariant = { λ s. length s.seen.names ≤ s.seen.counted };
}

/// Whether a line is empty or a comment.
fn is_skipped(line: &[u8]) -> bool
    ensures { result ≡ is_skipped line.now }
{
    matches!(line, [] | [b'#', ..])
}

/// What a line says that isn't skipped.
#[tactic(auto, unfolding(crate::specs::Lines::said))]
fn said(alloc: Global, seen: &Seen, line: &[u8]) -> Result<Form, LineFault>
    ensures ok { IfOk result (λ f. said seen.now line.now ≡ Ok f) }
    ensures err { IfErr result (λ e. (k : ℕ) → e ≡ LineFault.S k → said seen.now line.now ≡ Err k) }
    ensures counts { IfOk result (λ f. seen.now.counted < 200000) }
{
    if seen.counted >= MOST_LINES {
        return Err(LineFault::S(11));
    }
    let Some(name) = named(line) else {
        return Err(LineFault::S(1));
    };
    form_of(alloc, name, line)
}

/// The fault of a line whose words fit its form.
#[tactic(auto, unfolding(crate::specs::Lines::fault_of))]
fn fault_of<W: World>(seen: &Seen, w: &W, form: &Form) -> Option<u8>
    ensures fault { result ≡ fault_of seen.now (told_by (W.flight w.now) (W.live_ranges w.now) (W.replicas w.now) (W.awaited w.now)) form.now }
    ensures in_range { IfNone result (is_out_of_range seen.now form.now ≡ false) }
    ensures fresh { IfNone result (repeats_a_name seen.now form.now ≡ false) }
{
    if is_out_of_range(seen, form) {
        return Some(3);
    }
    if begins_wrongly(seen, form) {
        return Some(5);
    }
    if is_out_of_order(seen, form) {
        return Some(6);
    }
    if names_nothing(seen, w, form) {
        return Some(4);
    }
    if repeats_a_name(seen, form) {
        return Some(7);
    }
    if misses_message(w, form) {
        return Some(8);
    }
    if meets_wrong_state(seen, w, form) {
        return Some(9);
    }
    if awaits_nothing(seen, w, form) {
        return Some(12);
    }
    None
}

/// What holds of a line that is read, and what is seen then. An event names nodes that are there, and that
/// run or are stopped as it needs them, ranges that are live, messages in flight, transactions that wait;
/// durations, clocks and numbers of nodes are within their limits. The line of the cluster is the first that
/// counts; nodes come before statements, at most 64 in at most 16 regions; regions, zones and transactions
/// have names, and statements and lists are UTF-8.
pub fn lines_are_sound()
    ensures { LinesAreSound }
{}

impl Scenario {
    /// A scenario of which nothing was read yet. With `zones_only` it is read for its ranges alone, and
    /// has no lines from `begin` on.
    pub fn new(alloc: Global, zones_only: bool) -> Scenario
        ensures { result ≡ nothing_seen zones_only }
    {
        let seen = Seen {
            zones_only,
            counted: 0,
            stated: false,
            begun: false,
            regions: ListOf::new(alloc),
            nodes: SeenNodes::new(alloc),
            names: TxnNames::new(alloc),
        };
        Scenario { alloc, seen }
    }

    /// The names of the transactions, in the order in which their lines were read: `TxnId(k)` has the
    /// name at place k, from 0 on.
    pub fn names(&self) -> &[Bytes]
        ensures { result.now ≡ self.now.names }
    {
        self.seen.names.as_slice()
    }

    /// The name of a transaction.
    pub fn name(&self, t: TxnId) -> &[u8]
        requires { IsRead self.now t }
        ensures { result.now ≡ name_of self.now.names t }
    {
        self.seen.names.as_slice()[t.0 as usize].as_slice()
    }

    /// The transaction of a name. None where no line of a transaction with this name was read.
    pub fn txn(&self, name: &[u8]) -> Option<TxnId>
        ensures found { IfSome result (λ t. IsRead self.now t × (name_of self.now.names t ≡ name.now)) }
        ensures none { IfNone result (¬ Contains self.now.names name.now) }
    {
        let place = self.seen.names.place(name)?;
        Some(TxnId(place))
    }

    /// Reads the next line, which comes without its end. The fault is the first that applies, in the
    /// order S10, S11, S1, S2, S3, S5, S6, S4, S7, S8, S9, S12; a refused line doesn't count as read.
    /// Source: this project's profile.
    #[tactic(auto, unfolding(crate::specs::Lines::reads))]
    pub fn read_line<W: World>(&mut self, line: &[u8], w: &W) -> Result<Line, LineFault>
        ensures read { IfOk result (λ l. reads self.old (told_by (W.flight w.now) (W.live_ranges w.now) (W.replicas w.now) (W.awaited w.now)) line.now ≡ Ok (l, self.new)) }
        ensures fault { IfErr result (λ e. (k : ℕ) → e ≡ LineFault.S k
            → reads self.old (told_by (W.flight w.now) (W.live_ranges w.now) (W.replicas w.now) (W.awaited w.now)) line.now ≡ Err k) }
        ensures unchanged { OnErr result (self.new ≡ self.old) }
    {
        if line.len() > MOST_BYTES {
            return Err(LineFault::S(10));
        }
        if is_skipped(line) {
            return Ok(Line::Skipped);
        }
        let form = said(self.alloc, &self.seen, line)?;
        if let Some(k) = fault_of(&self.seen, w, &form) {
            return Err(LineFault::S(k));
        }
        let line = take(self.alloc, &mut self.seen, form)?;
        self.seen.counted += 1;
        Ok(line)
    }
}
