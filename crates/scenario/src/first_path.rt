//! Reading the lines of the first path: one node and one table.

ghost use Rattle.std.specs.Prelude.{◌≡◌, ◌↔◌, [], ℕ, List, None, false, IfOk, IfErr, OnErr, IfSome, IfNone, IsTrue, Contains};
ghost use Rattle.scenario.specs.FirstPath.{Answers, HasNoLine, Reads, IsSkipped, IsTxnName, IsTxnLine, IsClockText, IsNodeLine, IsRead};
ghost use Rattle.scenario.specs.NamePlaces.{place_of};
ghost use Rattle.journal.specs.Names.{name_of};
ghost use Rattle.region_sql.specs.OneColumnForms.{IsTaken};
ghost use Rattle.scenario.specs.declared.first_path.Expected.TheVariants as expected;

use crate::lines::{Line, LineFault};
use crate::txn_names::TxnNames;
use crate::world::World;
use journal::{Event, standard_settings};
use mr_base::{Bytes, CloneIn, Kind, Memory, NodeId, NodeInfo, TxnId, after_head, round_blank};
use region_sql::one_column_statement;
use std::alloc::Global;
use std::marker::Model;

/// Which line comes next.
#[derive(Clone, Copy)]
pub enum Expected {
    Cluster,
    Node,
    Database,
    Table,
    Begin,
    Transaction,
}

/// The lines of the first path that were read so far, as far as the next one depends on them.
#[derive(Drop)]
pub struct FirstPath {
    alloc: Global,
    zones_only: bool,
    expected: Expected,
    names: TxnNames,
}

impl Model for FirstPath {
    ghost use Rattle.scenario.specs.FirstSeen.{Seen};

    ghost Value = { Seen };

    ghost view = { λ s. record { zones_only = s.zones_only; expected = s.expected; names = s.names } };
}

/// The physical clock that a text writes: milliseconds from 1 to below 2^53, in decimal digits without
/// leading zeros.
fn clock_of(text: &[u8]) -> Option<u64>
    ensures found { IfSome result (λ n. IsClockText text.now n) }
    ensures only { IfNone result ((n : ℕ) → ¬ IsClockText text.now n) }
{
    let s = std::str::from_utf8(text).ok()?;
    match text {
        [b'+', ..] => None,
        [b'0', ..] => None,
        _ => s.parse::<u64>().ok().filter(|n| *n < 1 << 53),
    }
}

/// Whether a text is a transaction's name.
fn is_txn_name(name: &[u8]) -> bool
    ensures { IsTrue result ↔ IsTxnName name.now }
{
    let letter = matches!(name, [b'a'..=b'z', ..]);
    let plain = |b: &u8| matches!(*b, b'a'..=b'z' | b'0'..=b'9' | b'_');
    letter && name.len() <= 32 && name.iter().all(plain)
}

/// Whether a line is empty or a comment.
fn is_skipped(line: &[u8]) -> bool
    ensures { IsTrue result ↔ IsSkipped line.now }
{
    matches!(line, [] | [b'#', ..])
}

/// The name and the list of the line of a transaction.
fn txn_line(line: &[u8]) -> Option<(&[u8], &[u8])>
    ensures found { IfSome result (λ parts. IsTxnLine line.now parts.0.now parts.1.now) }
    ensures only { IfNone result ((name list : List ℕ) → ¬ IsTxnLine line.now name list) }
{
    let Some(rest) = after_head(line, b"txn ") else {
        return None;
    };
    let Some((name, rest)) = round_blank(rest) else {
        return None;
    };
    let Some(list) = after_head(rest, b"n1 now ") else {
        return None;
    };
    if is_txn_name(name) {
        Some((name, list))
    } else {
        None
    }
}

/// The clock of the line of the node.
fn node_line(line: &[u8]) -> Option<u64>
    ensures found { IfSome result (λ n. IsNodeLine line.now n) }
    ensures only { IfNone result ((n : ℕ) → ¬ IsNodeLine line.now n) }
{
    let Some(digits) = after_head(line, b"node n1 us-east a ") else {
        return None;
    };
    clock_of(digits)
}

/// Whether a list is one that the cluster of one table takes.
fn is_taken(list: &[u8]) -> bool
    ensures { IsTrue result ↔ IsTaken list.now }
{
    one_column_statement(list).is_some()
}

/// Whether a name is among these.
fn is_used(names: &TxnNames, name: &[u8]) -> bool
    ensures used { IsTrue result ↔ Contains names.now name.now }
    ensures absent { result ≡ false → place_of names.now name.now ≡ None }
{
    match names.place(name) {
        Some(_) => true,
        None => false,
    }
}

impl FirstPath {
    ghost use Rattle.scenario.specs.FirstSeen.{Seen};

    /// A first path of which nothing was read yet. With `zones_only` it is read for its ranges alone.
    pub fn new(alloc: Global, zones_only: bool) -> FirstPath
        ensures { result ≡ record { zones_only = zones_only; expected = expected.Cluster; names = [] } }
    {
        FirstPath {
            alloc,
            zones_only,
            expected: Expected::Cluster,
            names: TxnNames::new(alloc),
        }
    }

    /// The names of the transactions, in the order in which their lines were read: `TxnId(k)` has the
    /// name at place k, from 0 on.
    pub fn names(&self) -> &[Bytes]
        ensures { result.now ≡ self.now.names }
    {
        self.names.as_slice()
    }

    /// The name of a transaction.
    pub fn name(&self, t: TxnId) -> &[u8]
        requires { IsRead self.now t }
        ensures { result.now ≡ name_of self.now.names t }
    {
        self.names.as_slice()[t.0 as usize].as_slice()
    }

    /// Reads the next line, which comes without its end. Source: this project's profile.
    pub fn read_line<W: World>(&mut self, line: &[u8], _w: &W) -> Result<Line, LineFault>
        ensures read { IfOk result (λ l. Reads self.old line.now l self.new) }
        ensures fault { IfErr result (λ e. (k : ℕ) → e ≡ LineFault.S k → (k ≡ 1) × HasNoLine self.old line.now) }
        ensures unchanged { OnErr result (self.new ≡ self.old) }
    {
        self.answer(line)
    }

    fn answer(&mut self, line: &[u8]) -> Result<Line, LineFault>
        ensures { Answers self.old line.now result self.new }
    {
        if is_skipped(line) {
            return Ok(Line::Skipped);
        }
        match self.expected {
            Expected::Cluster => self.cluster(line),
            Expected::Node => self.node(line),
            Expected::Database => self.database(line),
            Expected::Table => self.table(line),
            Expected::Begin => self.begin(line),
            Expected::Transaction => self.transaction(line),
        }
    }

    fn cluster(&mut self, line: &[u8]) -> Result<Line, LineFault>
        requires expected { self.old.expected ≡ Expected.Cluster }
        requires counts { ¬ IsSkipped line.now }
        ensures { Answers self.old line.now result self.new }
    {
        if line != b"cluster".as_slice() {
            return Err(LineFault::S(1));
        }
        self.expected = Expected::Node;
        Ok(Line::Cluster(standard_settings()))
    }

    fn node(&mut self, line: &[u8]) -> Result<Line, LineFault>
        requires expected { self.old.expected ≡ Expected.Node }
        requires counts { ¬ IsSkipped line.now }
        ensures { Answers self.old line.now result self.new }
    {
        let Some(clock) = node_line(line) else {
            return Err(LineFault::S(1));
        };
        let region = Bytes::from_slice(self.alloc, b"us-east")?;
        let zone = Bytes::from_slice(self.alloc, b"a")?;
        self.expected = Expected::Database;
        let id = NodeId(1);
        Ok(Line::Node(NodeInfo { id, region, zone }, clock))
    }

    fn database(&mut self, line: &[u8]) -> Result<Line, LineFault>
        requires expected { self.old.expected ≡ Expected.Database }
        requires counts { ¬ IsSkipped line.now }
        ensures { Answers self.old line.now result self.new }
    {
        if line != b"sql CREATE DATABASE d".as_slice() {
            return Err(LineFault::S(1));
        }
        let text = Bytes::from_slice(self.alloc, b"CREATE DATABASE d")?;
        self.expected = Expected::Table;
        Ok(Line::Sql(text))
    }

    fn table(&mut self, line: &[u8]) -> Result<Line, LineFault>
        requires expected { self.old.expected ≡ Expected.Table }
        requires counts { ¬ IsSkipped line.now }
        ensures { Answers self.old line.now result self.new }
    {
        if line != b"sql CREATE TABLE t (id INT PRIMARY KEY)".as_slice() {
            return Err(LineFault::S(1));
        }
        let text = Bytes::from_slice(self.alloc, b"CREATE TABLE t (id INT PRIMARY KEY)")?;
        self.expected = Expected::Begin;
        Ok(Line::Sql(text))
    }

    fn begin(&mut self, line: &[u8]) -> Result<Line, LineFault>
        requires expected { self.old.expected ≡ Expected.Begin }
        requires counts { ¬ IsSkipped line.now }
        ensures { Answers self.old line.now result self.new }
    {
        if line != b"begin".as_slice() {
            return Err(LineFault::S(1));
        }
        self.expected = Expected::Transaction;
        Ok(Line::Event(Event::Begin))
    }

    fn transaction(&mut self, line: &[u8]) -> Result<Line, LineFault>
        requires expected { self.old.expected ≡ Expected.Transaction }
        requires counts { ¬ IsSkipped line.now }
        ensures { Answers self.old line.now result self.new }
    {
        let Some((name, list)) = txn_line(line) else {
            return Err(LineFault::S(1));
        };
        if is_used(&self.names, name) {
            return Err(LineFault::S(1));
        }
        if !is_taken(list) {
            return Err(LineFault::S(1));
        }
        let name = Bytes::from_slice(self.alloc, name)?;
        let list = Bytes::from_slice(self.alloc, list)?;
        let Ok(txn) = u32::try_from(self.names.len()) else {
            return Err(LineFault::Memory);
        };
        self.names.push(name, txn)?;
        Ok(Line::Event(Event::Txn {
            txn: TxnId(txn),
            gateway: NodeId(1),
            kind: Kind::Now,
            list,
        }))
    }
}
