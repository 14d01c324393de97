//! The scenario of a seed, as one text or written to a sink.

ghost use Rattle.std.specs.Prelude.{◌≡◌, ◌≤◌, ◌++◌, string_bytes, Err, IfOk, OnErr, OnOk};
ghost use Rattle.std.specs.Io.KnownBytes.{append_known};
ghost use Rattle.mr_io.specs.Faults.{CountsFault};
ghost use Rattle.mr_io.specs.Pieces.{WrotePrefix};
ghost use Rattle.workload.specs.Draws.{behind, drawn};
ghost use Rattle.workload.specs.Generated.{drain_text, footer, gen_text, header, leases_text, transaction_text, transactions_text};

use crate::draws::{draw, seeded};
use crate::transactions::Transaction;
use mr_base::{Bytes, Memory};
use mr_io::{Failed, Sink, write_all};
use rand_pcg::Lcg64Xsh32;
use std::alloc::{AllocError, Global};

const HEADER: &str = "cluster
node n1 us-east a 1000
node n2 us-east b 1000
node n3 us-east c 1000
node n4 us-west a 1000
node n5 us-west b 1000
node n6 us-west c 1000
node n7 eu-west a 1000
node n8 eu-west b 1000
node n9 eu-west c 1000
sql CREATE DATABASE d PRIMARY REGION \"us-east\" REGIONS \"us-west\", \"eu-west\"
sql CREATE TABLE users (id INT PRIMARY KEY, email STRING UNIQUE, v INT) LOCALITY REGIONAL BY ROW
sql CREATE TABLE promo (code STRING PRIMARY KEY, pct INT) LOCALITY GLOBAL
begin
";

const FOOTER: &str = "drain
settle 1000
";

/// Why a scenario isn't written whole.
#[derive(Clone, Copy, Debug, PartialEq, Eq)]
pub enum GenFault {
    /// A write failed.
    Write,
    /// Memory ran out.
    Memory,
}

impl From<Memory> for GenFault {
    ghost use Rattle.std.specs.Prelude.{◌≡◌};
    ghost use Rattle.workload.specs.declared.generated.GenFault.TheVariants.{Memory};

    ghost from_gives = { λ _ e. e ≡ Memory };

    fn from(_e: Memory) -> GenFault {
        GenFault::Memory
    }
}

impl From<Failed> for GenFault {
    ghost use Rattle.std.specs.Prelude.{◌≡◌};
    ghost use Rattle.workload.specs.declared.generated.GenFault.TheVariants.{Write};

    ghost from_gives = { λ _ e. e ≡ Write };

    /// A write that failed.
    fn from(_e: Failed) -> GenFault {
        GenFault::Write
    }
}

/// The lines before the transactions.
fn header() -> &'static str
    ensures { result.now ≡ header }
{
    HEADER
}

/// The lines behind the transactions.
fn footer() -> &'static str
    ensures { result.now ≡ footer }
{
    FOOTER
}

/// The line that has all messages delivered, where it follows.
fn drain_line(drains: bool) -> &'static str
    ensures { result.now ≡ drain_text drains }
{
    if drains { "drain\n" } else { "" }
}

/// The lines that extend the leases and close timestamps, where they follow the transaction of this number.
fn lease_lines(number: u32) -> &'static str
    ensures { result.now ≡ leases_text number }
{
    if number % 500 == 0 {
        "lease extend r1\nlease extend r2\nlease extend r3\nlease extend r4\nclose all\n"
    } else {
        ""
    }
}

/// The lines of a transaction.
fn lines_of(alloc: Global, transaction: Transaction) -> Result<String, AllocError>
    ensures { IfOk result (λ text. string_bytes text ≡ transaction_text transaction) }
{
    let Transaction {
        number,
        gateway,
        statement,
        drains,
    } = transaction;
    let mut lines = format!(in alloc; "tick all 1\ntxn x{number} {gateway} now {statement}\n")?;
    lines.push_str(drain_line(drains))?;
    lines.push_str(lease_lines(number))?;
    Ok(lines)
}

/// Draws the transaction of this number, and gives its lines.
fn next_lines(alloc: Global, words: &mut Lcg64Xsh32, number: u32) -> Result<String, Memory>
    ensures lines { IfOk result (λ text. string_bytes text ≡ transaction_text (drawn number words.old)) }
    ensures moved { words.new ≡ behind words.old }
{
    let transaction = draw(words, number);
    Ok(lines_of(alloc, transaction)?)
}

/// Adds the lines of so many transactions.
#[tactic(auto, unfolding(crate::specs::Generated::transactions_text, crate::specs::Generated::words_after))]
fn add_transactions(alloc: Global, text: &mut Vec<u8>, seed: u64, size: u32) -> Result<(), Memory>
    ensures { OnOk result (text.new.items ≡ text.old.items ++ transactions_text size seed) }
{
    let mut words = seeded(seed);
    for done in 0..size {
        let lines = next_lines(alloc, &mut words, done + 1)?;
        text.extend_from_slice(lines.as_bytes())?;
    }
    Ok(())
}

/// The scenario of a seed with so many transactions. Errors: want of memory.
pub fn gen_text(alloc: Global, seed: u64, size: u32) -> Result<Bytes, Memory>
    ensures text { IfOk result (λ text. text ≡ gen_text seed size) }
{
    let mut text = header().as_bytes().to_vec(alloc)?;
    add_transactions(alloc, &mut text, seed, size)?;
    text.extend_from_slice(footer().as_bytes())?;
    Ok(Bytes::from_vec(text))
}

/// Writes the lines of so many transactions, one transaction after the other.
#[tactic(auto, unfolding(crate::specs::Generated::transactions_text, crate::specs::Generated::words_after))]
fn write_transactions<K: Sink>(
    alloc: Global,
    seed: u64,
    size: u32,
    sink: &mut K,
) -> Result<(), GenFault>
    ensures all { OnOk result
        (K.written sink.new ≡ append_known (K.written sink.old) (transactions_text size seed)) }
    ensures part { OnErr result
        (WrotePrefix (K.written sink.old) (K.written sink.new) (transactions_text size seed)) }
    ensures failed { result ≡ Err GenFault.Write
        → CountsFault (K.faults sink.old) (K.faults sink.new) K.most_faults }
    ensures never_falls { K.faults sink.old ≤ K.faults sink.new }
{
    let mut words = seeded(seed);
    for done in 0..size {
        let lines = next_lines(alloc, &mut words, done + 1)?;
        write_all(sink, lines.as_bytes())?;
    }
    Ok(())
}

/// Writes the scenario of a seed with so many transactions, piece by piece. Errors: a write that failed, which the sink
/// has counted, and want of memory; what was written then is a first part of the scenario, and something of it was left
/// to write.
pub fn generate<K: Sink>(alloc: Global, seed: u64, size: u32, sink: &mut K) -> Result<(), GenFault>
    ensures all { OnOk result (K.written sink.new ≡ append_known (K.written sink.old) (gen_text seed size)) }
    ensures part { OnErr result (WrotePrefix (K.written sink.old) (K.written sink.new) (gen_text seed size)) }
    ensures failed { result ≡ Err GenFault.Write
        → CountsFault (K.faults sink.old) (K.faults sink.new) K.most_faults }
    ensures never_falls { K.faults sink.old ≤ K.faults sink.new }
{
    write_all(sink, header().as_bytes())?;
    write_transactions(alloc, seed, size, sink)?;
    write_all(sink, footer().as_bytes())?;
    Ok(())
}
