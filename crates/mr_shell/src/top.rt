//! The call that the program makes.

ghost use Rattle.std.specs.Prelude.{◌≡◌, ◌≤◌, ◌⊎◌, ℕ, [], Option};
ghost use Rattle.mr_io.specs.Faults.{CountsFault};
ghost use Rattle.mr_shell.specs.Ended.{Ended, Gives};
ghost use Rattle.mr_shell.specs.Ends.{IsStatus, EndsPieces};
ghost use Rattle.mr_shell.specs.Exchange.{HasFailed, exchange, side};
ghost use Rattle.mr_shell.specs.GenEnded.{GenEnded, ScenarioEnded};
ghost use Rattle.mr_shell.specs.LinesEnded.{LinesEnded};
ghost use Rattle.mr_shell.specs.RunEnded.{run_course, run_text};
ghost use Rattle.mr_shell.specs.Tasks.{task_of};
ghost use Rattle.mr_shell.specs.Texts.{IsTold, Says, last_line};
ghost use Rattle.mr_shell.specs.UsageEnded.{UsageLineEnded};
ghost use Rattle.mr_shell.specs.ZonesEnded.{zones_course, zones_text};
ghost use Rattle.mr_shell.specs.declared.tasks.Task.TheVariants.{Gen as GenOf, Run, Zones as ZonesIn};
ghost use Rattle.zone_report.specs.declared.report.Format.{Format as AnyFormat};
ghost use Rattle.journal_text.specs.declared.modes.Mode.{Mode as AnyMode};

use crate::outcome::{End, Outcome};
use crate::pieces::run_source;
use crate::report::write_text;
use crate::session::Session;
use crate::tasks::{Task, task_of};
use crate::zones_session::ZonesSession;
use mr_io::{Sink, Source};
use one_node_laws::{lawful_is_serial, lawful_is_visible};
use scenario::{Journal, Mode};
use std::alloc::Global;
use workload::{GenFault, generate};
use zone_report::{Format, ranges_are_placed};

/// The line of a usage fault.
const USAGE: &str =
    "! usage: run [--trace | --summary] | zones [--json] | gen SEED SIZE | work SEED SIZE\n";

/// Carries out the command that the words are, on what the source gives, and writes its report to the
/// sink.
pub fn top<S: Source, K: Sink>(
    alloc: Global,
    words: &[String],
    source: &mut S,
    sink: &mut K,
) -> Outcome
    // Nothing else is answered.
    ensures statuses { IsStatus result.status }
    // The run has ended as the command says that the words are, or as it does where they are none.
    ensures ended { Ended (task_of words.now) result
        (exchange (side source.old source.new S.left S.faults S.most_faults)
        (side sink.old sink.new K.written K.faults K.most_faults)) }
    // Where no call failed and memory was found, the status is the one that the command gives for the bytes held.
    ensures exact { let x = exchange (side source.old source.new S.left S.faults S.most_faults)
        (side sink.old sink.new K.written K.faults K.most_faults) in
        ¬ HasFailed x.source → ¬ HasFailed x.sink → (status : ℕ) → Gives (task_of words.now) x status
        → (result.status ≡ status) ⊎ (result.status ≡ 5) }
    // A read that failed was counted at status 3, and a write that failed at status 4.
    ensures faults { (result.status ≡ 3 → HasFailed (side source.old source.new S.left S.faults S.most_faults))
        × (result.status ≡ 4 → HasFailed (side sink.old sink.new K.written K.faults K.most_faults)) }
{
    lawful_is_serial();
    lawful_is_visible();
    ranges_are_placed();
    let Ok(asked) = task_of(alloc, words) else {
        return out_of_memory(alloc);
    };
    match asked {
        None => usage(alloc, sink),
        Some(task) => carry_out(alloc, task, source, sink),
    }
}

/// Nothing was read, since the words couldn't be read for want of memory.
fn out_of_memory(alloc: Global) -> Outcome
    ensures status { result.status ≡ 5 }
    ensures journal { result.journal ≡ [] }
{
    Outcome {
        status: End::Memory.status(),
        journal: Journal::new(alloc),
    }
}

/// Says what the words may be.
fn usage<K: Sink>(alloc: Global, sink: &mut K) -> Outcome
    ensures status { (result.status ≡ 2) ⊎ (result.status ≡ 4) }
    ensures journal { result.journal ≡ [] }
    ensures line { UsageLineEnded result.status (K.written sink.old) (K.written sink.new) }
    ensures failed { result.status ≡ 4 → CountsFault (K.faults sink.old) (K.faults sink.new) K.most_faults }
{
    let end = match write_text(USAGE.as_bytes(), sink) {
        Ok(()) => End::Usage,
        Err(end) => end,
    };
    let status = end.status();
    Outcome {
        status,
        journal: Journal::new(alloc),
    }
}

/// Does what is asked.
fn carry_out<S: Source, K: Sink>(alloc: Global, task: Task, source: &mut S, sink: &mut K) -> Outcome
    ensures statuses { IsStatus result.status }
    ensures ran { (mode : AnyMode) → task ≡ Run mode → LinesEnded run_course (run_text mode) result
        (exchange (side source.old source.new S.left S.faults S.most_faults)
        (side sink.old sink.new K.written K.faults K.most_faults)) }
    ensures zoned { (format : AnyFormat) → task ≡ ZonesIn format → LinesEnded zones_course (zones_text format) result
        (exchange (side source.old source.new S.left S.faults S.most_faults)
        (side sink.old sink.new K.written K.faults K.most_faults)) }
    ensures generated { (seed size : ℕ) → task ≡ GenOf seed size → GenEnded seed size result
        (exchange (side source.old source.new S.left S.faults S.most_faults)
        (side sink.old sink.new K.written K.faults K.most_faults)) }
    ensures read_failed { result.status ≡ 3 → CountsFault (S.faults source.old) (S.faults source.new) S.most_faults }
    ensures write_failed { result.status ≡ 4 → CountsFault (K.faults sink.old) (K.faults sink.new) K.most_faults }
{
    match task {
        Task::Run(mode) => run(alloc, mode, source, sink),
        Task::Zones(format) => zones(alloc, format, source, sink),
        Task::Gen { seed, size } => generated(alloc, seed, size, sink),
    }
}

/// Runs the scenario that the source gives.
fn run<S: Source, K: Sink>(alloc: Global, mode: Mode, source: &mut S, sink: &mut K) -> Outcome
    ensures statuses { IsStatus result.status }
    ensures ended { LinesEnded run_course (run_text mode) result
        (exchange (side source.old source.new S.left S.faults S.most_faults)
        (side sink.old sink.new K.written K.faults K.most_faults)) }
    ensures read_failed { result.status ≡ 3 → CountsFault (S.faults source.old) (S.faults source.new) S.most_faults }
    ensures write_failed { result.status ≡ 4 → CountsFault (K.faults sink.old) (K.faults sink.new) K.most_faults }
{
    let mut session = Session::new(alloc, mode);
    let end = match run_source(alloc, &mut session, source, sink) {
        Ok(()) => End::Whole,
        Err(end) => say(alloc, end, sink),
    };
    Outcome {
        status: end.status(),
        journal: session.into_journal(),
    }
}

/// Writes the ranges of the scenario that the source gives.
fn zones<S: Source, K: Sink>(alloc: Global, format: Format, source: &mut S, sink: &mut K) -> Outcome
    ensures statuses { IsStatus result.status }
    ensures ended { LinesEnded zones_course (zones_text format) result
        (exchange (side source.old source.new S.left S.faults S.most_faults)
        (side sink.old sink.new K.written K.faults K.most_faults)) }
    ensures read_failed { result.status ≡ 3 → CountsFault (S.faults source.old) (S.faults source.new) S.most_faults }
    ensures write_failed { result.status ≡ 4 → CountsFault (K.faults sink.old) (K.faults sink.new) K.most_faults }
{
    let mut session = ZonesSession::new(alloc);
    let end = match run_source(alloc, &mut session, source, sink) {
        Ok(()) => session.write_report(format, sink),
        Err(end) => say(alloc, end, sink),
    };
    let status = end.status();
    Outcome {
        status,
        journal: Journal::new(alloc),
    }
}

/// Writes the scenario of this seed with so many transactions.
fn generated<K: Sink>(alloc: Global, seed: u64, size: u32, sink: &mut K) -> Outcome
    ensures status { (result.status ≡ 0) ⊎ ((result.status ≡ 4) ⊎ (result.status ≡ 5)) }
    ensures journal { result.journal ≡ [] }
    ensures text { ScenarioEnded seed size result.status (K.written sink.old) (K.written sink.new) }
    ensures failed { result.status ≡ 4 → CountsFault (K.faults sink.old) (K.faults sink.new) K.most_faults }
{
    let end = match generate(alloc, seed, size, sink) {
        Err(GenFault::Write) => End::Write,
        Err(GenFault::Memory) => End::Memory,
        Ok(_) => End::Whole,
    };
    let status = end.status();
    Outcome {
        status,
        journal: Journal::new(alloc),
    }
}

/// Writes the line that says why the run ends, where there is one, and says why the run ends then.
fn say<K: Sink>(alloc: Global, end: End, sink: &mut K) -> End
    requires { EndsPieces end }
    ensures says { Says end result (K.written sink.old) (K.written sink.new) }
    ensures ends { EndsPieces result }
    ensures read { result ≡ End.Read → end ≡ End.Read }
    ensures failed { result ≡ End.Write → (end ≡ End.Write) ⊎ CountsFault (K.faults sink.old) (K.faults sink.new) K.most_faults }
    ensures never_falls { K.faults sink.old ≤ K.faults sink.new }
{
    match end {
        End::Size => write_line(end, b"! size\n", sink),
        End::Fault { fault, line } => match format!(in alloc; "! S{fault} line {line}\n") {
            Err(_) => End::Memory,
            Ok(text) => write_line(end, text.as_bytes(), sink),
        },
        _ => end,
    }
}

/// Writes the last line; the run ends so where it could be written.
fn write_line<K: Sink>(end: End, line: &[u8], sink: &mut K) -> End
    requires line { line.now ≡ last_line end }
    requires told { IsTold end }
    ensures says { Says end result (K.written sink.old) (K.written sink.new) }
    ensures ends { (result ≡ end) ⊎ (result ≡ End.Write) }
    ensures failed { result ≡ End.Write → (end ≡ End.Write) ⊎ CountsFault (K.faults sink.old) (K.faults sink.new) K.most_faults }
    ensures never_falls { K.faults sink.old ≤ K.faults sink.new }
{
    match write_text(line, sink) {
        Ok(()) => end,
        Err(failed) => failed,
    }
}
