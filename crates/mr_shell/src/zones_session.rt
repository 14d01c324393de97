//! A scenario that is read for its ranges alone, line by line.

ghost use Rattle.std.specs.Prelude.{◌≡◌, ◌≢◌, ◌≤◌, ◌⊎◌, ℕ, List, Option, [], ◌∷◌, ◌++◌, IfErr, IfOk, OnOk, take};
ghost use Rattle.mr_base.specs.declared.nodes.NodeInfo.{NodeInfo as AnyNode};
ghost use Rattle.mr_io.specs.Faults.{CountsFault};
ghost use Rattle.scenario.specs.declared.lines.Line.TheVariants as lines;
ghost use Rattle.zone_report.specs.Nodes.{AreNodes};
ghost use Rattle.zone_report.specs.Report.{report_text};
ghost use Rattle.zone_report.specs.Statements.{CarriesOut};
ghost use Rattle.mr_shell.specs.Ends.{EndsLines};
ghost use Rattle.mr_shell.specs.Texts.{WritesPart, Wrote};
ghost use Rattle.mr_shell.specs.ZoneNodes.{AreSeenNodes, MayRunZones};
ghost use Rattle.mr_shell.specs.ZoneStory.{answer_text};
ghost use Rattle.mr_shell.specs.ZonesSession.{HasReadZones, HasRunZones, StopsAtZones, zoned_in};

use crate::outcome::End;
use crate::report::write_text;
use crate::runner::Runner;
use mr_base::{Bytes, ListOf, Memory, NodeInfo};
use mr_io::Sink;
use scenario::{Line, LineFault, NoWorld, Scenario};
use std::alloc::Global;
use zone_report::{Format, SqlRefusal, Zones};

/// The scenario as it was read so far, its nodes, and the catalog over them once a statement was run.
#[derive(Drop)]
pub struct ZonesSession {
    alloc: Global,
    scenario: Scenario,
    nodes: ListOf<NodeInfo>,
    zones: Option<Zones>,
    lines: u32,
}

impl ZonesSession {
    /// A scenario of which no line was read yet.
    pub fn new(alloc: Global) -> ZonesSession
        ensures ready { AreSeenNodes result.scenario result.nodes }
        ensures unread { (start : Option (List ℕ)) → HasRunZones start [] result start }
    {
        ZonesSession {
            alloc,
            scenario: Scenario::new(alloc, true),
            nodes: ListOf::new(alloc),
            zones: None,
            lines: 0,
        }
    }

    /// Runs the next line, which comes without its end, and writes what it shows.
    fn run_line<K: Sink>(&mut self, line: &[u8], sink: &mut K) -> Result<(), End>
        requires { AreSeenNodes self.old.scenario self.old.nodes }
        ensures ready { OnOk result (AreSeenNodes self.new.scenario self.new.nodes) }
        ensures runs { OnOk result ((start : Option (List ℕ)) (before : List (List ℕ)) → HasRunZones start before self.old (K.written sink.old) → HasRunZones start (line.now ∷ before) self.new (K.written sink.new)) }
        ensures stops { IfErr result (λ e. (start : Option (List ℕ)) (before : List (List ℕ)) → HasRunZones start before self.old (K.written sink.old) → StopsAtZones start e line.now before (K.written sink.new)) }
        ensures ends { IfErr result EndsLines }
        ensures failed { result ≡ Err End.Write → CountsFault (K.faults sink.old) (K.faults sink.new) K.most_faults }
        ensures never_falls { K.faults sink.old ≤ K.faults sink.new }
    {
        let Some(number) = self.lines.checked_add(1) else {
            return Err(End::Memory);
        };
        match self.scenario.read_line(line, &NoWorld) {
            Err(LineFault::S(fault)) => Err(End::Fault {
                fault,
                line: number,
            }),
            Err(LineFault::Memory) => Err(End::Memory),
            Ok(read) => {
                self.lines = number;
                self.run(read, sink)
            }
        }
    }

    /// Runs a line that was read. No line comes from `begin` on, since each has the fault S6.
    fn run<K: Sink>(&mut self, line: Line, sink: &mut K) -> Result<(), End>
        requires { MayRunZones self.old.scenario self.old.nodes line }
        ensures ready { OnOk result (AreSeenNodes self.new.scenario self.new.nodes) }
        ensures runs { OnOk result ((start : Option (List ℕ)) (text : List ℕ) (before : List (List ℕ)) → HasReadZones start line text before self.old (K.written sink.old) → HasRunZones start (text ∷ before) self.new (K.written sink.new)) }
        ensures stops { IfErr result (λ e. (start : Option (List ℕ)) (text : List ℕ) (before : List (List ℕ)) → HasReadZones start line text before self.old (K.written sink.old) → StopsAtZones start e text before (K.written sink.new)) }
        ensures ends { IfErr result EndsLines }
        ensures failed { result ≡ Err End.Write → CountsFault (K.faults sink.old) (K.faults sink.new) K.most_faults }
        ensures never_falls { K.faults sink.old ≤ K.faults sink.new }
    {
        match line {
            Line::Skipped => Ok(()),
            Line::Cluster(_) => Ok(()),
            Line::Event(_) => unreachable!(),
            Line::Node(info, _) => {
                self.add(info)?;
                Ok(())
            }
            Line::Sql(text) => self.run_sql(&text, sink),
        }
    }

    /// Runs a statement.
    fn run_sql<K: Sink>(&mut self, statement: &Bytes, sink: &mut K) -> Result<(), End>
        requires ready { AreSeenNodes self.old.scenario self.old.nodes }
        requires some { self.old.nodes ≢ [] }
        ensures ready { OnOk result (AreSeenNodes self.new.scenario self.new.nodes) }
        ensures runs { OnOk result ((start : Option (List ℕ)) (text : List ℕ) (before : List (List ℕ)) → HasReadZones start (lines.Sql statement.now) text before self.old (K.written sink.old) → HasRunZones start (text ∷ before) self.new (K.written sink.new)) }
        ensures stops { IfErr result (λ e. (start : Option (List ℕ)) (text : List ℕ) (before : List (List ℕ)) → HasReadZones start (lines.Sql statement.now) text before self.old (K.written sink.old) → StopsAtZones start e text before (K.written sink.new)) }
        ensures ends { IfErr result EndsLines }
        ensures failed { result ≡ Err End.Write → CountsFault (K.faults sink.old) (K.faults sink.new) K.most_faults }
        ensures never_falls { K.faults sink.old ≤ K.faults sink.new }
    {
        let answer = carry_out(
            self.alloc,
            self.nodes.as_slice(),
            &mut self.zones,
            statement.as_slice(),
        )?;
        write_answer(self.alloc, &answer, sink)
    }

    /// Adds a node to the others.
    fn add(&mut self, info: NodeInfo) -> Result<(), Memory>
        requires { AreSeenNodes self.old.scenario (self.old.nodes ++ info ∷ []) }
        ensures ready { OnOk result (AreSeenNodes self.new.scenario self.new.nodes) }
        ensures runs { OnOk result ((clock : ℕ) (start : Option (List ℕ)) (text : List ℕ) (before : List (List ℕ)) (written : Option (List ℕ)) → HasReadZones start (lines.Node info clock) text before self.old written → HasRunZones start (text ∷ before) self.new written) }
    {
        self.nodes.push(info)?;
        self.zones = None;
        Ok(())
    }

    /// Writes the report of all ranges, and says why the command ends then.
    pub fn write_report<K: Sink>(&self, format: Format, sink: &mut K) -> End
        ensures writes { WritesPart result (report_text format (zoned_in self.now.nodes self.now.zones)) (K.written sink.old) (K.written sink.new) }
        ensures failed { result ≡ End.Write → CountsFault (K.faults sink.old) (K.faults sink.new) K.most_faults }
        ensures never_falls { K.faults sink.old ≤ K.faults sink.new }
    {
        let Some(zones) = &self.zones else {
            return End::Whole;
        };
        match zones.report(format) {
            Err(_) => End::Memory,
            Ok(text) => match write_text(text.as_slice(), sink) {
                Ok(()) => End::Whole,
                Err(end) => end,
            },
        }
    }
}

/// Carries out a statement, or says why it is refused. The catalog is made for the first one.
fn carry_out(
    alloc: Global,
    nodes: &[NodeInfo],
    zones: &mut Option<Zones>,
    text: &[u8],
) -> Result<Option<SqlRefusal>, Memory>
    requires { AreNodes nodes.now }
    ensures { IfOk result (λ answer. CarriesOut text.now (zoned_in nodes.now zones.old) answer (zoned_in nodes.now zones.new)) }
{
    match zones {
        Some(held) => held.statement(text),
        None => {
            let mut made = Zones::new(alloc, nodes)?;
            let answer = made.statement(text)?;
            *zones = Some(made);
            Ok(answer)
        }
    }
}

/// Writes the line of a refused statement.
fn write_answer<K: Sink>(
    alloc: Global,
    answer: &Option<SqlRefusal>,
    sink: &mut K,
) -> Result<(), End>
    ensures written { OnOk result (Wrote (K.written sink.old) (K.written sink.new) (answer_text answer.now)) }
    ensures stops { IfErr result (λ e. WritesPart e (answer_text answer.now) (K.written sink.old) (K.written sink.new)) }
    ensures ends { IfErr result EndsLines }
    ensures failed { result ≡ Err End.Write → CountsFault (K.faults sink.old) (K.faults sink.new) K.most_faults }
    ensures never_falls { K.faults sink.old ≤ K.faults sink.new }
{
    let Some(refusal) = answer else {
        return Ok(());
    };
    let line = refusal.line(alloc)?;
    write_text(line.as_slice(), sink)
}

impl Runner for ZonesSession {
    ghost use Rattle.mr_shell.specs.ZoneNodes.{AreSeenNodes};
    ghost use Rattle.mr_shell.specs.ZonesSession.{HasRunZones, StopsAtZones};

    ghost is_ready = { λ s. AreSeenNodes s.scenario s.nodes };

    ghost has_run = { λ report lines s written. HasRunZones report.start lines s written };

    ghost stops_at = { λ report end text lines s written. StopsAtZones report.start end text lines written };

    fn run_next<K: Sink>(&mut self, line: &[u8], sink: &mut K) -> Result<(), End> {
        self.run_line(line, sink)
    }
}
