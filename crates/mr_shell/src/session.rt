//! A run of a scenario, line by line.

ghost use Rattle.std.specs.Prelude.{◌≡◌, ◌≢◌, ◌≤◌, ◌<◌, ◌^◌, ℕ, List, Option, [], ◌∷◌, IfErr, IsOk, OnOk, codes};
ghost use Rattle.scenario.specs.declared.lines.Line.TheVariants as lines;
ghost use Rattle.scenario.specs.declared.first_path.Expected.TheVariants as expecteds;
ghost use Rattle.one_node.specs.Bounds.{AreSettings};
ghost use Rattle.one_node.specs.Cluster.{IsStep};
ghost use Rattle.mr_base.specs.declared.nodes.NodeInfo.{NodeInfo};
ghost use Rattle.mr_io.specs.Faults.{CountsFault};
ghost use Rattle.mr_shell.specs.Ends.{EndsLines};
ghost use Rattle.mr_shell.specs.Session.{IsReady, MayRun, HasRun, HasRead, StopsAt};
ghost use Rattle.mr_shell.specs.Texts.{Report, report_to};
ghost use Rattle.journal_text.specs.declared.modes.Mode.{Mode};

use crate::outcome::End;
use crate::report::{entries_after, write_entries};
use crate::runner::Runner;
use mr_base::Settings;
use mr_io::Sink;
use one_node::Cluster;
use scenario::{Event, FirstPath, Journal, Line, LineFault, Mode, NoWorld, standard_settings};
use std::alloc::Global;

/// The scenario as it was read so far, and the cluster that runs it.
#[derive(Drop)]
pub struct Session {
    alloc: Global,
    mode: Mode,
    scenario: FirstPath,
    settings: Settings,
    cluster: Cluster,
    lines: u32,
}

impl Session {
    ghost use Rattle.mr_base.specs.declared.nodes.NodeInfo.{NodeInfo};

    /// A run of which no line was read yet, and whose report has this mode.
    pub fn new(alloc: Global, mode: Mode) -> Session
        ensures ready { IsReady result.settings result.scenario result.cluster.journal }
        ensures unread { (start : Option (List ℕ)) → HasRun (report_to mode start) [] result start }
    {
        let settings = standard_settings();
        Session {
            alloc,
            mode,
            scenario: FirstPath::new(alloc, false),
            settings,
            cluster: Cluster::new(alloc, settings, 0),
            lines: 0,
        }
    }

    /// The entries that were made.
    pub fn into_journal(self) -> Journal
        ensures { result ≡ self.cluster.journal }
    {
        let Session {
            alloc,
            mode: _,
            scenario: _,
            settings: _,
            cluster,
            lines: _,
        } = self;
        cluster.into_journal(Vec::new(alloc))
    }

    /// Runs the next line, which comes without its end, and writes what it shows.
    pub fn run_line<K: Sink>(&mut self, line: &[u8], sink: &mut K) -> Result<(), End>
        requires { IsReady self.old.settings self.old.scenario self.old.cluster.journal }
        ensures ready { OnOk result (IsReady self.new.settings self.new.scenario self.new.cluster.journal) }
        ensures runs { OnOk result ((report : Report) (before : List (List ℕ)) → HasRun report before self.old (K.written sink.old) → HasRun report (line.now ∷ before) self.new (K.written sink.new)) }
        ensures stops { IfErr result (λ e. (report : Report) (before : List (List ℕ)) → HasRun report before self.old (K.written sink.old) → StopsAt report e line.now before self.new.cluster.journal (K.written sink.new)) }
        ensures ends { IfErr result EndsLines }
        ensures failed { result ≡ Err End.Write → CountsFault (K.faults sink.old) (K.faults sink.new) K.most_faults }
        ensures never_falls { K.faults sink.old ≤ K.faults sink.new }
    {
        let Some(number) = self.lines.checked_add(1) else {
            return Err(End::Memory);
        };
        match self.scenario.read_line(line, &NoWorld) {
            Err(LineFault::S(fault)) => Err(End::Fault {
                fault,
                line: number,
            }),
            Err(LineFault::Memory) => Err(End::Memory),
            Ok(read) => {
                self.lines = number;
                self.run(read, sink)
            }
        }
    }

    /// Runs a line that was read.
    fn run<K: Sink>(&mut self, line: Line, sink: &mut K) -> Result<(), End>
        requires { MayRun self.old.settings self.old.scenario self.old.cluster line }
        ensures ready { OnOk result (IsReady self.new.settings self.new.scenario self.new.cluster.journal) }
        ensures runs { OnOk result ((report : Report) (text : List ℕ) (before : List (List ℕ)) → HasRead report line text before self.old (K.written sink.old) → HasRun report (text ∷ before) self.new (K.written sink.new)) }
        ensures stops { IfErr result (λ e. (report : Report) (text : List ℕ) (before : List (List ℕ)) → HasRead report line text before self.old (K.written sink.old) → StopsAt report e text before self.new.cluster.journal (K.written sink.new)) }
        ensures ends { IfErr result EndsLines }
        ensures failed { result ≡ Err End.Write → CountsFault (K.faults sink.old) (K.faults sink.new) K.most_faults }
        ensures never_falls { K.faults sink.old ≤ K.faults sink.new }
    {
        match line {
            Line::Skipped | Line::Sql(_) => Ok(()),
            Line::Cluster(settings) => {
                self.set(settings);
                Ok(())
            }
            Line::Node(_, clock) => {
                self.place(clock);
                Ok(())
            }
            Line::Event(event) => self.run_event(&event, sink),
        }
    }

    /// Takes the settings of a `cluster` line.
    fn set(&mut self, settings: Settings)
        requires fits { AreSettings settings }
        requires unbegun { self.old.scenario.expected ≢ expecteds.Transaction }
        requires empty { self.old.cluster.journal ≡ [] }
        ensures ready { IsReady self.new.settings self.new.scenario self.new.cluster.journal }
        ensures runs { (report : Report) (text : List ℕ) (before : List (List ℕ)) (written : Option (List ℕ)) → HasRead report (lines.Cluster settings) text before self.old written → HasRun report (text ∷ before) self.new written }
    {
        self.settings = settings;
        self.cluster = Cluster::new(self.alloc, settings, 0);
    }

    /// Makes the cluster of the node whose physical clock this is.
    fn place(&mut self, clock: u64)
        requires clock { clock < 2 ^ 53 }
        requires fits { AreSettings self.old.settings }
        requires unbegun { self.old.scenario.expected ≢ expecteds.Transaction }
        requires empty { self.old.cluster.journal ≡ [] }
        ensures ready { IsReady self.new.settings self.new.scenario self.new.cluster.journal }
        ensures runs { (info : NodeInfo) (report : Report) (text : List ℕ) (before : List (List ℕ)) (written : Option (List ℕ)) → HasRead report (lines.Node info clock) text before self.old written → HasRun report (text ∷ before) self.new written }
    {
        self.cluster = Cluster::new(self.alloc, self.settings, clock);
    }

    /// Runs a line from `begin` on.
    fn run_event<K: Sink>(&mut self, event: &Event, sink: &mut K) -> Result<(), End>
        requires fits { AreSettings self.old.settings }
        requires step { IsStep self.old.cluster event.now }
        requires begun { self.old.scenario.expected ≡ expecteds.Transaction }
        ensures ready { OnOk result (IsReady self.new.settings self.new.scenario self.new.cluster.journal) }
        ensures runs { OnOk result ((report : Report) (text : List ℕ) (before : List (List ℕ)) → HasRead report (lines.Event event.now) text before self.old (K.written sink.old) → HasRun report (text ∷ before) self.new (K.written sink.new)) }
        ensures stops { IfErr result (λ e. (report : Report) (text : List ℕ) (before : List (List ℕ)) → HasRead report (lines.Event event.now) text before self.old (K.written sink.old) → StopsAt report e text before self.new.cluster.journal (K.written sink.new)) }
        ensures ends { IfErr result EndsLines }
        ensures failed { result ≡ Err End.Write → CountsFault (K.faults sink.old) (K.faults sink.new) K.most_faults }
        ensures never_falls { K.faults sink.old ≤ K.faults sink.new }
    {
        let made = self.cluster.journal().len();
        self.cluster.step(self.lines, event)?;
        let fresh = entries_after(self.cluster.journal(), made);
        write_entries(self.alloc, self.scenario.names(), fresh, self.mode, sink)
    }
}

impl Runner for Session {
    ghost use Rattle.mr_shell.specs.Session.{IsReady, HasRun, StopsAt};

    ghost is_ready = { λ s. IsReady s.settings s.scenario s.cluster.journal };

    ghost has_run = { λ report lines s written. HasRun report lines s written };

    ghost stops_at = { λ report end text lines s written. StopsAt report end text lines s.cluster.journal written };

    fn run_next<K: Sink>(&mut self, line: &[u8], sink: &mut K) -> Result<(), End> {
        self.run_line(line, sink)
    }
}
