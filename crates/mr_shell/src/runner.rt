//! What runs the lines of a scenario.

ghost use Rattle.std.specs.Prelude.{◌≡◌, ◌≤◌, List, ℕ, ◌∷◌, IfErr, OnOk};
ghost use Rattle.mr_io.specs.Faults.{CountsFault};
ghost use Rattle.mr_shell.specs.Ends.{EndsLines};
ghost use Rattle.mr_shell.specs.Texts.{Report};

use crate::outcome::End;
use mr_io::Sink;

/// Runs the lines of a scenario one after the other, and writes what each shows.
pub trait Runner {
    ghost use Rattle.std.specs.Prelude.{ℕ, List, Option};
    ghost use Rattle.mr_shell.specs.Texts.{Report};
    ghost use Rattle.mr_shell.specs.declared.outcome.End.{End};

    /// The next line may be run.
    ghost is_ready: { Self → Type 0 };

    /// This report shows these lines, the newest first, and no other line was run.
    ghost has_run: { Report → List (List ℕ) → Self → Option (List ℕ) → Type 0 };

    /// The run has ended so at a line after these lines, and this is what the report shows.
    ghost stops_at: { Report → End → List ℕ → List (List ℕ) → Self → Option (List ℕ) → Type 0 };

    /// Runs the next line, which comes without its end, and writes what it shows.
    fn run_next<K: Sink>(&mut self, line: &[u8], sink: &mut K) -> Result<(), End>
        requires ready { is_ready self.old }
        ensures ready { OnOk result (is_ready self.new) }
        ensures runs { OnOk result ((report : Report) (before : List (List ℕ)) → has_run report before self.old (K.written sink.old) → has_run report (line.now ∷ before) self.new (K.written sink.new)) }
        ensures stops { IfErr result (λ e. (report : Report) (before : List (List ℕ)) → has_run report before self.old (K.written sink.old) → stops_at report e line.now before self.new (K.written sink.new)) }
        ensures ends { IfErr result EndsLines }
        ensures failed { result ≡ Err End.Write → CountsFault (K.faults sink.old) (K.faults sink.new) K.most_faults }
        ensures never_falls { K.faults sink.old ≤ K.faults sink.new };
}
