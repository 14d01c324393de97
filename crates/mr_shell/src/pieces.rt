//! Reading a source in pieces and running its lines.

ghost use Rattle.std.specs.Prelude.{◌≡◌, ◌≤◌, ◌+◌, ◌<◌, ℕ, List, Option, [], ◌∷◌, ◌++◌, IfErr, IfOk, OnErr, OnOk, length, take, vec_len};
ghost use Rattle.std.specs.Io.KnownBytes.{IsAtEnd, prepend_known};
ghost use Rattle.mr_io.specs.Faults.{CountsFault};
ghost use Rattle.mr_shell.specs.Content.{IsContent, IsWithinLimit};
ghost use Rattle.mr_shell.specs.Ends.{EndsLines, EndsPieces};
ghost use Rattle.mr_shell.specs.Pieces.{AfterTaking, HasTaken, Stops, StopsWithin};
ghost use Rattle.mr_shell.specs.Texts.{Report};

use crate::outcome::End;
use crate::runner::Runner;
use mr_base::{Memory, before_tail};
use mr_io::{Failed, Sink, Source};
use std::alloc::Global;

/// The largest scenario, in bytes.
pub const LARGEST: usize = 16_777_216;

/// How many bytes are asked for at once.
const PIECE: usize = 65_536;

/// Room for a piece.
fn new_buffer(alloc: Global) -> Result<Vec<u8>, Memory>
    ensures { IfOk result (λ buffer. vec_len buffer ≡ 65536) }
{
    let buffer = vec![in alloc; 0u8; PIECE]?;
    Ok(buffer)
}

/// Runs the lines of a source, one after the other, and says why the run ends. A further piece is asked
/// for only once every whole line taken so far was run.
pub fn run_source<R: Runner, S: Source, K: Sink>(
    alloc: Global,
    runner: &mut R,
    source: &mut S,
    sink: &mut K,
) -> Result<(), End>
    requires ready { R.is_ready runner.old }
    ensures whole { OnOk result ((report : Report) → R.has_run report [] runner.old (K.written sink.old) → AfterTaking (S.left source.old) (S.left source.new) (λ taken. Stops (R.has_run report) (R.stops_at report) End.Whole taken (S.left source.new) runner.new (K.written sink.new))) }
    ensures stops { IfErr result (λ e. (report : Report) → R.has_run report [] runner.old (K.written sink.old) → AfterTaking (S.left source.old) (S.left source.new) (λ taken. Stops (R.has_run report) (R.stops_at report) e taken (S.left source.new) runner.new (K.written sink.new))) }
    ensures ends { IfErr result EndsPieces }
    ensures read_failed { result ≡ Err End.Read → CountsFault (S.faults source.old) (S.faults source.new) S.most_faults }
    ensures write_failed { result ≡ Err End.Write → CountsFault (K.faults sink.old) (K.faults sink.new) K.most_faults }
    ensures never_falls { K.faults sink.old ≤ K.faults sink.new }
{
    match new_buffer(alloc) {
        Err(_) => Err(End::Memory),
        Ok(mut buffer) => run_pieces(runner, buffer.as_mut_slice(), Vec::new(alloc), source, sink),
    }
}

/// Runs the pieces of a source to its end.
fn run_pieces<R: Runner, S: Source, K: Sink>(
    runner: &mut R,
    buffer: &mut [u8],
    mut pending: Vec<u8>,
    source: &mut S,
    sink: &mut K,
) -> Result<(), End>
    requires ready { R.is_ready runner.old }
    requires room { length buffer.old ≡ 65536 }
    requires empty { pending.items ≡ [] }
    ensures whole { OnOk result ((report : Report) → R.has_run report [] runner.old (K.written sink.old) → AfterTaking (S.left source.old) (S.left source.new) (λ taken. Stops (R.has_run report) (R.stops_at report) End.Whole taken (S.left source.new) runner.new (K.written sink.new))) }
    ensures stops { IfErr result (λ e. (report : Report) → R.has_run report [] runner.old (K.written sink.old) → AfterTaking (S.left source.old) (S.left source.new) (λ taken. Stops (R.has_run report) (R.stops_at report) e taken (S.left source.new) runner.new (K.written sink.new))) }
    ensures ends { IfErr result EndsPieces }
    ensures read_failed { result ≡ Err End.Read → CountsFault (S.faults source.old) (S.faults source.new) S.most_faults }
    ensures write_failed { result ≡ Err End.Write → CountsFault (K.faults sink.old) (K.faults sink.new) K.most_faults }
    ensures never_falls { K.faults sink.old ≤ K.faults sink.new }
{
    let mut taken = 0;
    'pieces: loop {
        let count = read_piece(source, buffer, taken)?;
        if count == 0 {
            return run_last(runner, pending.as_slice(), sink);
        }
        if taken == LARGEST {
            return Err(End::Size);
        }
        taken += count;
        run_piece(runner, &mut pending, &buffer[..count], sink)?;
    }
}

/// Takes the next piece, where so many bytes were taken: no more than one byte past the largest scenario.
fn read_piece<S: Source>(source: &mut S, buffer: &mut [u8], taken: usize) -> Result<usize, End>
    requires room { length buffer.old ≡ 65536 }
    requires taken { taken ≤ 16777216 }
    ensures within { IfOk result (λ n. n ≤ 65536) }
    ensures bounded { IfOk result (λ n. taken < 16777216 → taken + n ≤ 16777216) }
    ensures one_beyond { IfOk result (λ n. taken ≡ 16777216 → n ≤ 1) }
    ensures told { IfOk result (λ n. S.left source.old ≡ prepend_known (take n buffer.new) (S.left source.new)) }
    ensures end { IfOk result (λ n. n ≡ 0 → IsAtEnd (S.left source.old)) }
    ensures unread { OnErr result (S.left source.new ≡ S.left source.old) }
    ensures ends { IfErr result (λ e. e ≡ End.Read) }
    ensures failed { OnErr result (CountsFault (S.faults source.old) (S.faults source.new) S.most_faults) }
    ensures never_falls { S.faults source.old ≤ S.faults source.new }
{
    let wanted = if taken == LARGEST {
        1
    } else {
        PIECE.min(LARGEST - taken)
    };
    match source.read(&mut buffer[..wanted]) {
        Ok(count) => Ok(count),
        Err(Failed) => Err(End::Read),
    }
}

/// Runs the lines that end within a piece; `pending` is what was taken of the line that has no end yet.
fn run_piece<R: Runner, K: Sink>(
    runner: &mut R,
    pending: &mut Vec<u8>,
    piece: &[u8],
    sink: &mut K,
) -> Result<(), End>
    requires { R.is_ready runner.old }
    ensures ready { OnOk result (R.is_ready runner.new) }
    ensures runs { OnOk result ((report : Report) (taken : List ℕ) → HasTaken (R.has_run report) taken runner.old pending.old.items (K.written sink.old) → HasTaken (R.has_run report) (taken ++ piece.now) runner.new pending.new.items (K.written sink.new)) }
    ensures stops { IfErr result (λ e. (report : Report) (taken : List ℕ) → HasTaken (R.has_run report) taken runner.old pending.old.items (K.written sink.old) → StopsWithin (R.has_run report) (R.stops_at report) e (taken ++ piece.now) (length piece.now) runner.new (K.written sink.new)) }
    ensures ends { IfErr result EndsLines }
    ensures failed { result ≡ Err End.Write → CountsFault (K.faults sink.old) (K.faults sink.new) K.most_faults }
    ensures never_falls { K.faults sink.old ≤ K.faults sink.new }
{
    for byte in piece {
        run_byte(runner, pending, *byte, sink)?;
    }
    Ok(())
}

fn run_byte<R: Runner, K: Sink>(
    runner: &mut R,
    pending: &mut Vec<u8>,
    byte: u8,
    sink: &mut K,
) -> Result<(), End>
    requires { R.is_ready runner.old }
    ensures ready { OnOk result (R.is_ready runner.new) }
    ensures runs { OnOk result ((report : Report) (taken : List ℕ) → HasTaken (R.has_run report) taken runner.old pending.old.items (K.written sink.old) → HasTaken (R.has_run report) (taken ++ byte ∷ []) runner.new pending.new.items (K.written sink.new)) }
    ensures stops { IfErr result (λ e. (report : Report) (taken : List ℕ) → HasTaken (R.has_run report) taken runner.old pending.old.items (K.written sink.old) → StopsWithin (R.has_run report) (R.stops_at report) e (taken ++ byte ∷ []) 1 runner.new (K.written sink.new)) }
    ensures ends { IfErr result EndsLines }
    ensures failed { result ≡ Err End.Write → CountsFault (K.faults sink.old) (K.faults sink.new) K.most_faults }
    ensures never_falls { K.faults sink.old ≤ K.faults sink.new }
{
    if byte != b'\n' {
        return match pending.push(byte) {
            Ok(()) => Ok(()),
            Err(_) => Err(End::Memory),
        };
    }
    runner.run_next(content(pending.as_slice()), sink)?;
    pending.clear();
    Ok(())
}

/// Runs what stands after the last line feed of a source that has ended, if anything does: a line too,
/// of which a carriage return at its end is a part, since no line feed follows.
fn run_last<R: Runner, K: Sink>(runner: &mut R, pending: &[u8], sink: &mut K) -> Result<(), End>
    requires { R.is_ready runner.old }
    ensures whole { OnOk result ((report : Report) (taken : List ℕ) (left : Option (List ℕ)) → HasTaken (R.has_run report) taken runner.old pending.now (K.written sink.old) → IsAtEnd left → IsWithinLimit taken → Stops (R.has_run report) (R.stops_at report) End.Whole taken left runner.new (K.written sink.new)) }
    ensures stops { IfErr result (λ e. (report : Report) (taken : List ℕ) (left : Option (List ℕ)) → HasTaken (R.has_run report) taken runner.old pending.now (K.written sink.old) → IsAtEnd left → IsWithinLimit taken → Stops (R.has_run report) (R.stops_at report) e taken left runner.new (K.written sink.new)) }
    ensures ends { IfErr result EndsLines }
    ensures failed { result ≡ Err End.Write → CountsFault (K.faults sink.old) (K.faults sink.new) K.most_faults }
    ensures never_falls { K.faults sink.old ≤ K.faults sink.new }
{
    if pending.is_empty() {
        return Ok(());
    }
    runner.run_next(pending, sink)
}

/// The line that ends where a line feed follows these bytes.
fn content(before: &[u8]) -> &[u8]
    ensures { IsContent before.now result.now }
{
    match before_tail(before, b"\r") {
        Some(line) => line,
        None => before,
    }
}
