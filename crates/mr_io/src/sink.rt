//! Sinks of bytes.

ghost use Rattle.std.specs.Prelude.{◌≡◌, ◌≤◌, [], IfOk, OnOk, OnErr, length, take};
ghost use Rattle.std.specs.Io.KnownBytes.{append_known};
ghost use Rattle.mr_io.specs.Faults.{CountsFault};
ghost use Rattle.mr_io.specs.Pieces.{WrotePrefix};

use crate::faults::Failed;

/// A place to which bytes are written, piece by piece, and which counts the writes that fail.
pub trait Sink {
    ghost use Rattle.std.specs.Prelude.{ℕ, List, Option};

    /// The bytes that were written, where they are told.
    ghost written: { Self → Option (List ℕ) };

    /// How many writes have failed. The count never falls, and stays at its last value.
    ghost faults: { Self → ℕ };

    ghost most_faults: { ℕ };

    /// Writes the first bytes of `buf`, and answers how many it took: none only of an empty piece.
    fn write(&mut self, buf: &[u8]) -> Result<usize, Failed>
        ensures within { IfOk result (λ n. n ≤ length buf.now) }
        ensures told { IfOk result (λ n. written self.new ≡ append_known (written self.old) (take n buf.now)) }
        ensures takes { IfOk result (λ n. n ≡ 0 → buf.now ≡ []) }
        ensures failed { OnErr result (CountsFault (faults self.old) (faults self.new) most_faults) }
        ensures kept { OnErr result (written self.new ≡ written self.old) }
        ensures never_falls { faults self.old ≤ faults self.new };
}

/// Writes all the bytes, in as many pieces as the sink takes, and stops at the first write that fails: some of them were
/// left to write then.
pub fn write_all<K: Sink>(sink: &mut K, bytes: &[u8]) -> Result<(), Failed>
    ensures all { OnOk result (K.written sink.new ≡ append_known (K.written sink.old) bytes.now) }
    ensures part { OnErr result (WrotePrefix (K.written sink.old) (K.written sink.new) bytes.now) }
    ensures failed { OnErr result (CountsFault (K.faults sink.old) (K.faults sink.new) K.most_faults) }
    ensures never_falls { K.faults sink.old ≤ K.faults sink.new }
{
    let mut done = 0;
    while done < bytes.len() {
        done += sink.write(&bytes[done..])?;
    }
    Ok(())
}
