//! Sources of bytes.

ghost use Rattle.std.specs.Prelude.{◌≡◌, ◌<◌, ◌≤◌, IfOk, OnErr, length, take};
ghost use Rattle.std.specs.Io.KnownBytes.{IsAtEnd, prepend_known};
ghost use Rattle.mr_io.specs.Faults.{CountsFault};

use crate::faults::Failed;

/// A place from which bytes are read, piece by piece, and which counts the reads that fail.
pub trait Source {
    ghost use Rattle.std.specs.Prelude.{ℕ, List, Option};

    /// The bytes that are still to be read, where they are told.
    ghost left: { Self → Option (List ℕ) };

    /// How many reads have failed. The count never falls, and stays at its last value.
    ghost faults: { Self → ℕ };

    ghost most_faults: { ℕ };

    /// Reads the next bytes into the front of `buf`, and answers how many they are: 0 for a buffer that
    /// isn't empty is the end. The bytes of `buf` behind them may have changed.
    fn read(&mut self, buf: &mut [u8]) -> Result<usize, Failed>
        ensures within { IfOk result (λ n. n ≤ length buf.old) }
        ensures told { IfOk result (λ n. left self.old ≡ prepend_known (take n buf.new) (left self.new)) }
        ensures end { IfOk result (λ n. n ≡ 0 → 0 < length buf.old → IsAtEnd (left self.old)) }
        ensures failed { OnErr result (CountsFault (faults self.old) (faults self.new) most_faults) }
        ensures kept { OnErr result (left self.new ≡ left self.old) }
        ensures never_falls { faults self.old ≤ faults self.new };
}
