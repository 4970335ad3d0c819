ghost use Rattle.std.specs.Prelude.{ℕ, ◌<◌, List, length, Option, IfOk};
ghost use Rattle.std.specs.Io.{WritesAtMost};
ghost use Rattle.std.specs.Io.KnownBytes.{WriteAppends};
ghost use Rattle.text_io.specs.Counts.{HasCause};
ghost use Rattle.text_io.specs.Told.{StaysTold};

use crate::Failed;

/// Where bytes go.
pub trait Sink {
    /// The bytes written so far, where the sink tells them.
    ghost written: { Self → Option (List ℕ) };

    /// A count of faults. It never falls, a call that answers `Ok` leaves it, and a call that fails
    /// raises it or finds it at its last value, 2^64 - 1. It needn't be raised by one.
    ghost faults: { Self → ℕ };

    /// Takes bytes from the front of `piece` and answers how many they are, at least one where the
    /// piece isn't empty. A call that fails leaves the bytes that are told as they were,
    /// and raises `faults`, or finds it at its last value.
    fn write(&mut self, piece: &[u8]) -> Result<usize, Failed>
        ensures bound { WritesAtMost result piece.now }
        ensures some { IfOk result (λ n. 0 < length piece.now → 0 < n) }
        ensures bytes { WriteAppends (written self.old) (written self.new) result piece.now }
        ensures told { StaysTold (written self.old) (written self.new) }
        ensures cause { HasCause (faults self.old) (faults self.new) result };
}
