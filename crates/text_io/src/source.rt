ghost use Rattle.std.specs.Prelude.{ℕ, List, Option};
ghost use Rattle.std.specs.Io.{ReadsAtMost};
ghost use Rattle.std.specs.Io.KnownBytes.{ReadConsumes};
ghost use Rattle.text_io.specs.Counts.{CountsGiven, HasCause};
ghost use Rattle.text_io.specs.Told.{StaysTold};

use crate::Failed;

/// Where bytes come from.
pub trait Source {
    /// The bytes still to come, where the source tells them.
    ghost left: { Self → Option (List ℕ) };

    /// A count of faults. It never falls, a call that answers `Ok` leaves it, and a call that fails
    /// raises it or finds it at its last value, 2^64 - 1. It needn't be raised by one.
    ghost faults: { Self → ℕ };

    /// How many bytes were given, up to 2^64 - 1.
    ghost given: { Self → ℕ };

    /// Puts the next bytes into the front of `buffer` and answers how many they are. `Ok(0)` for a
    /// buffer that isn't empty says that no byte is left. A call that fails gives no byte, and raises
    /// `faults`, or finds it at its last value.
    fn read(&mut self, buffer: &mut [u8]) -> Result<usize, Failed>
        ensures bound { ReadsAtMost result buffer.new }
        ensures bytes { ReadConsumes (left self.old) (left self.new) result buffer.new }
        ensures told { StaysTold (left self.old) (left self.new) }
        ensures cause { HasCause (faults self.old) (faults self.new) result }
        ensures counted { CountsGiven (given self.old) (given self.new) result };
}
