ghost use Rattle.std.specs.Prelude.{◌≡◌, ◌++◌, ℕ, Ok, Some, drop, length, min, take, IfOk};
ghost use Rattle.std.specs.Io.{ReadsAtMost};
ghost use Rattle.std.specs.Io.KnownBytes.{ReadConsumes};
ghost use Rattle.text_io.specs.Counts.{CountsGiven, HasCause};
ghost use Rattle.text_io.specs.Told.{StaysTold};

use crate::copying::copy_front;
use crate::{Failed, Source};
use std::marker::Model;

/// Gives all of some bytes, with no fault. It tells its bytes.
#[derive(Drop)]
pub struct SteadySource<'a> {
    bytes: &'a [u8],
    given: u64,
}

impl<'a> Model for SteadySource<'a> {
    ghost use Rattle.text_io.specs.Steady.{SteadySourceState};

    ghost Value = { SteadySourceState };

    ghost view = { λ s. record { left = s.bytes.now; given = s.given } };
}

impl<'a> SteadySource<'a> {
    /// A source of these bytes.
    pub fn new(bytes: &'a [u8]) -> SteadySource<'a>
        ensures { result ≡ record { left = bytes.now; given = 0 } }
    {
        SteadySource { bytes, given: 0 }
    }
}

impl Source for SteadySource<'_> {
    ghost left = { λ s. Some s.left };

    ghost faults = { λ _. 0 };

    ghost given = { λ s. s.given };

    fn read(&mut self, buffer: &mut [u8]) -> Result<usize, Failed>
        ensures bound { ReadsAtMost result buffer.new }
        ensures bytes { ReadConsumes (Some self.old.left) (Some self.new.left) result buffer.new }
        ensures told { StaysTold (Some self.old.left) (Some self.new.left) }
        ensures cause { HasCause 0 0 result }
        ensures counted { CountsGiven self.old.given self.new.given result }

        // As many bytes as are left and the buffer holds. The rest of the buffer stays.
        ensures count { result ≡ Ok (min (length self.old.left) (length buffer.old)) }
        ensures rest { IfOk result (λ n. self.new.left ≡ drop n self.old.left) }
        ensures copied { IfOk result (λ n. buffer.new ≡ take n self.old.left ++ drop n buffer.old) }
    {
        let count = copy_front(self.bytes, buffer);
        self.bytes = &self.bytes[count..];
        self.given = self.given.saturating_add(count as u64);
        Ok(count)
    }
}
