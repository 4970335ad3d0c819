ghost use Rattle.std.specs.Prelude.{◌≡◌, ℕ, None};
ghost use Rattle.std.specs.Io.{ReadsAtMost};
ghost use Rattle.std.specs.Io.KnownBytes.{ReadConsumes};
ghost use Rattle.text_io.specs.Counts.{CountsGiven, HasCause, faults_after};
ghost use Rattle.text_io.specs.Told.{StaysTold};

use crate::{Failed, Source};
use std::io::Read;
use std::marker::Model;

/// Reads from a reader of std. Each error of the reader is a fault, also that of an interrupted
/// read. It doesn't tell its bytes.
#[derive(Drop)]
pub struct StdSource<R: Read + Drop> {
    reader: R,
    faults: u64,
    given: u64,
}

impl<R: Read + Drop> Model for StdSource<R> {
    ghost use Rattle.text_io.specs.Std.{StdSourceState};

    ghost Value = { StdSourceState R };

    ghost view = { λ s. record { reader = s.reader; faults = s.faults; given = s.given } };
}

impl<R: Read + Drop> StdSource<R> {
    /// A source over this reader.
    pub fn new(reader: R) -> StdSource<R>
        ensures { result ≡ record { reader = reader; faults = 0; given = 0 } }
    {
        StdSource {
            reader,
            faults: 0,
            given: 0,
        }
    }
}

impl<R: Read + Drop> Source for StdSource<R> {
    ghost left = { λ _. None };

    ghost faults = { λ s. s.faults };

    ghost given = { λ s. s.given };

    fn read(&mut self, buffer: &mut [u8]) -> Result<usize, Failed>
        ensures bound { ReadsAtMost result buffer.new }
        ensures bytes { ReadConsumes None None result buffer.new }
        ensures told { StaysTold None None }
        ensures cause { HasCause self.old.faults self.new.faults result }
        ensures counted { CountsGiven self.old.given self.new.given result }

        // A call that fails is one fault. Where the reader tells its bytes, those given are its next.
        ensures faults { self.new.faults ≡ faults_after self.old.faults result }
        ensures reader { ReadConsumes (R.remaining self.old.reader) (R.remaining self.new.reader)
            result buffer.new }
    {
        match self.reader.read(buffer) {
            Ok(count) => {
                self.given = self.given.saturating_add(count as u64);
                Ok(count)
            }
            Err(_) => {
                self.faults = self.faults.saturating_add(1);
                Err(Failed)
            }
        }
    }
}
