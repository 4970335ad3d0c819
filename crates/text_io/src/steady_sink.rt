ghost use Rattle.std.specs.Prelude.{◌≡◌, ◌<◌, ℕ, None, Ok, IfOk, length};
ghost use Rattle.std.specs.Io.{WritesAtMost};
ghost use Rattle.std.specs.Io.KnownBytes.{WriteAppends};
ghost use Rattle.text_io.specs.Counts.{HasCause, raised};
ghost use Rattle.text_io.specs.Told.{StaysTold};

use crate::{Failed, Sink};
use std::marker::Model;

/// Takes all that it is given, with no fault, and keeps only a count of the bytes, which is what
/// contracts see. It doesn't tell its bytes.
#[derive(Drop)]
pub struct SteadySink {
    count: u64,
}

impl Model for SteadySink {
    ghost use Rattle.std.specs.Prelude.{ℕ};

    ghost Value = { ℕ };

    ghost view = { λ s. s.count };
}

impl SteadySink {
    /// A sink that was given nothing yet.
    pub fn new() -> SteadySink
        ensures { result ≡ 0 }
    {
        SteadySink { count: 0 }
    }
}

impl Sink for SteadySink {
    ghost written = { λ _. None };

    ghost faults = { λ _. 0 };

    fn write(&mut self, piece: &[u8]) -> Result<usize, Failed>
        ensures bound { WritesAtMost result piece.now }
        ensures some { IfOk result (λ n. 0 < length piece.now → 0 < n) }
        ensures bytes { WriteAppends None None result piece.now }
        ensures told { StaysTold None None }
        ensures cause { HasCause 0 0 result }

        // The whole piece, which is counted.
        ensures whole { result ≡ Ok (length piece.now) }
        ensures counted { self.new ≡ raised self.old (length piece.now) }
    {
        self.count = self.count.saturating_add(piece.len() as u64);
        Ok(piece.len())
    }
}
