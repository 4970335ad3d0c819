ghost use Rattle.std.specs.Prelude.{◌≡◌, ◌<◌, ℕ, None, IfOk, length, take};
ghost use Rattle.std.specs.Io.{WritesAtMost};
ghost use Rattle.std.specs.Io.KnownBytes.{Appends, WriteAppends};
ghost use Rattle.text_io.specs.Counts.{HasCause, faults_after};
ghost use Rattle.text_io.specs.Told.{StaysTold};

use crate::{Failed, Sink};
use std::io::Write;
use std::marker::Model;

/// Writes to a writer of std, and flushes it within each call. Each error of the writer or of its
/// flush is a fault, also that of an interrupted write, and so is taking nothing of a piece that
/// isn't empty. It doesn't tell its bytes: at a fault some of the piece may have gone out.
#[derive(Drop)]
pub struct StdSink<W: Write + Drop> {
    writer: W,
    faults: u64,
}

impl<W: Write + Drop> Model for StdSink<W> {
    ghost use Rattle.text_io.specs.Std.{StdSinkState};

    ghost Value = { StdSinkState W };

    ghost view = { λ s. record { writer = s.writer; faults = s.faults } };
}

impl<W: Write + Drop> StdSink<W> {
    /// A sink over this writer.
    pub fn new(writer: W) -> StdSink<W>
        ensures { result ≡ record { writer = writer; faults = 0 } }
    {
        StdSink { writer, faults: 0 }
    }
}

impl<W: Write + Drop> Sink for StdSink<W> {
    ghost written = { λ _. None };

    ghost faults = { λ s. s.faults };

    fn write(&mut self, piece: &[u8]) -> Result<usize, Failed>
        ensures bound { WritesAtMost result piece.now }
        ensures some { IfOk result (λ n. 0 < length piece.now → 0 < n) }
        ensures bytes { WriteAppends None None result piece.now }
        ensures told { StaysTold None None }
        ensures cause { HasCause self.old.faults self.new.faults result }

        // A call that fails is one fault. Where the writer tells its bytes, they grow by those taken.
        ensures faults { self.new.faults ≡ faults_after self.old.faults result }
        ensures writer { IfOk result (λ n. Appends (W.contents self.old.writer)
            (W.contents self.new.writer) (take n piece.now)) }
    {
        let result = write_and_flush(&mut self.writer, piece);
        if result.is_err() {
            self.faults = self.faults.saturating_add(1);
        }
        result
    }
}

// How many bytes were written and flushed, at least one of a piece that isn't empty.
fn write_and_flush<W: Write>(writer: &mut W, piece: &[u8]) -> Result<usize, Failed>
    ensures bound { WritesAtMost result piece.now }
    ensures some { IfOk result (λ n. 0 < length piece.now → 0 < n) }
    ensures bytes { IfOk result
        (λ n. Appends (W.contents writer.old) (W.contents writer.new) (take n piece.now)) }
{
    let count = writer.write(piece).map_err(|_| Failed)?;
    if count == 0 && !piece.is_empty() {
        return Err(Failed);
    }
    writer.flush().map_err(|_| Failed)?;
    Ok(count)
}
