ghost use Rattle.std.specs.Prelude.{◌≡◌, ◌≤◌, ◌<◌, ◌-◌, ◌↔◌, ◌⊎◌, ℕ, Some, [], Contains, IfOk, IsErr, length, min};
ghost use Rattle.std.specs.Io.{WritesAtMost};
ghost use Rattle.std.specs.Io.KnownBytes.{WriteAppends};
ghost use Rattle.text_io.specs.Counts.{HasCause, faults_after, raised};
ghost use Rattle.text_io.specs.Told.{StaysTold};

use crate::{Failed, Sink};
use std::alloc::{AllocError, Global};
use std::marker::Model;

/// Keeps the bytes that it is given, at most so many a call and so many in all, and fails at the
/// calls whose numbers are listed. It tells its bytes.
#[derive(Drop)]
pub struct MemorySink<'a> {
    bytes: Vec<u8>,
    room: usize,
    most: usize,
    fails: &'a [u64],
    calls: u64,
    faults: u64,
}

impl<'a> Model for MemorySink<'a> {
    ghost use Rattle.std.specs.Prelude.{vec_len, vec_capacity};
    ghost use Rattle.text_io.specs.Memory.{MemorySinkState, HasRoom};

    ghost Value = { MemorySinkState };

    ghost view = { λ s. record {
      written = s.bytes.items;
      room = s.room;
      most = s.most;
      fails = s.fails.now;
      calls = s.calls;
      faults = s.faults;
    } };

    ghost invariant = { λ s. HasRoom s.most s.room (vec_len s.bytes) (vec_capacity s.bytes) };
}

impl<'a> MemorySink<'a> {
    /// A sink with room for `room` bytes, which takes at most `most` of them a call. Calls are
    /// numbered from 1, up to 2^64 - 1, and those whose number is in `fails` fail. All the memory
    /// for the room is taken here, and the error says that there is none.
    pub fn new(
        alloc: Global,
        room: usize,
        most: usize,
        fails: &'a [u64],
    ) -> Result<MemorySink<'a>, AllocError>
        requires { 1 ≤ most }
        ensures { IfOk result (λ s. s ≡ record {
          written = [];
          room = room;
          most = most;
          fails = fails.now;
          calls = 0;
          faults = 0;
        }) }
    {
        let bytes = Vec::with_capacity(alloc, room)?;
        Ok(MemorySink {
            bytes,
            room,
            most,
            fails,
            calls: 0,
            faults: 0,
        })
    }

    /// What was written.
    pub fn bytes(&self) -> &[u8]
        ensures { result.now ≡ self.now.written }
    {
        &self.bytes
    }
}

impl Sink for MemorySink<'_> {
    ghost written = { λ s. Some s.written };

    ghost faults = { λ s. s.faults };

    fn write(&mut self, piece: &[u8]) -> Result<usize, Failed>
        ensures bound { WritesAtMost result piece.now }
        ensures some { IfOk result (λ n. 0 < length piece.now → 0 < n) }
        ensures bytes { WriteAppends (Some self.old.written) (Some self.new.written) result
            piece.now }
        ensures told { StaysTold (Some self.old.written) (Some self.new.written) }
        ensures cause { HasCause self.old.faults self.new.faults result }

        // The call has the next number, and fails exactly where that is listed or where there is no
        // room for a piece that isn't empty.
        ensures call { self.new.calls ≡ raised self.old.calls 1 }
        ensures fails { IsErr result ↔ (Contains self.old.fails self.new.calls
            ⊎ ((0 < length piece.now) × (length self.old.written ≡ self.old.room))) }
        ensures faults { self.new.faults ≡ faults_after self.old.faults result }
        ensures same { (self.new.room ≡ self.old.room) × (self.new.most ≡ self.old.most)
            × (self.new.fails ≡ self.old.fails) }

        // As many bytes as the piece has, there is room for and a call takes.
        ensures count { IfOk result (λ n. n ≡ min self.old.most
            (min (length piece.now) (self.old.room - length self.old.written))) }
    {
        self.calls = self.calls.saturating_add(1);
        let room = self.room - self.bytes.len();
        let count = piece.len().min(room).min(self.most);
        if self.fails.contains(&self.calls) || (count == 0 && !piece.is_empty()) {
            self.faults = self.faults.saturating_add(1);
            return Err(Failed);
        }
        self.bytes.extend_from_slice(&piece[..count]).unwrap();
        Ok(count)
    }
}
