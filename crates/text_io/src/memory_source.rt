ghost use Rattle.std.specs.Prelude.{◌≡◌, ◌≤◌, ◌↔◌, ◌++◌, ℕ, Some, Contains, IfOk, IsErr, OnErr, drop, length, min, take};
ghost use Rattle.std.specs.Io.{ReadsAtMost};
ghost use Rattle.std.specs.Io.KnownBytes.{ReadConsumes};
ghost use Rattle.text_io.specs.Counts.{CountsGiven, HasCause, faults_after, raised};
ghost use Rattle.text_io.specs.Told.{StaysTold};

use crate::copying::copy_front;
use crate::{Failed, Source};
use std::marker::Model;

/// Gives some bytes, at most so many a call, and fails at the calls whose numbers are listed. It
/// tells its bytes.
#[derive(Drop)]
pub struct MemorySource<'a> {
    bytes: &'a [u8],
    most: usize,
    fails: &'a [u64],
    calls: u64,
    faults: u64,
    given: u64,
}

impl<'a> Model for MemorySource<'a> {
    ghost use Rattle.std.specs.Prelude.{◌≤◌};
    ghost use Rattle.text_io.specs.Memory.{MemorySourceState};

    ghost Value = { MemorySourceState };

    ghost view = { λ s. record {
      left = s.bytes.now;
      most = s.most;
      fails = s.fails.now;
      calls = s.calls;
      faults = s.faults;
      given = s.given;
    } };

    ghost invariant = { λ s. 1 ≤ s.most };
}

impl<'a> MemorySource<'a> {
    /// A source of these bytes, which gives at most `most` of them a call. Calls are numbered from
    /// 1, up to 2^64 - 1, and those whose number is in `fails` fail.
    pub fn new(bytes: &'a [u8], most: usize, fails: &'a [u64]) -> MemorySource<'a>
        requires { 1 ≤ most }
        ensures { result ≡ record {
          left = bytes.now;
          most = most;
          fails = fails.now;
          calls = 0;
          faults = 0;
          given = 0;
        } }
    {
        MemorySource {
            bytes,
            most,
            fails,
            calls: 0,
            faults: 0,
            given: 0,
        }
    }
}

impl Source for MemorySource<'_> {
    ghost left = { λ s. Some s.left };

    ghost faults = { λ s. s.faults };

    ghost given = { λ s. s.given };

    fn read(&mut self, buffer: &mut [u8]) -> Result<usize, Failed>
        ensures bound { ReadsAtMost result buffer.new }
        ensures bytes { ReadConsumes (Some self.old.left) (Some self.new.left) result buffer.new }
        ensures told { StaysTold (Some self.old.left) (Some self.new.left) }
        ensures cause { HasCause self.old.faults self.new.faults result }
        ensures counted { CountsGiven self.old.given self.new.given result }

        // The call has the next number, and fails exactly where that is listed.
        ensures call { self.new.calls ≡ raised self.old.calls 1 }
        ensures fails { IsErr result ↔ Contains self.old.fails self.new.calls }
        ensures faults { self.new.faults ≡ faults_after self.old.faults result }
        ensures err { OnErr result (buffer.new ≡ buffer.old) }
        ensures same { (self.new.most ≡ self.old.most) × (self.new.fails ≡ self.old.fails) }

        // As many bytes as are left, the buffer holds and a call gives. The rest of the buffer stays.
        ensures count { IfOk result
            (λ n. n ≡ min self.old.most (min (length self.old.left) (length buffer.old))) }
        ensures rest { IfOk result (λ n. self.new.left ≡ drop n self.old.left) }
        ensures copied { IfOk result (λ n. buffer.new ≡ take n self.old.left ++ drop n buffer.old) }
    {
        self.calls = self.calls.saturating_add(1);
        if self.fails.contains(&self.calls) {
            self.faults = self.faults.saturating_add(1);
            return Err(Failed);
        }
        let next = self.bytes.len().min(self.most);
        let count = copy_front(&self.bytes[..next], buffer);
        self.bytes = &self.bytes[count..];
        self.given = self.given.saturating_add(count as u64);
        Ok(count)
    }
}
