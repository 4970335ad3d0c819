//! A sequence of numbers by a linear congruence.

ghost use Rattle.std.specs.Prelude.{◌≡◌, ◌/◌};
ghost use Rattle.generator.specs.Sequence.{following};

use std::marker::Model;

/// A linear congruential generator, seen as its state, a number below 2^32.
#[derive(Clone, Copy, Debug, Drop, PartialEq, Eq)]
pub struct Generator {
    state: u32,
}

impl Model for Generator {
    ghost use Rattle.std.specs.Prelude.{ℕ};

    ghost Value = { ℕ };

    ghost view = { λ g. g.state };

    ghost inverse = { λ n. record { state = n } };
}

impl Generator {
    /// The generator whose state is `n`.
    pub fn new(n: u32) -> Generator
        ensures { result ≡ n }
    {
        Generator { state: n }
    }

    /// Goes on to the next state, and gives its upper half.
    pub fn next(&mut self) -> u32
        ensures state { self.new ≡ following self.old }
        ensures answer { result ≡ self.new / 65536 }
    {
        let next = (u64::from(self.state) * 1664525 + 1013904223) % 4294967296;
        self.state = next as u32;
        self.state / 65536
    }
}
