//! A set of lines, by increasing position.

ghost use Rattle.std.specs.Prelude.{◌≡◌, ◌≢◌, ◌<◌, ◌↔◌, ◌⊎◌, [], ◌∷◌, ◌++◌, ℕ, All, IfOk, OnOk, OnErr, IsTrue, length, slice_index};
ghost use Rattle.std.specs.List.{Contains};
ghost use Rattle.std.specs.List.Sorted.{IsStrictlyIncreasing};
ghost use Rattle.parity_lines.specs.LineSets.{HaveCommonLine};

use std::alloc::{AllocError, Global};
use std::marker::Model;

/// A set of lines, seen as the strictly increasing list of their positions.
#[derive(Drop)]
pub struct LineSet {
    lines: Vec<usize>,
}

impl Model for LineSet {
    ghost use Rattle.std.specs.Prelude.{List, ℕ};
    ghost use Rattle.std.specs.List.Sorted.{IsStrictlyIncreasing};

    ghost Value = { List ℕ };

    ghost view = { λ s. s.lines.items };

    ghost invariant = { λ s. IsStrictlyIncreasing s.lines.items };
}

impl LineSet {
    /// The empty set.
    pub fn new(alloc: Global) -> LineSet
        ensures { result ≡ [] }
    {
        LineSet {
            lines: Vec::new(alloc),
        }
    }

    /// Puts in a line above the others. After want of memory the set is unchanged.
    pub fn push(&mut self, line: usize) -> Result<(), AllocError>
        requires { All (λ m. m < line) self.old }
        ensures ok { OnOk result (self.new ≡ self.old ++ line ∷ []) }
        ensures err { OnErr result (self.new ≡ self.old) }
    {
        self.lines.push(line)?;
        Ok(())
    }

    /// The same set.
    pub fn copied(&self) -> Result<LineSet, AllocError>
        ensures { IfOk result (λ copy. copy ≡ self.now) }
    {
        let lines = self.lines.iter().copied().collect(*self.lines.allocator())?;
        Ok(LineSet { lines })
    }

    /// The set with the line.
    pub fn with(&self, line: usize) -> Result<LineSet, AllocError>
        ensures { IfOk result (λ set. IsStrictlyIncreasing set × ((l : ℕ) → Contains set l ↔ (Contains self.now l ⊎ (l ≡ line)))) }
    {
        let mut lines: Vec<usize> = self.lines.iter().copied().collect(*self.lines.allocator())?;
        match lines.binary_search(&line) {
            Ok(_) => {}
            Err(place) => lines.insert(place, line)?,
        }
        Ok(LineSet { lines })
    }

    /// The set without the line.
    pub fn without(&self, line: usize) -> Result<LineSet, AllocError>
        ensures { IfOk result (λ set. IsStrictlyIncreasing set × ((l : ℕ) → Contains set l ↔ (Contains self.now l × (l ≢ line)))) }
    {
        let lines = self
            .lines
            .iter()
            .copied()
            .filter(|l| *l != line)
            .collect(*self.lines.allocator())?;
        Ok(LineSet { lines })
    }

    /// How many lines there are.
    pub fn len(&self) -> usize
        ensures value { result ≡ length self.now }
        ensures increasing { IsStrictlyIncreasing self.now }
    {
        self.lines.len()
    }

    /// The line at an index.
    pub fn at(&self, i: usize) -> usize
        requires { i < length self.now }
        ensures { result ≡ slice_index self.now i }
    {
        self.lines[i]
    }

    /// Tells whether the line is in the set.
    pub fn holds(&self, line: usize) -> bool
        ensures { IsTrue result ↔ Contains self.now line }
    {
        self.lines.binary_search(&line).is_ok()
    }

    /// Tells whether a line is in both sets.
    pub fn meets(&self, other: &LineSet) -> bool
        ensures { IsTrue result ↔ HaveCommonLine self.now other.now }
    {
        for i in 0..self.len() {
            if other.holds(self.at(i)) {
                return true;
            }
        }
        false
    }
}
