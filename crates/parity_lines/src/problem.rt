//! A parity problem.

ghost use Rattle.std.specs.Prelude.{◌≡◌, ◌<◌, ◌^◌, [], ◌∷◌, ◌++◌, OnOk, OnErr, map, length};
ghost use Rattle.parity_lines.specs.Problems.{IsProblem, line_at};

use field_core::{Field, Row};
use std::alloc::{AllocError, Global};
use std::marker::Model;

/// The two vectors of a line.
#[derive(Drop)]
struct Line<F: Field> {
    first: Row<F>,
    second: Row<F>,
}

/// Lines, known by their positions from 0 on: pairs of vectors of one length, the dimension.
#[derive(Drop)]
pub struct Problem<F: Field> {
    alloc: Global,
    dimension: usize,
    lines: Vec<Line<F>>,
}

impl<F: Field> Model for Problem<F> {
    ghost use Rattle.parity_lines.specs.Problems.{ParityProblem};

    ghost Value = { ParityProblem };

    ghost use Rattle.std.specs.Prelude.{map};
    ghost use Rattle.parity_lines.specs.Problems.{IsProblem};
    ghost use Rattle.parity_lines.specs.Shown.{pairs_of};

    ghost view = { λ p. record { dimension = p.dimension; lines = pairs_of p.lines.items } };

    ghost invariant = { λ p. IsProblem F.scalars (record { dimension = p.dimension; lines = pairs_of p.lines.items }) };
}

impl<F: Field> Problem<F> {
    /// No line yet.
    pub fn new(alloc: Global, dimension: usize) -> Problem<F>
        ensures { result ≡ record { dimension = dimension; lines = [] } }
    {
        Problem {
            alloc,
            dimension,
            lines: Vec::new(alloc),
        }
    }

    /// Puts a line last. After want of memory the problem is unchanged.
    pub fn push(&mut self, first: &[F], second: &[F]) -> Result<(), AllocError>
        requires first_long { length first.now ≡ self.old.dimension }
        requires second_long { length second.now ≡ self.old.dimension }
        ensures ok { OnOk result (self.new ≡ record self.old { lines = self.old.lines ++ (map F.number first.now, map F.number second.now) ∷ [] }) }
        ensures err { OnErr result (self.new ≡ self.old) }
    {
        let line = Line {
            first: Row::copy_of(self.alloc, first)?,
            second: Row::copy_of(self.alloc, second)?,
        };
        self.lines.push(line)?;
        Ok(())
    }

    /// The length of the vectors.
    pub fn dimension(&self) -> usize
        ensures { result ≡ self.now.dimension }
    {
        self.dimension
    }

    /// How many lines there are.
    pub fn len(&self) -> usize
        ensures value { result ≡ length self.now.lines }
        ensures problem { IsProblem F.scalars self.now }
        ensures small { result < 2 ^ 63 }
    {
        self.lines.len()
    }

    /// The first vector of a line.
    pub fn first(&self, line: usize) -> &[F]
        requires { line < length self.now.lines }
        ensures value { map F.number result.now ≡ (line_at self.now line).0 }
        ensures long { length result.now ≡ self.now.dimension }
    {
        self.lines[line].first.as_slice()
    }

    /// The second vector of a line.
    pub fn second(&self, line: usize) -> &[F]
        requires { line < length self.now.lines }
        ensures value { map F.number result.now ≡ (line_at self.now line).1 }
        ensures long { length result.now ≡ self.now.dimension }
    {
        self.lines[line].second.as_slice()
    }
}
