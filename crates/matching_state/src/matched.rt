//! An independent set of lines, with coordinates over a basis that begins with its vectors.

ghost use Rattle.std.specs.Prelude.{◌≡◌, ◌<◌, ◌*◌, ℕ, List, All, IfOk, length, slice_index_or, take, if◌then◌else◌};
ghost use Rattle.coordinates.specs.Bases.{IsBasis, unit_vector};
ghost use Rattle.field_core.specs.Matrix.{Matrix};
ghost use Rattle.kept_rows.specs.Kept.{Lends};
ghost use Rattle.linear_algebra.specs.Spans.{Combines};
ghost use Rattle.matching_state.specs.Bases.{IsKept};
ghost use Rattle.matching_state.specs.States.{IsStateOf, TellsStart};
ghost use Rattle.parity_lines.specs.LineSets.{IsIndependentSet};
ghost use Rattle.parity_lines.specs.Problems.{line_at, vectors_at};

use crate::listing::listed;
use echelon::Echelon;
use field_core::{Field, Row, Rows};
use frames::Frame;
use kept_rows::{Kept, KeptRow};
use parity_lines::{LineBasis, LineSet, Problem, basis_of_lines};
use std::alloc::{AllocError, Global};
use std::marker::Model;

/// An independent set M of lines of a problem. It keeps a basis of the whole space that begins with M's vectors, and
/// the coordinates over it of both vectors of each line, and of the unit vectors; it is seen as all of this.
#[derive(Drop)]
pub struct Matched<'a, F: Field> {
    pub(crate) alloc: Global,
    pub(crate) problem: &'a Problem<F>,
    pub(crate) set: LineSet,
    pub(crate) frame: Frame<F>,
}

impl<'a, F: Field> Model for Matched<'a, F> {
    ghost use Rattle.matching_state.specs.Chosen.{Chosen};
    ghost use Rattle.matching_state.specs.Bases.{IsKept};

    ghost Value = { Chosen };

    ghost view = { λ m. record { problem = m.problem.now; set = m.set; basis = m.frame.basis; kept = m.frame.kept } };

    ghost invariant = { λ m. IsKept F.scalars (record { problem = m.problem.now; set = m.set; basis = m.frame.basis; kept = m.frame.kept }) };
}

/// What a set gives to start from.
#[derive(Drop)]
pub enum Start<'a, F: Field> {
    /// The set is independent.
    Ready(Matched<'a, F>),
    /// It isn't: these coefficients, two a line in order, combine its vectors to zero, and the first that isn't
    /// zero is one.
    Relation(Row<F>),
}

impl<'a, F: Field> Matched<'a, F> {
    /// The state of the set, where it is independent, else a relation of its vectors.
    pub fn start(
        alloc: Global,
        problem: &'a Problem<F>,
        set: &LineSet,
    ) -> Result<Start<'a, F>, AllocError>
        requires { All (λ m. m < length problem.now.lines) set.now }
        ensures { IfOk result (TellsStart F.scalars problem.now set.now) }
    {
        // the set increases
        let _lines = set.len();
        match basis_of_lines(alloc, problem, set)? {
            LineBasis::Basis(_) => Ok(Start::Ready(Matched::started(alloc, problem, set)?)),
            LineBasis::Relation(relation) => Ok(Start::Relation(relation)),
        }
    }

    /// The state of an independent set.
    pub fn started(
        alloc: Global,
        problem: &'a Problem<F>,
        set: &LineSet,
    ) -> Result<Matched<'a, F>, AllocError>
        requires { IsIndependentSet F.scalars problem.now set.now }
        ensures { IfOk result (IsStateOf problem.now set.now) }
    {
        let set = set.copied()?;
        let frame = listed(alloc, problem, &set)?;
        Ok(Matched {
            alloc,
            problem,
            set,
            frame,
        })
    }

    /// The set M.
    pub fn set(&self) -> &LineSet
        ensures value { result.now ≡ self.now.set }
        ensures independent { IsIndependentSet F.scalars self.now.problem self.now.set }
        ensures kept { IsKept F.scalars self.now }
    {
        &self.set
    }

    /// The problem that was given to [`Matched::start`].
    pub fn problem(&self) -> &'a Problem<F>
        ensures { result.now ≡ self.now.problem }
    {
        self.problem
    }

    /// The allocator that the state keeps.
    pub fn alloc(&self) -> Global {
        self.alloc
    }

    /// A basis of the vectors of the problem's dimension that begins with M's vectors, two a line in order.
    pub fn basis(&self) -> &Rows<F>
        ensures value { result.now ≡ record { width = self.now.problem.dimension; rows = self.now.basis } }
        ensures basis { IsBasis F.scalars self.now.problem.dimension self.now.basis }
        ensures begins { take (2 * length self.now.set) self.now.basis ≡ vectors_at self.now.problem self.now.set }
    {
        self.frame.basis()
    }

    /// The coordinates of a line's second vector over the basis, or of its first.
    pub(crate) fn list(&self, line: usize, second: bool) -> &KeptRow<F>
        requires { line < length self.now.problem.lines }
        ensures kept { IsKept F.scalars self.now }
        ensures combines { Combines F.scalars self.now.problem.dimension self.now.basis result.now
            (if second then (line_at self.now.problem line).1 else (line_at self.now.problem line).0) }
    {
        // so many lists are kept, which a number has room for
        let _lists = self.frame.len();
        if second {
            self.frame.list(2 * line + 1)
        } else {
            self.frame.list(2 * line)
        }
    }

    /// The coordinates of a unit vector over the basis.
    pub(crate) fn unit(&self, i: usize) -> &KeptRow<F>
        requires { i < self.now.problem.dimension }
        ensures kept { IsKept F.scalars self.now }
        ensures combines { Combines F.scalars self.now.problem.dimension self.now.basis result.now (unit_vector F.scalars self.now.problem.dimension i) }
    {
        // so many lists are kept, which a number has room for
        let _lists = self.frame.len();
        self.frame.list(2 * self.problem.len() + i)
    }

    /// The coordinates that combine the basis to the line's second vector, or to its first: packed exactly where the
    /// field has two elements.
    pub fn kept(&self, line: usize, second: bool) -> Kept<'_, F>
        requires { line < length self.now.problem.lines }
        ensures { (cs : List ℕ) × Lends F.ORDER F.scalars cs result
            × Combines F.scalars self.now.problem.dimension self.now.basis cs (if second then (line_at self.now.problem line).1 else (line_at self.now.problem line).0) }
    {
        self.list(line, second).view()
    }

    /// An echelon basis of M's vectors, for the residues of vectors modulo their span.
    pub fn echelon(&self) -> Result<Echelon<F>, AllocError>
        ensures { IfOk result (λ basis. basis ≡ record { width = self.now.problem.dimension; rows = vectors_at self.now.problem self.now.set }) }
    {
        match basis_of_lines(self.alloc, self.problem, &self.set)? {
            LineBasis::Basis(basis) => Ok(basis),
            LineBasis::Relation(_) => unreachable!(),
        }
    }
}
