//! An overlap, with its point.

ghost use Rattle.std.specs.Prelude.{◌≡◌, ◌<◌, List, ℕ, IfOk, None, length, map};
ghost use Rattle.matching_state.specs.Overlaps.{IsOverlap};
ghost use Rattle.matching_state.specs.LinePlaces.{IsExposed, IsTip};
ghost use Rattle.matching_state.specs.DirectSteps.{TellsDirectStep};
ghost use Rattle.parity_lines.specs.LineSets.{IsIndependentSet};
ghost use Rattle.overlap.specs.PointedOverlaps.{IsOverlapAt, IsPoint};

use crate::point::point_of;
use field_core::{Field, Row};
use matching_state::{Matched, Place};
use parity_lines::{LineSet, Problem};
use std::alloc::{AllocError, Global};
use std::marker::Model;

/// Two lines that are an overlap of an independent set M, from which no direct step leads on, with its point. Seen as
/// the problem, M, the two lines and the point.
#[derive(Drop)]
pub struct Overlap<'a, F: Field> {
    alloc: Global,
    problem: &'a Problem<F>,
    set: LineSet,
    first: usize,
    second: usize,
    point: Row<F>,
}

impl<'a, F: Field> Model for Overlap<'a, F> {
    ghost use Rattle.overlap.specs.PointedOverlaps.{PointedOverlap, IsPointed};

    ghost Value = { PointedOverlap };

    ghost view = { λ o. record { problem = o.problem.now; set = o.set; first = o.first; second = o.second; point = o.point } };

    ghost invariant = { λ o. IsPointed F.scalars (record { problem = o.problem.now; set = o.set; first = o.first; second = o.second; point = o.point }) };
}

/// The coordinates of a tip of an exposed line.
fn tip_coordinates<F: Field>(state: &Matched<'_, F>, line: usize) -> Result<Row<F>, AllocError>
    requires within { line < length state.now.problem.lines }
    requires exposed { IsExposed F.scalars state.now.problem state.now.set line }
    ensures { IfOk result (λ cs. (tip : List ℕ) × IsTip F.scalars state.now.problem state.now.set line tip cs) }
{
    let _lines = state.problem().len();
    let Place::Exposed { tip, .. } = state.position(line)? else {
        unreachable!();
    };
    match state.coordinates(tip.as_slice())? {
        Some(coordinates) => Ok(coordinates),
        None => unreachable!(),
    }
}

/// The overlap of these two lines, where no direct step leads on.
pub fn at<'a, F: Field>(
    state: &Matched<'a, F>,
    first: usize,
    second: usize,
) -> Result<Overlap<'a, F>, AllocError>
    requires first_within { first < length state.now.problem.lines }
    requires second_within { second < length state.now.problem.lines }
    requires overlap { IsOverlap F.scalars state.now.problem state.now.set first second }
    requires no_step { TellsDirectStep F.scalars state.now.problem state.now.set None }
    ensures { IfOk result (IsOverlapAt state.now.problem state.now.set first second) }
{
    let (problem, set) = (state.problem(), state.set());
    let _lines = problem.len();
    let one = tip_coordinates(state, first)?;
    let other = tip_coordinates(state, second)?;
    let point = point_of(state, one.as_slice(), other.as_slice())?;
    Ok(Overlap {
        alloc: state.alloc(),
        problem,
        set: set.copied()?,
        first,
        second,
        point,
    })
}

impl<'a, F: Field> Overlap<'a, F> {
    /// The allocator that the overlap keeps.
    pub fn alloc(&self) -> Global {
        self.alloc
    }

    /// The problem.
    pub fn problem(&self) -> &'a Problem<F>
        ensures { result.now ≡ self.now.problem }
    {
        self.problem
    }

    /// The set M.
    pub fn set(&self) -> &LineSet
        ensures value { result.now ≡ self.now.set }
        ensures independent { IsIndependentSet F.scalars self.now.problem self.now.set }
    {
        &self.set
    }

    /// The two lines.
    pub fn lines(&self) -> (usize, usize)
        ensures first { result.0 ≡ self.now.first }
        ensures second { result.1 ≡ self.now.second }
        ensures first_within { self.now.first < length self.now.problem.lines }
        ensures second_within { self.now.second < length self.now.problem.lines }
        ensures overlap { IsOverlap F.scalars self.now.problem self.now.set self.now.first self.now.second }
    {
        (self.first, self.second)
    }

    /// The point: a vector that isn't zero. Each set of lines among M and the two that is dependent spans it.
    pub fn point(&self) -> &[F]
        ensures value { map F.number result.now ≡ self.now.point }
        ensures long { length result.now ≡ self.now.problem.dimension }
        ensures is_point { IsPoint F.scalars self.now.problem self.now.set self.now.first self.now.second self.now.point }
    {
        self.point.as_slice()
    }
}
