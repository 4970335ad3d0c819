//! The direction of a line over an independent set: the residue of one of its vectors, up to a factor.

ghost use Rattle.std.specs.Prelude.{◌≡◌, ◌<◌, ◌↔◌, IfOk, IsTrue, MatchOption, length, map};
ghost use Rattle.linear_algebra.specs.Scalars.{IsField};
ghost use Rattle.linear_algebra.specs.Vectors.{zero_vector};
ghost use Rattle.linear_algebra.proofs.Coordinates.{space};
ghost use Rattle.field_core.specs.Matrix.{Matrix};
ghost use Rattle.parity_lines.specs.Problems.{vectors_at};
ghost use Rattle.parity_lines.specs.Relations.{IsMonicMultiple};
ghost use Rattle.parity_lines.proofs.Border.{tuples_at};
ghost use Rattle.parity_theory.proofs.Lines.{IsFree};
ghost use Rattle.classes.specs.Directions.{AreApart, HaveResidues, IsDirection, TellsOutlook};

use echelon::{Echelon, first_nonzero};
use field_core::{Field, Row};
use matching_state::Matched;
use std::alloc::AllocError;

/// The direction of a line over an independent set M that doesn't have the line free.
#[derive(Drop)]
pub enum Direction<F: Field> {
    /// M spans the line.
    Inside,
    /// The residue of a vector of the line, multiplied so that its first entry that isn't zero is one.
    Along(Row<F>),
}

/// The directions of all lines, or a line that is free.
#[derive(Drop)]
pub enum Outlook<F: Field> {
    Free(usize),
    Directions(Vec<Direction<F>>),
}

/// The multiple whose first entry that isn't zero is one. `None` says that the row is zero.
fn monic<F: Field>(mut row: Row<F>) -> Option<Row<F>>
    ensures { MatchOption result (row ≡ zero_vector F.scalars (length row)) (IsMonicMultiple F.scalars row) }
{
    let Some(lead) = first_nonzero(row.as_slice()) else {
        return None;
    };
    match row.as_slice()[lead].inverse() {
        Some(inverse) => {
            row.multiply(inverse);
            Some(row)
        }
        None => unreachable!(),
    }
}

/// Tells whether the vectors are the same.
fn are_same<F: Field>(v: &[F], w: &[F]) -> bool
    ensures { IsTrue result ↔ (map F.number v.now ≡ map F.number w.now) }
{
    if v.len() != w.len() {
        return false;
    }
    for (i, x) in v.iter().enumerate() {
        if *x != w[i] {
            return false;
        }
    }
    true
}

/// The residues of both vectors of a line; `basis` is of the set's vectors.
fn residues_of<F: Field>(
    state: &Matched<'_, F>,
    basis: &Echelon<F>,
    line: usize,
) -> Result<(Row<F>, Row<F>), AllocError>
    requires line { line < length state.now.problem.lines }
    requires basis { basis.now ≡ record { width = state.now.problem.dimension; rows = vectors_at state.now.problem state.now.set } }
    ensures { IfOk result (λ rows. HaveResidues F.scalars state.now.problem state.now.set line rows.0 rows.1) }
{
    let problem = state.problem();
    let first = basis.residue(problem.first(line))?;
    let second = basis.residue(problem.second(line))?;
    Ok((first, second))
}

/// The direction of a line; `basis` is of the set's vectors. `None` says that the line is free.
fn direction_of<F: Field>(
    state: &Matched<'_, F>,
    basis: &Echelon<F>,
    line: usize,
) -> Result<Option<Direction<F>>, AllocError>
    requires line { line < length state.now.problem.lines }
    requires basis { basis.now ≡ record { width = state.now.problem.dimension; rows = vectors_at state.now.problem state.now.set } }
    ensures { IfOk result (λ found. (L : IsField F.scalars) → MatchOption found
        (IsFree (space F.scalars L state.now.problem.dimension) (tuples_at F.scalars L state.now.problem) state.now.set line)
        (IsDirection F.scalars L state.now.problem state.now.set line)) }
{
    let (problem, _set) = (state.problem(), state.set());
    let _lines = problem.len();
    let (first_residue, second_residue) = residues_of(state, basis, line)?;
    let first = monic(first_residue);
    let second = monic(second_residue);
    match first {
        None => match second {
            None => Ok(Some(Direction::Inside)),
            Some(row) => Ok(Some(Direction::Along(row))),
        },
        Some(row) => match second {
            None => Ok(Some(Direction::Along(row))),
            Some(other) => {
                if are_same(row.as_slice(), other.as_slice()) {
                    Ok(Some(Direction::Along(row)))
                } else {
                    Ok(None)
                }
            }
        },
    }
}

/// The directions of all lines, where none is free.
pub fn directions<F: Field>(state: &Matched<'_, F>) -> Result<Outlook<F>, AllocError>
    ensures { IfOk result (λ outlook. (L : IsField F.scalars) → TellsOutlook F.scalars L state.now.problem state.now.set outlook) }
{
    let basis = state.echelon()?;
    let mut found = Vec::new(state.alloc());
    for line in 0..state.problem().len() {
        match direction_of(state, &basis, line)? {
            Some(direction) => found.push(direction)?,
            None => return Ok(Outlook::Free(line)),
        }
    }
    Ok(Outlook::Directions(found))
}

/// Tells whether the lines of these directions are separated.
pub fn are_apart<F: Field>(first: &Direction<F>, second: &Direction<F>) -> bool
    ensures { IsTrue result ↔ AreApart first.now second.now }
{
    match first {
        Direction::Inside => false,
        Direction::Along(row) => match second {
            Direction::Inside => false,
            Direction::Along(other) => !are_same(row.as_slice(), other.as_slice()),
        },
    }
}
