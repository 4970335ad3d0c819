//! The exposed lines, with what tells which of them overlap.

ghost use Rattle.std.specs.Prelude.{◌≡◌, ◌<◌, IfOk, MatchOption, length};
ghost use Rattle.matching_state.specs.LinePlaces.{IsExposed};
ghost use Rattle.field_core.specs.Matrix.{Matrix};
ghost use Rattle.parity_lines.specs.Problems.{vectors_at};
ghost use Rattle.overlap.specs.Candidates.{IsCandidate, AreCandidates};

use echelon::Echelon;
use field_core::{Field, Row};
use matching_state::{Matched, Place};
use parity_lines::LineSet;
use std::alloc::AllocError;

/// An exposed line, with its support, and the residue of an outer modulo the set's span.
#[derive(Drop)]
pub struct Candidate<F: Field> {
    pub line: usize,
    pub support: LineSet,
    pub residue: Row<F>,
}

/// The line, where it is exposed; `basis` is of the set's vectors.
fn candidate_at<F: Field>(
    state: &Matched<'_, F>,
    basis: &Echelon<F>,
    line: usize,
) -> Result<Option<Candidate<F>>, AllocError>
    requires line { line < length state.now.problem.lines }
    requires basis { basis.now ≡ record { width = state.now.problem.dimension; rows = vectors_at state.now.problem state.now.set } }
    ensures { IfOk result (λ found. MatchOption found (¬ (IsExposed F.scalars state.now.problem state.now.set line))
        (λ x. (x.line ≡ line) × IsCandidate F.scalars state.now.problem state.now.set x)) }
{
    let _lines = state.problem().len();
    match state.position(line)? {
        Place::Inside => Ok(None),
        Place::Single { .. } => Ok(None),
        Place::Free => Ok(None),
        Place::Exposed { outer, support, .. } => Ok(Some(Candidate {
            line,
            support,
            residue: basis.residue(outer.as_slice())?,
        })),
    }
}

/// All exposed lines.
pub fn candidates<F: Field>(state: &Matched<'_, F>) -> Result<Vec<Candidate<F>>, AllocError>
    ensures { IfOk result (λ xs. AreCandidates F.scalars state.now.problem state.now.set (length state.now.problem.lines) xs.items) }
{
    let basis = state.echelon()?;
    let mut found = Vec::new(state.alloc());
    for line in 0..state.problem().len() {
        if let Some(candidate) = candidate_at(state, &basis, line)? {
            found.push(candidate)?;
        }
    }
    Ok(found)
}
