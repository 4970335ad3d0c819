//! The search for an overlap.

ghost use Rattle.std.specs.Prelude.{◌<◌, ℕ, IfOk, MatchOption, None, length};
ghost use Rattle.matching_state.specs.Overlaps.{IsOverlap};
ghost use Rattle.matching_state.specs.DirectSteps.{TellsDirectStep};
ghost use Rattle.overlap.specs.PointedOverlaps.{IsOverlapOf};

use crate::candidates::candidates;
use crate::pairs::overlapping_pair;
use crate::{Overlap, at};
use field_core::Field;
use matching_state::Matched;
use std::alloc::AllocError;

/// An overlap of M, where no direct step leads on. `None` says that M has none.
pub fn find<'a, F: Field>(state: &Matched<'a, F>) -> Result<Option<Overlap<'a, F>>, AllocError>
    requires { TellsDirectStep F.scalars state.now.problem state.now.set None }
    ensures { IfOk result (λ found. MatchOption found
        ((e h : ℕ) → e < length state.now.problem.lines → h < length state.now.problem.lines → ¬ (IsOverlap F.scalars state.now.problem state.now.set e h))
        (IsOverlapOf F.scalars state.now.problem state.now.set)) }
{
    let (problem, _set) = (state.problem(), state.set());
    let _lines = problem.len();
    let exposed = candidates(state)?;
    match overlapping_pair(state.alloc(), &exposed)? {
        Some((first, second)) => Ok(Some(at(state, first, second)?)),
        None => Ok(None),
    }
}
