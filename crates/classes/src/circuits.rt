//! Circuits: from a set that separates an exposed line and a line of its support to an end of the call.

ghost use Rattle.std.specs.Prelude.{◌≡◌, ◌<◌, [], ◌∷◌, ℕ, List, IfOk, MatchOption, length};
ghost use Rattle.matching_state.specs.LinePlaces.{IsExposed, IsOuter};
ghost use Rattle.linear_algebra.specs.Scalars.{IsField};
ghost use Rattle.classes.specs.Circuits.{GoesOnInCircuit, IsInCircuit, IsPulledApart};
ghost use Rattle.classes.specs.Supports.{HaveCommonSupport};
ghost use Rattle.matching_state.specs.Overlaps.{IsOverlap};
ghost use Rattle.classes.specs.Ends.{IsSetOf, TellsEnd};

use crate::ended::{Ended, ended_by};
use crate::supports::supports_meet;
use exchanges::{Stepped, step_toward};
use field_core::{Field, Rows};
use matching_state::{Matched, Place};
use parity_lines::LineSet;
use std::alloc::AllocError;

/// An outer of an exposed line, alone.
fn outer_alone<F: Field>(state: &Matched<'_, F>, line: usize) -> Result<Rows<F>, AllocError>
    requires within { line < length state.now.problem.lines }
    requires exposed { IsExposed F.scalars state.now.problem state.now.set line }
    ensures { IfOk result (λ rows. (outer : List ℕ) × IsOuter F.scalars state.now.problem state.now.set line outer × (rows ≡ record { width = state.now.problem.dimension; rows = outer ∷ [] })) }
{
    let _lines = state.problem().len();
    let Place::Exposed { outer, .. } = state.position(line)? else {
        unreachable!();
    };
    Ok(Rows::alone(state.alloc(), outer.as_slice())?)
}

/// The end that a line that came in gives for the set before, where its support met that of `line`.
fn end_before<F: Field>(
    before: &Matched<'_, F>,
    line: usize,
    into: usize,
) -> Result<Option<Ended>, AllocError>
    requires within { line < length before.now.problem.lines }
    requires into_within { into < length before.now.problem.lines }
    requires exposed { IsExposed F.scalars before.now.problem before.now.set line }
    requires into_exposed { IsExposed F.scalars before.now.problem before.now.set into }
    requires overlap { HaveCommonSupport F.scalars before.now.problem before.now.set line into → IsOverlap F.scalars before.now.problem before.now.set line into }
    ensures { IfOk result (λ found. MatchOption found
        (¬ (HaveCommonSupport F.scalars before.now.problem before.now.set line into))
        (TellsEnd F.scalars before.now.problem (length before.now.set))) }
{
    if supports_meet(before, line, into)? {
        Ok(Some(ended_by(before, line, into)?))
    } else {
        Ok(None)
    }
}

/// One step along the circuit: an end of the call, or the set goes on.
fn circle<F: Field>(
    state: &mut Matched<'_, F>,
    target: &LineSet,
    keep: &Rows<F>,
    line: usize,
) -> Result<Option<Ended>, AllocError>
    requires within { line < length state.old.problem.lines }
    requires target { IsSetOf F.scalars state.old.problem (length state.old.set) target.now }
    requires width { keep.now.width ≡ state.old.problem.dimension }
    requires circuit { (L : IsField F.scalars) → IsInCircuit F.scalars L state.old.problem target.now keep.now.rows line state.old.set }
    ensures problem { state.new.problem ≡ state.old.problem }
    ensures found { IfOk result (λ found. MatchOption found
        ((L : IsField F.scalars) → GoesOnInCircuit F.scalars L state.old.problem target.now keep.now.rows line state.old.set state.new.set)
        (TellsEnd F.scalars state.old.problem (length state.old.set))) }
{
    let (alloc, problem, set) = (state.alloc(), state.problem(), state.set());
    let (_lines, _kept) = (problem.len(), keep.len());
    let before = Matched::started(alloc, problem, set)?;
    match step_toward(state, target, keep)? {
        Stepped::Larger(larger) => Ok(Some(Ended::Larger(larger))),
        Stepped::Settled => unreachable!(),
        Stepped::Moved { into, .. } => match end_before(&before, line, into)? {
            Some(end) => Ok(Some(end)),
            None => Ok(None),
        },
    }
}

/// Steps along the circuit, up to an end of the call.
fn go_round<F: Field>(
    state: &mut Matched<'_, F>,
    target: &LineSet,
    keep: &Rows<F>,
    line: usize,
) -> Result<Ended, AllocError>
    requires within { line < length state.old.problem.lines }
    requires target { IsSetOf F.scalars state.old.problem (length state.old.set) target.now }
    requires width { keep.now.width ≡ state.old.problem.dimension }
    requires circuit { (L : IsField F.scalars) → IsInCircuit F.scalars L state.old.problem target.now keep.now.rows line state.old.set }
    ensures problem { state.new.problem ≡ state.old.problem }
    ensures end { IfOk result (TellsEnd F.scalars state.old.problem (length state.old.set)) }
{
    loop {
        match circle(state, target, keep, line)? {
            Some(end) => return Ok(end),
            None => {}
        }
    }
}

/// From a set over which `line` is exposed, toward one as long that separates it and a line of its support.
pub fn circuits<F: Field>(
    state: &mut Matched<'_, F>,
    target: &LineSet,
    line: usize,
) -> Result<Ended, AllocError>
    requires within { line < length state.old.problem.lines }
    requires target { IsSetOf F.scalars state.old.problem (length state.old.set) target.now }
    requires apart { (L : IsField F.scalars) → IsPulledApart F.scalars L state.old.problem target.now state.old.set line }
    ensures problem { state.new.problem ≡ state.old.problem }
    ensures end { IfOk result (TellsEnd F.scalars state.old.problem (length state.old.set)) }
{
    let (problem, _set) = (state.problem(), state.set());
    let _lines = problem.len();
    let keep = outer_alone(state, line)?;
    go_round(state, target, &keep, line)
}
