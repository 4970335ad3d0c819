//! Overlaps, their points, and what they raise.

ghost use Rattle.std.specs.Prelude.{◌≡◌, ◌∷◌, [], IfOk, None};
ghost use Rattle.matching_state.specs.Missing.{Misses};
ghost use Rattle.matching_state.specs.DirectSteps.{TellsDirectStep};

use crate::asserting::assert_text;
use crate::common_vectors::{FORK, THIRD_AND_FIFTH};
use crate::places::{SECOND_AND_FOURTH, ready};
use field_core::Field;
use matching_state::Matched;
use overlap::{Overlap, at, find, raise};
use parity_lines::LineSet;
use small_fields::{F2, F251};
use std::alloc::{AllocError, Global};
use std::process::Abort;
use std::test::Fail;
use worked_texts::{problem_of, shown, shown_set};

/// The two lines of an overlap, and its point.
fn told<F: Field>(overlap: &Overlap<'_, F>) -> Result<String, AllocError> {
    let alloc = overlap.alloc();
    let (first, second) = overlap.lines();
    let point = shown(alloc, overlap.point())?;
    format!(in alloc; "{} {}: {}", first as u128 + 1, second as u128 + 1, point)
}

/// Stops where a direct step leads on.
fn assert_no_step<F: Field>(rt: &impl Abort, state: &Matched<'_, F>) -> Result<(), AllocError>
    ensures { IfOk result (λ _. TellsDirectStep F.scalars state.now.problem state.now.set None) }
{
    match state.direct_step()? {
        None => Ok(()),
        Some(_) => panic!(rt; "no direct step"),
    }
}

/// The overlap that the search finds.
fn found<F: Field>(rt: &impl Abort, state: &Matched<'_, F>) -> Result<String, AllocError> {
    assert_no_step(rt, state)?;
    match find(state)? {
        Some(overlap) => told(&overlap),
        None => String::from_str(state.alloc(), "none"),
    }
}

/// The overlap of the two lines that the search finds.
pub fn overlap<'a, F: Field>(
    rt: &impl Abort,
    state: &Matched<'a, F>,
) -> Result<Overlap<'a, F>, AllocError>
    ensures { IfOk result (λ o. o.problem ≡ state.now.problem) }
{
    assert_no_step(rt, state)?;
    match find(state)? {
        Some(overlap) => {
            let (first, second) = overlap.lines();
            at(state, first, second)
        }
        None => panic!(rt; "an overlap"),
    }
}

/// Stops where the set spans the point.
fn assert_missed<F: Field>(
    rt: &impl Abort,
    overlap: &Overlap<'_, F>,
    state: &Matched<'_, F>,
) -> Result<(), AllocError>
    requires { state.now.problem ≡ overlap.now.problem }
    ensures { IfOk result (λ _. Misses F.scalars overlap.now.problem state.now.set (overlap.now.point ∷ [])) }
{
    let (problem, _set) = (overlap.problem(), state.set());
    let _lines = problem.len();
    let found = state.coordinates(overlap.point())?;
    match found {
        None => Ok(()),
        Some(_) => panic!(rt; "the point is missed"),
    }
}

/// The longer set that one which misses the point leads to.
pub fn raised<F: Field>(
    rt: &impl Abort,
    overlap: &Overlap<'_, F>,
    state: &Matched<'_, F>,
) -> Result<LineSet, AllocError>
    requires { state.now.problem ≡ overlap.now.problem }
{
    assert_missed(rt, overlap, state)?;
    let set = state.set();
    assert!(rt; set.len() == overlap.set().len());
    raise(overlap, set)
}

/// Asserts what the overlap of a chosen set is, as the search finds it, and made of its two lines.
fn assert_overlap<F: Field>(
    rt: &impl Abort,
    alloc: Global,
    text: &str,
    chosen: &str,
    want: &str,
) -> Result<(), AllocError> {
    let problem = problem_of::<F>(alloc, text).expect(rt, "a problem");
    let state = ready(rt, alloc, &problem, chosen)?;
    assert_text(rt, found(rt, &state)?.as_str(), want);
    assert_text(rt, told(&overlap(rt, &state)?)?.as_str(), want);
    Ok(())
}

/// The longer set that another chosen one leads to.
fn raised_at<F: Field>(
    rt: &impl Abort,
    alloc: Global,
    text: &str,
    chosen: &str,
    other: &str,
) -> Result<String, AllocError> {
    let problem = problem_of::<F>(alloc, text).expect(rt, "a problem");
    let state = ready(rt, alloc, &problem, chosen)?;
    let other = ready(rt, alloc, &problem, other)?;
    shown_set(alloc, &raised(rt, &overlap(rt, &state)?, &other)?)
}

#[test]
fn fork_overlaps_at_a_vertex(rt: HostRuntime) -> Result<(), Fail> {
    let want = "1 6: 0 1 0 0 0 0 0";
    assert_overlap::<F2>(&rt, rt.alloc(), FORK, SECOND_AND_FOURTH, want)?;
    let raised = raised_at::<F2>(&rt, rt.alloc(), FORK, SECOND_AND_FOURTH, THIRD_AND_FIFTH)?;
    assert!(rt; raised.as_str() == "1 3 5" || raised.as_str() == "3 5 6");
    Ok(())
}

/// Two lines, and two whose tips have the components 3 and 5 there, and twice and three times as much.
const TIPS: &str = "parity 1\nfield 251\ndimension 6\nlines 4\n\
    line 1 0 0 0 0 0 | 0 1 0 0 0 0\nline 0 0 1 0 0 0 | 0 0 0 1 0 0\n\
    line 3 0 5 0 0 0 | 0 0 0 0 1 0\nline 6 0 15 0 0 0 | 0 0 0 0 0 1\n";

const FIRST_AND_SECOND: &str = "choice 1\nsize 2\nset 1 2\nend\n";

#[test]
fn point_keeps_one_ratio(rt: HostRuntime) -> Result<(), Fail> {
    assert_overlap::<F251>(&rt, rt.alloc(), TIPS, FIRST_AND_SECOND, "3 4: 3 0 0 0 0 0")?;
    Ok(())
}
