//! Exchanges of lines, and steps toward a target.

ghost use Rattle.std.specs.Prelude.{◌<◌, All, length};

use crate::asserting::assert_text;
use crate::places::{FIRST, PATH, SECOND_AND_FOURTH, THREE, ready};
use exchanges::{Moved, Stepped, move_toward, step_toward, swap};
use field_core::{Field, Rows};
use matching_state::{Matched, Place};
use parity_lines::LineSet;
use small_fields::{F2, F3};
use std::alloc::{AllocError, Global};
use std::process::Abort;
use std::test::Fail;
use worked_texts::{choice_of, problem_of, shown_set};

/// Puts the line `into` in the place of `out`, which is in its support.
fn exchange<F: Field>(
    rt: &impl Abort,
    state: &mut Matched<'_, F>,
    out: usize,
    into: usize,
) -> Result<(), AllocError> {
    assert!(rt; into < state.problem().len());
    match state.position(into)? {
        Place::Exposed { support, .. } => {
            assert!(rt; support.holds(out));
            swap(state, out, into)
        }
        _ => panic!(rt; "the line is exposed"),
    }
}

/// A step with nothing to keep, by the positions from 1.
fn step<F: Field>(state: &mut Matched<'_, F>, target: &LineSet) -> Result<String, AllocError>
    requires { All (λ m. m < length state.old.problem.lines) target.now }
{
    let (alloc, problem, _set) = (state.alloc(), state.problem(), state.set());
    match step_toward(state, target, &Rows::new(alloc, problem.dimension()))? {
        Stepped::Moved { out, into } => {
            format!(in alloc; "{} for {}", into as u128 + 1, out as u128 + 1)
        }
        Stepped::Settled => String::from_str(alloc, "settled"),
        Stepped::Larger(set) => shown_set(alloc, &set),
    }
}

/// All steps with nothing to keep.
fn walk<F: Field>(state: &mut Matched<'_, F>, target: &LineSet) -> Result<String, AllocError>
    requires { All (λ m. m < length state.old.problem.lines) target.now }
{
    let (alloc, problem, _set) = (state.alloc(), state.problem(), state.set());
    match move_toward(state, target, &Rows::new(alloc, problem.dimension()))? {
        Moved::Settled => String::from_str(alloc, "settled"),
        Moved::Larger(set) => shown_set(alloc, &set),
    }
}

/// A step toward the set that a text chooses.
fn step_to<F: Field>(
    rt: &impl Abort,
    state: &mut Matched<'_, F>,
    text: &str,
) -> Result<String, AllocError> {
    let target = choice_of(state.alloc(), state.problem(), text).expect(rt, "a choice");
    step(state, &target)
}

/// Asserts what the set is after a line has taken the place of another.
fn assert_exchange<F: Field>(
    rt: &impl Abort,
    alloc: Global,
    text: &str,
    chosen: &str,
    lines: (usize, usize),
    want: &str,
) -> Result<(), AllocError> {
    let problem = problem_of::<F>(alloc, text).expect(rt, "a problem");
    let mut state = ready(rt, alloc, &problem, chosen)?;
    exchange(rt, &mut state, lines.0, lines.1)?;
    assert_text(rt, shown_set(alloc, state.set())?.as_str(), want);
    Ok(())
}

/// Asserts what comes of a walk, and the set after it.
fn assert_walk<F: Field>(
    rt: &impl Abort,
    alloc: Global,
    texts: (&str, &str, &str),
    want: &str,
    set: &str,
) -> Result<(), AllocError> {
    let problem = problem_of::<F>(alloc, texts.0).expect(rt, "a problem");
    let mut state = ready(rt, alloc, &problem, texts.1)?;
    let target = choice_of(alloc, state.problem(), texts.2).expect(rt, "a choice");
    assert_text(rt, walk(&mut state, &target)?.as_str(), want);
    assert_text(rt, shown_set(alloc, state.set())?.as_str(), set);
    Ok(())
}

/// Asserts what comes of the next step.
fn assert_step<F: Field>(
    rt: &impl Abort,
    state: &mut Matched<'_, F>,
    text: &str,
    want: &str,
) -> Result<(), AllocError> {
    assert_text(rt, step_to(rt, state, text)?.as_str(), want);
    Ok(())
}

/// The first and the last edge of the path.
const FIRST_AND_LAST: &str = "choice 1\nsize 2\nset 1 5\nend\n";

#[test]
fn exposed_line_takes_the_place(rt: HostRuntime) -> Result<(), Fail> {
    assert_exchange::<F3>(&rt, rt.alloc(), THREE, FIRST, (0, 1), "2")?;
    Ok(())
}

#[test]
fn path_is_walked_to_its_ends(rt: HostRuntime) -> Result<(), Fail> {
    let ends = (PATH, SECOND_AND_FOURTH, FIRST_AND_LAST);
    assert_walk::<F2>(&rt, rt.alloc(), ends, "settled", "1 5")?;
    Ok(())
}

#[test]
fn path_is_walked_step_by_step(rt: HostRuntime) -> Result<(), Fail> {
    let path = problem_of::<F2>(rt.alloc(), PATH).expect(&rt, "a problem");
    let mut state = ready(&rt, rt.alloc(), &path, SECOND_AND_FOURTH)?;
    assert_step(&rt, &mut state, FIRST_AND_LAST, "1 for 2")?;
    assert_step(&rt, &mut state, FIRST_AND_LAST, "5 for 4")?;
    assert_step(&rt, &mut state, FIRST_AND_LAST, "settled")?;
    Ok(())
}
