//! Places of lines over an independent set, coordinates, and steps.

ghost use Rattle.std.specs.Prelude.{◌≡◌, IfOk};

use crate::asserting::assert_text;
use field_core::Field;
use matching_state::{Matched, Place, Start};
use parity_lines::Problem;
use small_fields::{F2, F3, F5, F256};
use std::alloc::{AllocError, Global};
use std::process::Abort;
use std::test::Fail;
use worked_texts::{choice_of, problem_of, shown, shown_set};

/// The state of the set that a text chooses.
pub fn ready<'a, F: Field>(
    rt: &impl Abort,
    alloc: Global,
    problem: &'a Problem<F>,
    text: &str,
) -> Result<Matched<'a, F>, AllocError>
    ensures { IfOk result (λ state. state.problem ≡ problem.now) }
{
    match Matched::start(
        alloc,
        problem,
        &choice_of(alloc, problem, text).expect(rt, "a choice"),
    )? {
        Start::Ready(state) => Ok(state),
        Start::Relation(_) => panic!(rt; "the set is independent"),
    }
}

/// The place of a line in words, with its support where it is exposed.
pub fn place<F: Field>(
    rt: &impl Abort,
    state: &Matched<'_, F>,
    line: usize,
) -> Result<String, AllocError> {
    assert!(rt; line < state.problem().len());
    match state.position(line)? {
        Place::Inside => String::from_str(state.alloc(), "inside"),
        Place::Single { .. } => String::from_str(state.alloc(), "single"),
        Place::Exposed { support, .. } => format!(in state.alloc();
            "exposed {}",
            shown_set(state.alloc(), &support)?
        ),
        Place::Free => String::from_str(state.alloc(), "free"),
    }
}

/// The set that a step makes, or `none`.
fn step<F: Field>(state: &Matched<'_, F>) -> Result<String, AllocError> {
    match state.direct_step()? {
        Some(set) => shown_set(state.alloc(), &set),
        None => String::from_str(state.alloc(), "none"),
    }
}

/// The places of all lines, in order.
fn places<F: Field>(rt: &impl Abort, state: &Matched<'_, F>) -> Result<String, AllocError> {
    let mut text = String::new(state.alloc());
    for line in 0..state.problem().len() {
        if line > 0 {
            text.push_str(", ")?;
        }
        text.push_str(place(rt, state, line)?.as_str())?;
    }
    Ok(text)
}

/// Asserts what the places of the lines over a chosen set are.
fn assert_places<F: Field>(
    rt: &impl Abort,
    alloc: Global,
    text: &str,
    chosen: &str,
    want: &str,
) -> Result<(), AllocError> {
    let problem = problem_of::<F>(alloc, text).expect(rt, "a problem");
    let state = ready(rt, alloc, &problem, chosen)?;
    assert_text(rt, places(rt, &state)?.as_str(), want);
    Ok(())
}

/// The step from a chosen set.
fn step_from<F: Field>(
    rt: &impl Abort,
    alloc: Global,
    text: &str,
    chosen: &str,
) -> Result<String, AllocError> {
    let problem = problem_of::<F>(alloc, text).expect(rt, "a problem");
    let state = ready(rt, alloc, &problem, chosen)?;
    step(&state)
}

/// Asserts what the step from a chosen set is.
fn assert_step<F: Field>(
    rt: &impl Abort,
    alloc: Global,
    text: &str,
    chosen: &str,
    want: &str,
) -> Result<(), AllocError> {
    assert_text(rt, step_from::<F>(rt, alloc, text, chosen)?.as_str(), want);
    Ok(())
}

/// Three lines, of which the last two can take the place of the first.
pub const THREE: &str = "parity 1\nfield 3\ndimension 4\nlines 3\n\
    line 1 0 0 0 | 0 1 0 0\nline 2 0 0 0 | 0 0 1 0\nline 0 2 0 0 | 0 0 1 1\n";

pub const FIRST: &str = "choice 1\nsize 1\nset 1\nend\n";

const NONE: &str = "choice 1\nsize 0\nset\nend\n";

/// A plane, a point, parallel vectors within the plane and outside, the plane again, and a line across.
const DEGENERATE: &str = "parity 1\nfield 5\ndimension 3\nlines 6\n\
    line 1 0 0 | 0 1 0\nline 0 0 0 | 0 0 0\nline 1 4 0 | 4 1 0\n\
    line 0 1 3 | 0 2 1\nline 1 0 0 | 0 1 0\nline 1 0 2 | 0 0 3\n";

/// A path of five edges as lines.
pub const PATH: &str = "parity 1\nfield 2\ndimension 6\nlines 5\n\
    line 1 0 0 0 0 0 | 0 1 0 0 0 0\nline 0 1 0 0 0 0 | 0 0 1 0 0 0\nline 0 0 1 0 0 0 | 0 0 0 1 0 0\n\
    line 0 0 0 1 0 0 | 0 0 0 0 1 0\nline 0 0 0 0 1 0 | 0 0 0 0 0 1\n";

pub const SECOND_AND_FOURTH: &str = "choice 1\nsize 2\nset 2 4\nend\n";

/// Two lines in a space of no dimension.
const NOTHING: &str = "parity 1\nfield 2\ndimension 0\nlines 2\nline |\nline |\n";

#[test]
fn lines_have_places(rt: HostRuntime) -> Result<(), Fail> {
    let alloc = rt.alloc();
    let exposed = "inside, exposed 1, exposed 1";
    assert_places::<F3>(&rt, alloc, THREE, FIRST, exposed)?;
    let single = "inside, inside, inside, single, inside, exposed 1";
    assert_places::<F5>(&rt, alloc, DEGENERATE, FIRST, single)?;
    let free = "free, inside, single, single, free, free";
    assert_places::<F5>(&rt, alloc, DEGENERATE, NONE, free)?;
    let ends = "exposed 2, inside, inside, inside, exposed 4";
    assert_places::<F2>(&rt, alloc, PATH, SECOND_AND_FOURTH, ends)?;
    assert_places::<F2>(&rt, alloc, NOTHING, NONE, "inside, inside")?;
    Ok(())
}

#[test]
fn steps_lead_to_longer_sets(rt: HostRuntime) -> Result<(), Fail> {
    let alloc = rt.alloc();
    assert_step::<F3>(&rt, alloc, THREE, FIRST, "2 3")?;
    assert_step::<F5>(&rt, alloc, DEGENERATE, FIRST, "none")?;
    assert_step::<F2>(&rt, alloc, PATH, SECOND_AND_FOURTH, "none")?;
    assert_step::<F2>(&rt, alloc, NOTHING, NONE, "none")?;
    assert!(rt; step_from::<F5>(&rt, alloc, DEGENERATE, NONE)?.as_str() != "none");
    Ok(())
}

/// The coordinates of a vector, or `none`.
fn coordinates<F: Field>(
    rt: &impl Abort,
    state: &Matched<'_, F>,
    v: &[F],
) -> Result<String, AllocError> {
    let problem = state.problem();
    assert!(rt; v.len() == problem.dimension());
    match state.coordinates(v)? {
        Some(row) => shown(state.alloc(), row.as_slice()),
        None => String::from_str(state.alloc(), "none"),
    }
}

/// Asserts what the coordinates of the two vectors of a line of its own are.
fn assert_coordinates<F: Field>(
    rt: &impl Abort,
    state: &Matched<'_, F>,
    line: &str,
    first: &str,
    second: &str,
) -> Result<(), AllocError> {
    let vectors = problem_of::<F>(state.alloc(), line).expect(rt, "a problem");
    assert!(rt; vectors.len() == 1);
    assert_text(
        rt,
        coordinates(rt, state, vectors.first(0))?.as_str(),
        first,
    );
    assert_text(
        rt,
        coordinates(rt, state, vectors.second(0))?.as_str(),
        second,
    );
    Ok(())
}

#[test]
fn vectors_have_coordinates(rt: HostRuntime) -> Result<(), Fail> {
    let three = problem_of::<F3>(rt.alloc(), THREE).expect(&rt, "a problem");
    let state = ready(&rt, rt.alloc(), &three, FIRST)?;
    let line = "parity 1\nfield 3\ndimension 4\nlines 1\nline 1 1 0 0 | 1 1 0 1\n";
    assert_coordinates(&rt, &state, line, "1 1", "none")?;
    Ok(())
}

/// What a chosen set gives to start from: the set, or a relation of its vectors.
fn started<F: Field>(
    rt: &impl Abort,
    alloc: Global,
    text: &str,
    chosen: &str,
) -> Result<String, AllocError> {
    let problem = problem_of::<F>(alloc, text).expect(rt, "a problem");
    match Matched::start(
        alloc,
        &problem,
        &choice_of(alloc, &problem, chosen).expect(rt, "a choice"),
    )? {
        Start::Ready(state) => shown_set(alloc, state.set()),
        Start::Relation(row) => shown(alloc, row.as_slice()),
    }
}

#[test]
fn dependent_set_has_a_relation(rt: HostRuntime) -> Result<(), Fail> {
    let alloc = rt.alloc();
    assert_text(&rt, started::<F3>(&rt, alloc, THREE, FIRST)?.as_str(), "1");
    let text = "parity 1\nfield 256\ndimension 2\nlines 1\nline 83 1 | 1 202\n";
    assert_text(
        &rt,
        started::<F256>(&rt, alloc, text, FIRST)?.as_str(),
        "1 83",
    );
    Ok(())
}
