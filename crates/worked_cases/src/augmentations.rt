//! Augmentation, with the search and by the recursion alone, and largest sets.

use crate::asserting::assert_text;
use crate::partitions::{
    LONGER, NO_LINE, OVERLAPPING, REPEATED, THREE_TRIANGLES, TRIANGLE, TWO_TRIANGLES, choice_text,
};
use crate::places::{PATH, ready};
use crate::verdicts::{HUB, assert_verdict};
use augment::{Solver, Step, augment, augment_by_recursion};
use cert_check::Verdict;
use field_core::Field;
use parity_lines::{Answer, Maximizer, Problem};
use parity_text::write_answer;
use small_fields::{F2, F256};
use std::alloc::{AllocError, Global};
use std::process::Abort;
use std::test::Fail;
use worked_texts::{problem_of, shown_parts, shown_rows, shown_set};

/// The text of an answer.
fn written<F: Field>(
    rt: &impl Abort,
    alloc: Global,
    answer: &Answer<F>,
) -> Result<String, AllocError> {
    let mut bytes = Vec::new(alloc);
    write_answer(&mut bytes, answer)?;
    Ok(String::from_utf8(bytes).expect(rt, "a text"))
}

/// What an answer is, whose text is read again and judged good.
fn judged<F: Field>(
    rt: &impl Abort,
    alloc: Global,
    problem: &Problem<F>,
    answer: &Answer<F>,
) -> Result<String, AllocError> {
    let text = written(rt, alloc, answer)?;
    assert_verdict(rt, alloc, problem, text.as_str(), Verdict::Yes)?;
    let kernel = shown_rows(alloc, &answer.certificate.kernel)?;
    let parts = shown_parts(alloc, &answer.certificate.parts)?;
    format!(in alloc;
        "{} lines; kernel {}; parts {}",
        answer.set.len(),
        kernel,
        parts
    )
}

/// Whether the search stands before the recursion.
#[derive(Clone, Copy, Drop)]
enum By {
    Search,
    Recursion,
}

/// The step from so many chosen lines: a longer set, or what makes the choice a largest one.
fn step_from<F: Field>(
    rt: &impl Abort,
    alloc: Global,
    problem: &Problem<F>,
    chosen: (usize, &str),
    by: By,
) -> Result<String, AllocError> {
    let text = choice_text(alloc, chosen.0, chosen.1)?;
    let state = ready(rt, alloc, problem, text.as_str())?;
    let set = state.set();
    let step = match by {
        By::Search => augment(alloc, state.problem(), set)?,
        By::Recursion => augment_by_recursion(alloc, state.problem(), set)?,
    };
    match step {
        Step::Larger(larger) => shown_set(alloc, &larger),
        Step::Best(certificate) => {
            let set = set.copied()?;
            judged(rt, alloc, problem, &Answer { set, certificate })
        }
    }
}

/// Asserts what the step from so many chosen lines is, with the search and by the recursion.
fn assert_step<F: Field>(
    rt: &impl Abort,
    alloc: Global,
    text: &str,
    chosen: (usize, &str),
    want: &str,
) -> Result<(), AllocError> {
    let problem = problem_of::<F>(alloc, text).expect(rt, "a problem");
    assert_text(
        rt,
        step_from(rt, alloc, &problem, chosen, By::Search)?.as_str(),
        want,
    );
    assert_text(
        rt,
        step_from(rt, alloc, &problem, chosen, By::Recursion)?.as_str(),
        want,
    );
    Ok(())
}

#[test]
fn only_steps(rt: HostRuntime) -> Result<(), Fail> {
    let alloc = rt.alloc();
    let want = "1 lines; kernel ; parts 1 2 3";
    assert_step::<F2>(&rt, alloc, TRIANGLE, (1, "1"), want)?;
    assert_step::<F2>(&rt, alloc, PATH, (2, "2 4"), "1 3 5")?;
    assert_step::<F2>(&rt, alloc, NO_LINE, (0, ""), "0 lines; kernel ; parts ")?;
    Ok(())
}

/// Asserts that so many chosen lines are a largest set, and that the recursion tells so.
fn assert_largest<F: Field>(
    rt: &impl Abort,
    alloc: Global,
    text: &str,
    chosen: (usize, &str),
) -> Result<(), AllocError> {
    let problem = problem_of::<F>(alloc, text).expect(rt, "a problem");
    let told = step_from(rt, alloc, &problem, chosen, By::Recursion)?;
    assert!(rt; told.as_str().contains("lines; kernel"));
    Ok(())
}

/// Asserts that the recursion finds a longer set than so many chosen lines.
fn assert_longer<F: Field>(
    rt: &impl Abort,
    alloc: Global,
    text: &str,
    chosen: (usize, &str),
) -> Result<(), AllocError> {
    let problem = problem_of::<F>(alloc, text).expect(rt, "a problem");
    let told = step_from(rt, alloc, &problem, chosen, By::Recursion)?;
    assert!(rt; !told.as_str().contains("lines; kernel"));
    Ok(())
}

#[test]
fn recursion_alone(rt: HostRuntime) -> Result<(), Fail> {
    let alloc = rt.alloc();
    assert_longer::<F2>(&rt, alloc, LONGER, (2, "5 7"))?;
    assert_largest::<F2>(&rt, alloc, THREE_TRIANGLES, (3, "3 5 9"))?;
    assert_largest::<F2>(&rt, alloc, TWO_TRIANGLES, (2, "1 4"))?;
    assert_longer::<F2>(&rt, alloc, OVERLAPPING, (4, "1 2 8 13"))?;
    assert_largest::<F2>(&rt, alloc, REPEATED, (1, "1"))?;
    assert_longer::<F2>(&rt, alloc, HUB, (3, "1 4 7"))?;
    assert_largest::<F2>(&rt, alloc, HUB, (4, "1 3 4 7"))?;
    Ok(())
}

/// Asserts how many lines the solver finds.
fn assert_solved<F: Field>(
    rt: &impl Abort,
    alloc: Global,
    text: &str,
    want: usize,
) -> Result<(), AllocError> {
    let problem = problem_of::<F>(alloc, text).expect(rt, "a problem");
    let answer = Solver.largest(alloc, &problem)?;
    judged(rt, alloc, &problem, &answer)?;
    assert_eq!(rt; answer.set.len(), want);
    Ok(())
}

/// One line, of parallel vectors.
const PARALLEL: &str = "parity 1\nfield 256\ndimension 2\nlines 1\nline 83 1 | 1 202\n";

#[test]
fn solver(rt: HostRuntime) -> Result<(), Fail> {
    let alloc = rt.alloc();
    assert_solved::<F2>(&rt, alloc, NO_LINE, 0)?;
    assert_solved::<F2>(&rt, alloc, TRIANGLE, 1)?;
    assert_solved::<F2>(&rt, alloc, LONGER, 3)?;
    assert_solved::<F2>(&rt, alloc, THREE_TRIANGLES, 3)?;
    assert_solved::<F2>(&rt, alloc, OVERLAPPING, 5)?;
    assert_solved::<F2>(&rt, alloc, HUB, 4)?;
    assert_solved::<F256>(&rt, alloc, PARALLEL, 0)?;
    Ok(())
}
