//! Families of independent sets, and what their spans have in common.

use crate::asserting::assert_text;
use crate::places::{SECOND_AND_FOURTH, ready};
use families::Family;
use field_core::Field;
use parity_lines::Problem;
use small_fields::F2;
use std::alloc::{AllocError, Global};
use std::process::Abort;
use std::test::Fail;
use worked_texts::{problem_of, shown_rows, shown_set};

/// The family of the set that a text chooses.
pub fn one<'a, F: Field>(
    rt: &impl Abort,
    alloc: Global,
    problem: &'a Problem<F>,
    text: &str,
) -> Result<Family<'a, F>, AllocError> {
    let state = ready(rt, alloc, problem, text)?;
    Family::new(alloc, state.problem(), state.set())
}

/// Puts the set that a text chooses last.
pub fn add<F: Field>(
    rt: &impl Abort,
    family: &mut Family<'_, F>,
    text: &str,
) -> Result<(), AllocError> {
    let state = ready(rt, family.alloc(), family.problem(), text)?;
    assert!(rt; family.len() > 0);
    assert!(rt; family.member(0).len() == state.set().len());
    family.add(state.set())
}

/// The members, one after the other.
fn members<F: Field>(family: &Family<'_, F>) -> Result<String, AllocError> {
    let mut text = String::new(family.alloc());
    for i in 0..family.len() {
        if i > 0 {
            text.push_str(", ")?;
        }
        text.push_str(shown_set(family.alloc(), family.member(i))?.as_str())?;
    }
    Ok(text)
}

/// The first member that misses the first vector of a line, counted from 1, or `none`.
fn missing<F: Field>(
    rt: &impl Abort,
    family: &Family<'_, F>,
    line: usize,
) -> Result<String, AllocError> {
    let problem = family.problem();
    assert!(rt; line < problem.len());
    match family.member_missing(problem.first(line))? {
        Some(i) => format!(in family.alloc(); "{}", i as u128 + 1),
        None => String::from_str(family.alloc(), "none"),
    }
}

/// What `missing` says of each line.
fn all_missing<F: Field>(rt: &impl Abort, family: &Family<'_, F>) -> Result<String, AllocError> {
    let mut text = String::new(family.alloc());
    for line in 0..family.problem().len() {
        if line > 0 {
            text.push_str(" ")?;
        }
        text.push_str(missing(rt, family, line)?.as_str())?;
    }
    Ok(text)
}

/// The members, a basis of what they have in common, and the members that miss the lines' first vectors.
fn told<F: Field>(rt: &impl Abort, family: &Family<'_, F>) -> Result<String, AllocError> {
    let alloc = family.alloc();
    let sets = members(family)?;
    let basis = shown_rows(alloc, family.common().basis())?;
    let misses = all_missing(rt, family)?;
    format!(in alloc; "{}; {}; {}", sets, basis, misses)
}

/// Asserts what the family of a chosen set is.
fn assert_one<F: Field>(
    rt: &impl Abort,
    alloc: Global,
    text: &str,
    first: &str,
    want: &str,
) -> Result<(), AllocError> {
    let problem = problem_of::<F>(alloc, text).expect(rt, "a problem");
    let family = one(rt, alloc, &problem, first)?;
    assert_text(rt, told(rt, &family)?.as_str(), want);
    Ok(())
}

/// Asserts what the family of two chosen sets is.
fn assert_two<F: Field>(
    rt: &impl Abort,
    alloc: Global,
    text: &str,
    sets: (&str, &str),
    want: &str,
) -> Result<(), AllocError> {
    let problem = problem_of::<F>(alloc, text).expect(rt, "a problem");
    let mut family = one(rt, alloc, &problem, sets.0)?;
    add(rt, &mut family, sets.1)?;
    assert_text(rt, told(rt, &family)?.as_str(), want);
    Ok(())
}

/// A path of six vertices, and an edge of a seventh and the path's second: the edges ab, bc, cd, de, ef and gb.
pub const FORK: &str = "parity 1\nfield 2\ndimension 7\nlines 6\n\
    line 1 0 0 0 0 0 0 | 0 1 0 0 0 0 0\nline 0 1 0 0 0 0 0 | 0 0 1 0 0 0 0\nline 0 0 1 0 0 0 0 | 0 0 0 1 0 0 0\n\
    line 0 0 0 1 0 0 0 | 0 0 0 0 1 0 0\nline 0 0 0 0 1 0 0 | 0 0 0 0 0 1 0\nline 0 0 0 0 0 0 1 | 0 1 0 0 0 0 0\n";

pub const THIRD_AND_FIFTH: &str = "choice 1\nsize 2\nset 3 5\nend\n";

#[test]
fn two_sets_of_a_path_have_three_vertices_in_common(rt: HostRuntime) -> Result<(), Fail> {
    let want =
        "2 4; 0 1 0 0 0 0 0 / 0 0 1 0 0 0 0 / 0 0 0 1 0 0 0 / 0 0 0 0 1 0 0; 1 none none none none 1";
    assert_one::<F2>(&rt, rt.alloc(), FORK, SECOND_AND_FOURTH, want)?;
    let sets = (SECOND_AND_FOURTH, THIRD_AND_FIFTH);
    let want = "2 4, 3 5; 0 0 1 0 0 0 0 / 0 0 0 1 0 0 0 / 0 0 0 0 1 0 0; 1 2 none none none 1";
    assert_two::<F2>(&rt, rt.alloc(), FORK, sets, want)?;
    Ok(())
}
