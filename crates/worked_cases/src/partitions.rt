//! Classes of lines: what a family of independent sets with nothing in common tells of the lines.

ghost use Rattle.std.specs.Prelude.{◌≡◌, IfOk};

use crate::asserting::assert_text;
use crate::common_vectors::{add, one};
use crate::overlaps::{overlap, raised};
use crate::places::ready;
use classes::{Classes, partition};
use families::Family;
use field_core::Field;
use matching_state::Matched;
use parity_lines::{LineSet, Problem};
use small_fields::F2;
use std::alloc::{AllocError, Global};
use std::process::Abort;
use std::test::Fail;
use worked_texts::{problem_of, shown_parts, shown_set};

/// A choice of these lines, so many of them.
pub fn choice_text(alloc: Global, size: usize, lines: &str) -> Result<String, AllocError> {
    format!(in alloc; "choice 1\nsize {}\nset {}\nend\n", size, lines)
}

/// Adds the sets, each of so many lines.
fn add_all<F: Field>(
    rt: &impl Abort,
    family: &mut Family<'_, F>,
    size: usize,
    sets: &[&str],
) -> Result<(), AllocError> {
    for set in sets {
        let text = choice_text(family.alloc(), size, set)?;
        add(rt, family, text.as_str())?;
    }
    Ok(())
}

/// The partition by a family that has nothing in common.
fn parted<F: Field>(rt: &impl Abort, family: &mut Family<'_, F>) -> Result<Classes, AllocError> {
    assert!(rt; family.common().rank() == 0);
    partition(family)
}

/// The state of a set that is independent.
fn state_of<'a, F: Field>(
    rt: &impl Abort,
    alloc: Global,
    problem: &'a Problem<F>,
    set: &LineSet,
) -> Result<Matched<'a, F>, AllocError>
    ensures { IfOk result (λ state. state.problem ≡ problem.now) }
{
    let text = choice_text(alloc, set.len(), shown_set(alloc, set)?.as_str())?;
    ready(rt, alloc, problem, text.as_str())
}

/// How many lines the overlap over the set leads to, by a member that misses its point.
fn raised_size<F: Field>(
    rt: &impl Abort,
    family: &Family<'_, F>,
    set: &LineSet,
) -> Result<usize, AllocError> {
    let (alloc, problem) = (family.alloc(), family.problem());
    let state = state_of(rt, alloc, problem, set)?;
    let overlap = overlap(rt, &state)?;
    assert!(rt; overlap.point().len() == problem.dimension());
    match family.member_missing(overlap.point())? {
        Some(i) => {
            let member = state_of(rt, alloc, problem, family.member(i))?;
            Ok(raised(rt, &overlap, &member)?.len())
        }
        None => panic!(rt; "a member misses the point"),
    }
}

/// What the classes are, and how many members there are.
fn told<F: Field>(
    rt: &impl Abort,
    family: &Family<'_, F>,
    classes: &Classes,
) -> Result<String, AllocError> {
    let (alloc, members) = (family.alloc(), family.len());
    match classes {
        Classes::Parts(parts) => {
            let parts = shown_parts(alloc, parts)?;
            format!(in alloc; "parts {}; {} members", parts, members)
        }
        Classes::Larger(set) => format!(in alloc; "a set of {}; {} members", set.len(), members),
        Classes::Overlapping { set, .. } => {
            let size = raised_size(rt, family, set)?;
            format!(in alloc; "an overlap, and a set of {}; {} members", size, members)
        }
    }
}

/// Asserts what a family of sets of one size, the first and the others, tells, and how many members it has then.
fn assert_classes<F: Field>(
    rt: &impl Abort,
    alloc: Global,
    text: &str,
    size: usize,
    sets: (&str, &[&str]),
    want: &str,
) -> Result<(), AllocError> {
    let problem = problem_of::<F>(alloc, text).expect(rt, "a problem");
    let first = choice_text(alloc, size, sets.0)?;
    let mut family = one(rt, alloc, &problem, first.as_str())?;
    add_all(rt, &mut family, size, sets.1)?;
    let classes = parted(rt, &mut family)?;
    assert_text(rt, told(rt, &family, &classes)?.as_str(), want);
    Ok(())
}

/// The three edges of a triangle.
pub const TRIANGLE: &str =
    "parity 1\nfield 2\ndimension 3\nlines 3\nline 1 0 0 | 0 1 0\nline 0 1 0 | 0 0 1\nline 1 0 0 | 0 0 1\n";

/// A path of two edges, a triangle, and lines across.
pub const LONGER: &str = "parity 1\nfield 2\ndimension 6\nlines 7\n\
    line 1 0 0 0 0 0 | 0 1 0 0 0 0\nline 0 1 0 0 0 0 | 0 0 1 0 0 0\nline 0 0 0 1 0 0 | 0 0 0 0 1 0\n\
    line 0 0 0 1 0 0 | 0 0 0 0 0 1\nline 0 0 0 0 1 0 | 0 0 0 0 0 1\nline 1 0 0 0 1 0 | 0 0 0 0 0 1\n\
    line 1 0 0 0 0 0 | 0 0 1 0 0 0\n";

/// Three triangles, and two lines of rank one that join them.
pub const THREE_TRIANGLES: &str = "parity 1\nfield 2\ndimension 9\nlines 11\n\
    line 1 0 0 0 0 0 0 0 0 | 0 1 0 0 0 0 0 0 0\nline 0 1 0 0 0 0 0 0 0 | 0 0 1 0 0 0 0 0 0\n\
    line 1 0 0 0 0 0 0 0 0 | 0 0 1 0 0 0 0 0 0\nline 0 0 0 1 0 0 0 0 0 | 0 0 0 0 1 0 0 0 0\n\
    line 0 0 0 0 1 0 0 0 0 | 0 0 0 0 0 1 0 0 0\nline 0 0 0 1 0 0 0 0 0 | 0 0 0 0 0 1 0 0 0\n\
    line 0 0 0 0 0 0 1 0 0 | 0 0 0 0 0 0 0 1 0\nline 0 0 0 0 0 0 0 1 0 | 0 0 0 0 0 0 0 0 1\n\
    line 0 0 0 0 0 0 1 0 0 | 0 0 0 0 0 0 0 0 1\nline 1 0 0 1 0 0 0 0 0 | 0 0 0 0 0 0 0 0 0\n\
    line 1 0 0 1 0 0 1 0 0 | 0 0 0 0 0 0 0 0 0\n";

/// Two triangles.
pub const TWO_TRIANGLES: &str = "parity 1\nfield 2\ndimension 6\nlines 6\n\
    line 1 0 0 0 0 0 | 0 1 0 0 0 0\nline 0 1 0 0 0 0 | 0 0 1 0 0 0\nline 1 0 0 0 0 0 | 0 0 1 0 0 0\n\
    line 0 0 0 1 0 0 | 0 0 0 0 1 0\nline 0 0 0 0 1 0 | 0 0 0 0 0 1\nline 0 0 0 1 0 0 | 0 0 0 0 0 1\n";

/// A graph of ten vertices and thirteen edges, as its matching problem.
pub const OVERLAPPING: &str = "parity 1\nfield 2\ndimension 10\nlines 13\n\
    line 0 0 0 0 1 0 0 0 0 0 | 0 0 0 0 0 0 1 0 0 0\nline 0 1 0 0 0 0 0 0 0 0 | 0 0 0 0 0 0 0 1 0 0\n\
    line 0 0 0 0 0 0 1 0 0 0 | 0 0 0 0 0 0 0 1 0 0\nline 0 0 0 0 1 0 0 0 0 0 | 0 0 0 0 0 1 0 0 0 0\n\
    line 0 0 1 0 0 0 0 0 0 0 | 0 0 0 0 0 1 0 0 0 0\nline 0 0 0 0 0 1 0 0 0 0 | 0 0 0 0 0 0 1 0 0 0\n\
    line 1 0 0 0 0 0 0 0 0 0 | 0 1 0 0 0 0 0 0 0 0\nline 0 0 0 0 0 0 0 0 1 0 | 0 0 0 0 0 0 0 0 0 1\n\
    line 0 0 0 1 0 0 0 0 0 0 | 0 0 0 0 1 0 0 0 0 0\nline 0 0 0 0 0 0 0 1 0 0 | 0 0 0 0 0 0 0 0 1 0\n\
    line 0 1 0 0 0 0 0 0 0 0 | 0 0 1 0 0 0 0 0 0 0\nline 0 0 0 0 0 0 0 0 0 1 | 1 0 0 0 0 0 0 0 0 0\n\
    line 0 0 1 0 0 0 0 0 0 0 | 0 0 0 1 0 0 0 0 0 0\n";

/// A triangle, two zero lines, parallel vectors, and a line that stands twice.
pub const REPEATED: &str = "parity 1\nfield 2\ndimension 3\nlines 7\n\
    line 1 0 0 | 0 1 0\nline 0 1 0 | 0 0 1\nline 1 0 0 | 0 0 1\nline 0 0 0 | 0 0 0\n\
    line 1 1 0 | 1 1 0\nline 1 0 0 | 0 1 0\nline 0 0 0 | 0 0 0\n";

const NO_COORDINATE: &str = "parity 1\nfield 2\ndimension 0\nlines 2\nline |\nline |\n";

pub const NO_LINE: &str = "parity 1\nfield 2\ndimension 0\nlines 0\n";

#[test]
fn triangles_are_parts(rt: HostRuntime) -> Result<(), Fail> {
    let alloc = rt.alloc();
    assert_classes::<F2>(
        &rt,
        alloc,
        TRIANGLE,
        1,
        ("1", &["2", "3"]),
        "parts 1 2 3; 3 members",
    )?;
    let sets: (&str, &[&str]) = ("1 4", &["1 5", "1 6", "2 4", "3 4"]);
    assert_classes::<F2>(
        &rt,
        alloc,
        TWO_TRIANGLES,
        2,
        sets,
        "parts 1 2 3 / 4 5 6; 6 members",
    )?;
    let sets: (&str, &[&str]) = ("3 5 9", &["1 4 9", "2 6 7", "3 4 8"]);
    let want = "parts 1 2 3 / 4 5 6 / 7 8 9 / 10 / 11; 6 members";
    assert_classes::<F2>(&rt, alloc, THREE_TRIANGLES, 3, sets, want)?;
    Ok(())
}

#[test]
fn families_lead_to_longer_sets(rt: HostRuntime) -> Result<(), Fail> {
    let alloc = rt.alloc();
    let sets: (&str, &[&str]) = ("5 7", &["1 4", "3 7", "2 5"]);
    assert_classes::<F2>(&rt, alloc, LONGER, 2, sets, "a set of 3; 5 members")?;
    let sets: (&str, &[&str]) = (
        "1 2 8 13",
        &[
            "1 10 11 12",
            "4 10 11 12",
            "1 10 12 13",
            "1 5 10 12",
            "6 7 8 9",
            "1 2 12 13",
            "6 7 10 13",
        ],
    );
    let want = "an overlap, and a set of 5; 16 members";
    assert_classes::<F2>(&rt, alloc, OVERLAPPING, 4, sets, want)?;
    Ok(())
}

#[test]
fn each_line_is_in_a_part(rt: HostRuntime) -> Result<(), Fail> {
    let alloc = rt.alloc();
    let want = "parts 1 2 3 5 6 / 4 / 7; 3 members";
    assert_classes::<F2>(&rt, alloc, REPEATED, 1, ("1", &["2", "3"]), want)?;
    assert_classes::<F2>(
        &rt,
        alloc,
        NO_COORDINATE,
        0,
        ("", &[""]),
        "parts 1 / 2; 2 members",
    )?;
    assert_classes::<F2>(&rt, alloc, NO_LINE, 0, ("", &[""]), "parts ; 2 members")?;
    Ok(())
}
