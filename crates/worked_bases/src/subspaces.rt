//! Spans, meetings and sums of subspaces, and the division by a point.

ghost use Rattle.std.specs.Prelude.{◌≡◌, ◌≤◌, IfOk, length};

use crate::asserting::assert_text;
use field_core::{Field, Rows, is_zero};
use parity_lines::Problem;
use quotients::{Quotient, Subspace};
use small_fields::{F2, F3, F5, F256};
use std::alloc::{AllocError, Global};
use std::process::Abort;
use std::test::Fail;
use worked_texts::{lines_of, shown, shown_rows};

/// The span of the vectors of the lines from one position up to another.
fn span<F: Field>(
    rt: &impl Abort,
    alloc: Global,
    problem: &Problem<F>,
    from: usize,
    to: usize,
) -> Result<Subspace<F>, AllocError>
    ensures { IfOk result (λ s. s.width ≡ problem.now.dimension) }
{
    assert!(rt; to <= problem.len());
    let mut vectors = Rows::new(alloc, problem.dimension());
    for line in from..to {
        assert!(rt; vectors.width() == problem.dimension());
        vectors.push(problem.first(line))?;
        vectors.push(problem.second(line))?;
    }
    assert!(rt; vectors.width() == problem.dimension());
    Subspace::spanned(alloc, problem.dimension(), &vectors)
}

/// Asserts what the reduced basis of a subspace is.
fn assert_basis<F: Field>(
    rt: &impl Abort,
    alloc: Global,
    space: &Subspace<F>,
    want: &str,
) -> Result<(), AllocError> {
    assert_text(rt, shown_rows(alloc, space.basis())?.as_str(), want);
    assert!(rt; space.rank() == space.basis().len());
    Ok(())
}

/// Asserts what the meeting and the sum of the spans of the two lines of a text are.
fn assert_meet<F: Field>(
    rt: &impl Abort,
    alloc: Global,
    text: &str,
    meeting: &str,
    sum: &str,
) -> Result<(), AllocError> {
    let problem = lines_of::<F>(alloc, text).expect(rt, "lines");
    let first = span(rt, alloc, &problem, 0, 1)?;
    let second = span(rt, alloc, &problem, 1, 2)?;
    assert_basis(rt, alloc, &first.intersect(&second)?, meeting)?;
    assert_basis(rt, alloc, &first.sum(&second)?, sum)
}

/// Whether the span of lines has the two vectors of a line.
fn contained<F: Field>(
    rt: &impl Abort,
    alloc: Global,
    problem: &Problem<F>,
    span_to: usize,
    line: usize,
) -> Result<(bool, bool), AllocError> {
    let space = span(rt, alloc, problem, 0, span_to)?;
    assert!(rt; line < problem.len() && space.dimension() == problem.dimension());
    Ok((
        space.contains(problem.first(line))?,
        space.contains(problem.second(line))?,
    ))
}

/// Asserts whether the span of the first lines has the two vectors of a line.
fn assert_contained<F: Field>(
    rt: &impl Abort,
    alloc: Global,
    text: &str,
    lines_to: (usize, usize),
    want: (bool, bool),
) -> Result<(), AllocError> {
    let problem = lines_of::<F>(alloc, text).expect(rt, "lines");
    assert!(rt; contained(rt, alloc, &problem, lines_to.0, lines_to.1)? == want);
    Ok(())
}

const PLANES: &str = "dimension 3\nlines 2\nline 1 0 0 | 0 1 0\nline 0 1 0 | 0 0 1\n";

#[test]
fn planes_of_axes_meet_in_an_axis(rt: HostRuntime) -> Result<(), Fail> {
    let (alloc, whole) = (rt.alloc(), "1 0 0 / 0 1 0 / 0 0 1");
    assert_meet::<F2>(&rt, alloc, PLANES, "0 1 0", whole)?;
    assert_meet::<F256>(&rt, alloc, PLANES, "0 1 0", whole)?;
    assert_contained::<F2>(&rt, alloc, PLANES, (1, 1), (true, false))?;
    Ok(())
}

const SKEW: &str = "dimension 4\nlines 2\nline 1 2 0 1 | 0 0 1 3\nline 1 2 2 2 | 0 1 0 0\n";

const TWICE: &str = "dimension 4\nlines 2\nline 1 2 0 1 | 0 0 1 3\nline 1 2 0 1 | 0 0 1 3\n";

#[test]
fn planes_meet_outside_of_the_axes(rt: HostRuntime) -> Result<(), Fail> {
    let alloc = rt.alloc();
    let sum = "1 0 0 1 / 0 1 0 0 / 0 0 1 3";
    assert_meet::<F5>(&rt, alloc, SKEW, "1 2 2 2", sum)?;
    let plane = "1 2 0 1 / 0 0 1 3";
    assert_meet::<F5>(&rt, alloc, TWICE, plane, plane)?;
    assert_meet::<F5>(&rt, alloc, "dimension 0\nlines 2\nline |\nline |\n", "", "")?;
    Ok(())
}

/// Asserts what the reduced basis of the span of the first lines is.
fn assert_span<F: Field>(
    rt: &impl Abort,
    alloc: Global,
    text: &str,
    count: usize,
    want: &str,
) -> Result<(), AllocError> {
    let problem = lines_of::<F>(alloc, text).expect(rt, "lines");
    let space = span(rt, alloc, &problem, 0, count)?;
    assert_basis(rt, alloc, &space, want)
}

const VECTORS: &str =
    "dimension 4\nlines 3\nline 0 2 4 1 | 1 1 1 1\nline 2 2 2 2 | 0 0 0 0\nline 1 0 0 0 | 0 0 0 0\n";

#[test]
fn spans_are_reduced(rt: HostRuntime) -> Result<(), Fail> {
    let alloc = rt.alloc();
    assert_span::<F5>(&rt, alloc, VECTORS, 2, "1 0 4 3 / 0 1 2 3")?;
    assert_contained::<F5>(&rt, alloc, VECTORS, (2, 0), (true, true))?;
    assert_contained::<F5>(&rt, alloc, VECTORS, (2, 2), (false, true))?;
    assert_span::<F5>(&rt, alloc, VECTORS, 0, "")?;
    assert_contained::<F5>(&rt, alloc, VECTORS, (0, 1), (false, true))?;
    Ok(())
}

/// The vector modulo the point.
fn projected<F: Field>(
    rt: &impl Abort,
    alloc: Global,
    point: &[F],
    v: &[F],
) -> Result<String, AllocError> {
    assert!(rt; !is_zero(point));
    let quotient = Quotient::quotient_by(alloc, point)?;
    assert!(rt; v.len() == point.len());
    shown(alloc, quotient.project(v)?.as_slice())
}

/// The vector whose projection modulo the point is the shorter one.
fn lifted<F: Field>(
    rt: &impl Abort,
    alloc: Global,
    point: &[F],
    w: &[F],
) -> Result<String, AllocError> {
    assert!(rt; !is_zero(point));
    let quotient = Quotient::quotient_by(alloc, point)?;
    assert!(rt; w.len() < point.len() && w.len() + 1 == point.len());
    shown(alloc, quotient.lift(w)?.as_slice())
}

/// Asserts what the vector modulo the point is.
fn assert_projected<F: Field>(
    rt: &impl Abort,
    alloc: Global,
    point: &[F],
    v: &[F],
    want: &str,
) -> Result<(), AllocError> {
    assert_text(rt, projected(rt, alloc, point, v)?.as_str(), want);
    Ok(())
}

/// Asserts what the vector is whose projection modulo the point is the shorter one.
fn assert_lifted<F: Field>(
    rt: &impl Abort,
    alloc: Global,
    point: &[F],
    w: &[F],
    want: &str,
) -> Result<(), AllocError> {
    assert_text(rt, lifted(rt, alloc, point, w)?.as_str(), want);
    Ok(())
}

#[test]
fn vectors_are_divided_by_a_point(rt: HostRuntime) -> Result<(), Fail> {
    let alloc = rt.alloc();
    let whole = lines_of::<F3>(alloc, "dimension 3\nlines 1\nline 0 2 1 | 1 1 1\n").expect(
        &rt, "lines",
    );
    let shorter = lines_of::<F3>(alloc, "dimension 2\nlines 1\nline 1 2 | 0 0\n").expect(
        &rt, "lines",
    );
    assert!(rt; whole.len() == 1 && shorter.len() == 1);
    let point = whole.first(0);
    assert_projected(&rt, alloc, point, whole.second(0), "1 2")?;
    assert_projected(&rt, alloc, point, point, "0 0")?;
    assert_lifted(&rt, alloc, point, shorter.first(0), "1 0 2")?;
    assert_lifted(&rt, alloc, point, shorter.second(0), "0 0 0")?;
    Ok(())
}
