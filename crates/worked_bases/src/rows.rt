//! Rows, lists of rows, and vectors that are added and multiplied.

ghost use Rattle.std.specs.Prelude.{◌≡◌, length};

use crate::asserting::assert_text;
use field_core::{Field, Row, Rows, axpy, is_zero, scale};
use small_fields::{F3, F5, F256};
use std::alloc::{AllocError, Global};
use std::process::Abort;
use std::test::Fail;
use worked_texts::{lines_of, shown, shown_rows};

/// The first vector with that multiple of the second added, as a slice.
fn slice_sum<F: Field>(alloc: Global, v: &[F], factor: F, w: &[F]) -> Result<String, AllocError>
    requires { length v.now ≡ length w.now }
{
    let mut row = Row::copy_of(alloc, v)?;
    axpy(row.as_mut_slice(), factor, w);
    shown(alloc, row.as_slice())
}

/// The same, as a row.
fn row_sum<F: Field>(alloc: Global, v: &[F], factor: F, w: &[F]) -> Result<String, AllocError>
    requires { length v.now ≡ length w.now }
{
    let mut row = Row::copy_of(alloc, v)?;
    row.add_multiple(factor, w);
    shown(alloc, row.as_slice())
}

/// That multiple of the vector, as a slice.
fn slice_multiple<F: Field>(alloc: Global, v: &[F], factor: F) -> Result<String, AllocError> {
    let mut row = Row::copy_of(alloc, v)?;
    scale(row.as_mut_slice(), factor);
    shown(alloc, row.as_slice())
}

/// The same, as a row.
fn row_multiple<F: Field>(alloc: Global, v: &[F], factor: F) -> Result<String, AllocError> {
    let mut row = Row::copy_of(alloc, v)?;
    row.multiply(factor);
    shown(alloc, row.as_slice())
}

/// Asserts what the first vector of a line is with that multiple of the second added, and multiplied itself.
fn assert_sums<F: Field>(
    rt: &impl Abort,
    alloc: Global,
    text: &str,
    number: u16,
    want: (&str, &str),
) -> Result<(), AllocError> {
    let problem = lines_of::<F>(alloc, text).expect(rt, "lines");
    assert!(rt; problem.len() == 1);
    let factor: F = F::from_number(number).expect(rt, "the number of a value");
    let (first, second) = (problem.first(0), problem.second(0));
    assert_text(
        rt,
        slice_sum(alloc, first, factor, second)?.as_str(),
        want.0,
    );
    assert_text(rt, row_sum(alloc, first, factor, second)?.as_str(), want.0);
    assert_text(rt, slice_multiple(alloc, first, factor)?.as_str(), want.1);
    assert_text(rt, row_multiple(alloc, first, factor)?.as_str(), want.1);
    Ok(())
}

#[test]
fn adds_and_multiplies_vectors(rt: HostRuntime) -> Result<(), Fail> {
    let five = "dimension 3\nlines 1\nline 1 2 4 | 3 4 1\n";
    assert_sums::<F5>(&rt, rt.alloc(), five, 3, ("0 4 2", "3 1 2"))?;
    let bytes = "dimension 3\nlines 1\nline 83 2 0 | 202 128 3\n";
    assert_sums::<F256>(&rt, rt.alloc(), bytes, 3, ("22 153 5", "245 6 0"))?;
    Ok(())
}

#[test]
fn tells_zero_vectors(rt: HostRuntime) {
    let vectors = lines_of::<F5>(rt.alloc(), "dimension 3\nlines 1\nline 0 0 0 | 0 0 4\n").expect(
        &rt, "lines",
    );
    assert!(rt; vectors.len() == 1);
    assert!(rt; is_zero(vectors.first(0)) && !is_zero(vectors.second(0)));
    assert!(rt; is_zero::<F5>(&[]));
}

/// The two vectors of a line as rows.
fn both<F: Field>(rt: &impl Abort, alloc: Global, text: &str) -> Result<Rows<F>, AllocError> {
    let problem = lines_of::<F>(alloc, text).expect(rt, "lines");
    assert!(rt; problem.len() == 1);
    let mut rows = Rows::new(alloc, problem.dimension());
    rows.push(problem.first(0))?;
    rows.push(problem.second(0))?;
    Ok(rows)
}

#[test]
fn keeps_rows(rt: HostRuntime) -> Result<(), Fail> {
    let rows = both::<F3>(&rt, rt.alloc(), "dimension 2\nlines 1\nline 1 2 | 0 1\n")?;
    assert!(rt; rows.len() == 2 && rows.width() == 2);
    assert_text(&rt, shown_rows(rt.alloc(), &rows)?.as_str(), "1 2 / 0 1");
    Ok(())
}
