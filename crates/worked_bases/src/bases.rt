//! Bases that grow, and sets of lines that are independent or not.

ghost use Rattle.std.specs.Prelude.{◌≡◌, length};

use crate::asserting::assert_text;
use echelon::{Echelon, Inserted};
use field_core::Field;
use parity_lines::{Independence, Problem, is_independent, rank_over};
use small_fields::{F2, F5};
use std::alloc::{AllocError, Global};
use std::process::Abort;
use std::test::Fail;
use worked_texts::{answer_of, choice_of, lines_of, shown};

/// What the insertion of a vector tells: `new`, or its coefficients.
fn inserted<F: Field>(alloc: Global, basis: &mut Echelon<F>, v: &[F]) -> Result<String, AllocError>
    requires { length v.now ≡ basis.old.width }
{
    match basis.insert(v)? {
        Inserted::New => String::from_str(alloc, "new"),
        Inserted::Old(row) => shown(alloc, row.as_slice()),
    }
}

/// The residue of a vector.
fn reduced<F: Field>(alloc: Global, basis: &Echelon<F>, v: &[F]) -> Result<String, AllocError>
    requires { length v.now ≡ basis.now.width }
{
    let mut rest = Vec::from_slice(alloc, v)?;
    basis.reduce_in_place(&mut rest);
    shown(alloc, &rest)
}

/// Whether the basis spans a vector.
fn contained<F: Field>(alloc: Global, basis: &Echelon<F>, v: &[F]) -> Result<bool, AllocError>
    requires { length v.now ≡ basis.now.width }
{
    let mut scratch = Vec::from_slice(alloc, v)?;
    Ok(basis.contains_with(v, &mut scratch))
}

#[test]
fn takes_vectors_modulo_five(rt: HostRuntime) -> Result<(), Fail> {
    let alloc = rt.alloc();
    let text = "dimension 2\nlines 2\nline 1 2 | 2 4\nline 4 0 | 0 0\n";
    let vectors = lines_of::<F5>(alloc, text).expect(&rt, "lines");
    assert!(rt; vectors.dimension() == 2 && vectors.len() == 2);
    let mut basis = Echelon::new(alloc, 2)?;
    assert!(rt; matches!(&basis.insert(vectors.first(0))?, Inserted::New));
    assert!(rt; basis.rank() == 1);
    assert_text(
        &rt,
        reduced(alloc, &basis, vectors.first(1))?.as_str(),
        "0 2",
    );
    assert!(rt; contained(alloc, &basis, vectors.second(0))?);
    assert!(rt; !contained(alloc, &basis, vectors.first(1))?);
    assert_text(
        &rt,
        inserted(alloc, &mut basis, vectors.second(0))?.as_str(),
        "2",
    );
    Ok(())
}

#[test]
fn truncated_basis_is_empty(rt: HostRuntime) -> Result<(), Fail> {
    let alloc = rt.alloc();
    let vectors = lines_of::<F5>(alloc, "dimension 2\nlines 1\nline 1 2 | 2 4\n").expect(
        &rt, "lines",
    );
    assert!(rt; vectors.dimension() == 2 && vectors.len() == 1);
    let mut basis = Echelon::new(alloc, 2)?;
    assert!(rt; matches!(&basis.insert(vectors.first(0))?, Inserted::New));
    basis.truncate(0);
    assert!(rt; basis.rank() == 0);
    Ok(())
}

/// What is told of a chosen set: that it is independent, or a relation of its vectors.
fn independence<F: Field>(
    rt: &impl Abort,
    alloc: Global,
    problem: &Problem<F>,
    chosen: &str,
) -> Result<String, AllocError> {
    match is_independent(
        alloc,
        problem,
        &choice_of(alloc, problem, chosen).expect(rt, "a choice"),
    )? {
        Independence::Independent => String::from_str(alloc, "independent"),
        Independence::Relation(row) => shown(alloc, row.as_slice()),
    }
}

/// The rank that the set of an answer has over its kernel.
fn rank_of_set<F: Field>(
    rt: &impl Abort,
    alloc: Global,
    problem: &Problem<F>,
    text: &str,
) -> Result<usize, AllocError> {
    let point = answer_of(alloc, problem, text).expect(rt, "an answer");
    rank_over(alloc, problem, &point.certificate.kernel, &point.set)
}

const STAR: &str =
    "dimension 4\nlines 3\nline 1 0 0 0 | 0 1 0 0\nline 1 0 0 0 | 0 0 1 0\nline 1 0 0 0 | 0 0 0 1\n";

const POINT: &str = "answer 1\nsize 3\nset 1 2 3\nkernel 1\nvector 1 0 0 0\nparts 0\nend\n";

#[test]
fn lines_through_a_point_are_dependent(rt: HostRuntime) -> Result<(), Fail> {
    let alloc = rt.alloc();
    let star = lines_of::<F2>(alloc, STAR).expect(&rt, "lines");
    let one = independence(&rt, alloc, &star, "choice 1\nsize 1\nset 2\nend\n")?;
    assert_text(&rt, one.as_str(), "independent");
    let two = independence(&rt, alloc, &star, "choice 1\nsize 2\nset 1 2\nend\n")?;
    assert_text(&rt, two.as_str(), "1 0 1 0");
    assert!(rt; rank_of_set(&rt, alloc, &star, POINT)? == 3);
    Ok(())
}
