//! The verdict.

ghost use Rattle.std.specs.Prelude.{◌≡◌, ◌<◌, ◌≤◌, ◌↔◌, All, IfOk, length};
ghost use Rattle.parity_lines.specs.LineSets.{IsLargest};
ghost use Rattle.parity_lines.specs.Certificates.{IsGoodAnswer, halves_over};
ghost use Rattle.parity_lines.specs.Problems.{vectors_at};
ghost use Rattle.linear_algebra.specs.Vectors.{AreVectors};
ghost use Rattle.linear_algebra.specs.Spans.{IsIndependent};
ghost use Rattle.cert_check.specs.Judged.{IsJudged};
ghost use Rattle.cert_check.specs.Verdicts.{IsCovered, IsDisjoint, IsFaultIn, IsVerdictOn};

use crate::Verdict;
use crate::counts::{count_parts, first_with};
use echelon::{Echelon, basis_of};
use field_core::Field;
use parity_lines::{Answer, Independence, Parts, Problem, added_rank, is_independent};
use std::alloc::{AllocError, Global};

/// What is wrong with the parts: the least position that stands in none, or else the least that stands in two.
fn parts_fault<F: Field>(
    alloc: Global,
    problem: &Problem<F>,
    parts: &Parts,
) -> Result<Option<Verdict>, AllocError>
    requires { All (λ part. All (λ m. m < length problem.now.lines) part) parts.now }
    ensures { IfOk result (IsFaultIn problem.now parts.now) }
{
    let counts = count_parts(alloc, problem.len(), parts)?;
    if let Some(line) = first_with(&counts, 0) {
        return Ok(Some(Verdict::PartsMissing(line)));
    }
    if let Some(line) = first_with(&counts, 2) {
        return Ok(Some(Verdict::PartsTwice(line)));
    }
    Ok(None)
}

/// The sum of half the ranks that the parts add to the basis, each rounded down. The basis is left as it was.
fn halves<F: Field>(
    basis: &mut Echelon<F>,
    problem: &Problem<F>,
    parts: &Parts,
) -> Result<usize, AllocError>
    requires width { basis.old.width ≡ problem.now.dimension }
    requires vectors { AreVectors F.scalars problem.now.dimension basis.old.rows }
    requires within { All (λ part. All (λ m. m < length problem.now.lines) part) parts.now }
    requires disjoint { IsDisjoint problem.now parts.now }
    ensures same { basis.new ≡ basis.old }
    ensures sum { IfOk result (λ h. h ≡ halves_over F.scalars problem.now basis.old.rows parts.now) }
    ensures few { IfOk result (λ h. h ≤ length problem.now.lines) }
{
    let _lines = problem.len();
    let mut total = 0;
    for i in 0..parts.len() {
        total += added_rank(basis, problem, parts.at(i))? / 2;
    }
    Ok(total)
}

/// The verdict by the bound, where nothing before it is wrong.
fn verdict_by_bound<F: Field>(
    mut basis: Echelon<F>,
    problem: &Problem<F>,
    answer: &Answer<F>,
) -> Result<Verdict, AllocError>
    requires judged { IsJudged F.scalars problem.now answer.now.set answer.now.certificate.kernel answer.now.certificate.parts basis }
    requires covered { IsCovered problem.now answer.now.certificate.parts }
    requires disjoint { IsDisjoint problem.now answer.now.certificate.parts }
    ensures { IfOk result (IsVerdictOn F.scalars problem.now answer.now.set answer.now.certificate.kernel answer.now.certificate.parts) }
{
    let certificate = &answer.certificate;
    let _lines = problem.len();
    let _parts = certificate.parts.len();
    let halves = halves(&mut basis, problem, &certificate.parts)?;
    let bound = certificate.kernel.len() + halves;
    let size = answer.set.len();
    if bound == size {
        Ok(Verdict::Yes)
    } else {
        Ok(Verdict::BoundOff { size, bound })
    }
}

/// The verdict by the parts and the bound, where the set and the kernel are independent.
fn verdict_by_parts<F: Field>(
    alloc: Global,
    basis: Echelon<F>,
    problem: &Problem<F>,
    answer: &Answer<F>,
) -> Result<Verdict, AllocError>
    requires { IsJudged F.scalars problem.now answer.now.set answer.now.certificate.kernel answer.now.certificate.parts basis }
    ensures { IfOk result (IsVerdictOn F.scalars problem.now answer.now.set answer.now.certificate.kernel answer.now.certificate.parts) }
{
    match parts_fault(alloc, problem, &answer.certificate.parts)? {
        Some(fault) => Ok(fault),
        None => verdict_by_bound(basis, problem, answer),
    }
}

/// The verdict by the certificate, where the set is independent.
fn verdict_by_certificate<F: Field>(
    alloc: Global,
    problem: &Problem<F>,
    answer: &Answer<F>,
) -> Result<Verdict, AllocError>
    requires set { All (λ m. m < length problem.now.lines) answer.now.set }
    requires parts { All (λ part. All (λ m. m < length problem.now.lines) part) answer.now.certificate.parts }
    requires width { answer.now.certificate.kernel.width ≡ problem.now.dimension }
    requires independent { IsIndependent F.scalars problem.now.dimension (vectors_at problem.now answer.now.set) }
    ensures { IfOk result (IsVerdictOn F.scalars problem.now answer.now.set answer.now.certificate.kernel answer.now.certificate.parts) }
{
    let kernel = &answer.certificate.kernel;
    let basis = basis_of(alloc, kernel)?;
    if basis.rank() < kernel.len() {
        return Ok(Verdict::KernelDependent);
    }
    verdict_by_parts(alloc, basis, problem, answer)
}

/// The verdict on an answer to a problem. `Yes` comes exactly where the answer is good, and its set is then
/// largest; otherwise the first reason that applies is answered, in the order of [`Verdict`].
pub fn verdict<F: Field>(
    alloc: Global,
    problem: &Problem<F>,
    answer: &Answer<F>,
) -> Result<Verdict, AllocError>
    requires set { All (λ m. m < length problem.now.lines) answer.now.set }
    requires parts { All (λ part. All (λ m. m < length problem.now.lines) part) answer.now.certificate.parts }
    requires width { answer.now.certificate.kernel.width ≡ problem.now.dimension }
    ensures tells { IfOk result (IsVerdictOn F.scalars problem.now answer.now.set answer.now.certificate.kernel answer.now.certificate.parts) }
    ensures yes { IfOk result (λ v. (v ≡ Verdict.Yes) ↔ IsGoodAnswer F.scalars problem.now answer.now.set answer.now.certificate.kernel answer.now.certificate.parts) }
    ensures largest { IfOk result (λ v. v ≡ Verdict.Yes → IsLargest F.scalars problem.now answer.now.set) }
{
    let _lines = problem.len();
    let found = is_independent(alloc, problem, &answer.set)?;
    if let Independence::Relation(_) = found {
        return Ok(Verdict::Dependent);
    }
    verdict_by_certificate(alloc, problem, answer)
}
