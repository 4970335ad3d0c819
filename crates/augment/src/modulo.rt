//! Problems and sets modulo a point, and certificates that are lifted from there.

ghost use Rattle.std.specs.Prelude.{◌≡◌, ◌≢◌, ◌*◌, ℕ, suc, IfOk, MatchOption, length, map};
ghost use Rattle.linear_algebra.specs.Vectors.{IsVector, zero_vector};
ghost use Rattle.parity_lines.specs.LineSets.{IsIndependentSet};
ghost use Rattle.parity_lines.specs.Problems.{ParityProblem};
ghost use Rattle.matching_state.specs.Supports.{HasComponent};
ghost use Rattle.families.specs.Families.{Spans};
ghost use Rattle.augment.specs.Divided.{IsCommonPoint, IsFamilyBelow, IsLiftedFrom, IsLiftedUpTo, IsModulo, IsShortened};
ghost use Rattle.augment.specs.FirstSets.{first_of};

use families::Family;
use field_core::{Field, Rows, is_zero};
use matching_state::Matched;
use parity_lines::{Certificate, LineSet, Problem};
use quotients::Quotient;
use std::alloc::{AllocError, Global};

/// The problem modulo the point: both vectors of each line are projected.
pub fn problem_modulo<F: Field>(
    alloc: Global,
    problem: &Problem<F>,
    quotient: &Quotient<F>,
) -> Result<Problem<F>, AllocError>
    requires vector { IsVector F.scalars problem.now.dimension quotient.now }
    requires not_zero { quotient.now ≢ zero_vector F.scalars problem.now.dimension }
    ensures { IfOk result (IsModulo F.scalars quotient.now problem.now) }
{
    let mut modulo = Problem::new(alloc, problem.dimension() - 1);
    for line in 0..problem.len() {
        let first = quotient.project(problem.first(line))?;
        let second = quotient.project(problem.second(line))?;
        modulo.push(first.as_slice(), second.as_slice())?;
    }
    Ok(modulo)
}

/// The point, and the kernel's vectors lifted.
fn lifted_rows<F: Field>(
    alloc: Global,
    quotient: &Quotient<F>,
    point: &[F],
    kernel: &Rows<F>,
) -> Result<Rows<F>, AllocError>
    requires point { map F.number point.now ≡ quotient.now }
    requires width { suc kernel.now.width ≡ length quotient.now }
    ensures { IfOk result (IsLiftedUpTo F.scalars quotient.now kernel.now (length kernel.now.rows)) }
{
    let mut above = Rows::new(alloc, point.len());
    above.push(point)?;
    for i in 0..kernel.len() {
        let row = quotient.lift(kernel.row(i))?;
        above.push(row.as_slice())?;
    }
    Ok(above)
}

/// The certificate of a problem modulo the point, lifted: its kernel's vectors, and the point before them.
pub fn lifted<F: Field>(
    alloc: Global,
    quotient: &Quotient<F>,
    point: &[F],
    certificate: Certificate<F>,
) -> Result<Certificate<F>, AllocError>
    requires point { map F.number point.now ≡ quotient.now }
    requires width { suc certificate.kernel.width ≡ length quotient.now }
    requires not_zero { quotient.now ≢ zero_vector F.scalars (length quotient.now) }
    ensures { IfOk result (IsLiftedFrom F.scalars quotient.now certificate) }
{
    Ok(Certificate {
        kernel: lifted_rows(alloc, quotient, point, &certificate.kernel)?,
        parts: certificate.parts,
    })
}

/// The first line of the set at which the coordinates, two a line, aren't both zero.
fn component_line<F: Field>(set: &LineSet, coordinates: &[F]) -> Option<usize>
    requires { length coordinates.now ≡ 2 * length set.now }
    ensures { MatchOption result
        ((m : ℕ) → ¬ (HasComponent F.scalars set.now (map F.number coordinates.now) m))
        (HasComponent F.scalars set.now (map F.number coordinates.now)) }
{
    for i in 0..set.len() {
        if !is_zero(&coordinates[2 * i..2 * i + 2]) {
            return Some(set.at(i));
        }
    }
    None
}

/// The set, which spans the point, without a line at which the point has a component.
fn shortened<F: Field>(
    alloc: Global,
    problem: &Problem<F>,
    set: &LineSet,
    point: &[F],
) -> Result<LineSet, AllocError>
    requires independent { IsIndependentSet F.scalars problem.now set.now }
    requires vector { IsVector F.scalars problem.now.dimension (map F.number point.now) }
    requires not_zero { map F.number point.now ≢ zero_vector F.scalars problem.now.dimension }
    requires spanned { Spans F.scalars problem.now (map F.number point.now) set.now }
    ensures { IfOk result (λ rest. (q : ParityProblem) → IsModulo F.scalars (map F.number point.now) problem.now q
        → IsShortened F.scalars q set.now rest) }
{
    let _lines = problem.len();
    let state = Matched::started(alloc, problem, set)?;
    let Some(coordinates) = state.coordinates(point)? else {
        unreachable!();
    };
    match component_line(set, coordinates.as_slice()) {
        Some(line) => set.without(line),
        None => unreachable!(),
    }
}

/// The sets of the family modulo a point that all of them span: each without a line.
pub fn family_modulo<'a, F: Field>(
    family: &Family<'_, F>,
    point: &[F],
    modulo: &'a Problem<F>,
) -> Result<Family<'a, F>, AllocError>
    requires point { IsCommonPoint F.scalars family.now (map F.number point.now) }
    requires modulo { IsModulo F.scalars (map F.number point.now) family.now.problem modulo.now }
    ensures { IfOk result (IsFamilyBelow F.scalars modulo.now (first_of family.now)) }
{
    let (alloc, problem) = (family.alloc(), family.problem());
    let members = family.len();
    let first = shortened(alloc, problem, family.member(0), point)?;
    let mut below = Family::new(alloc, modulo, &first)?;
    for i in 1..members {
        let set = shortened(alloc, problem, family.member(i), point)?;
        below.add(&set)?;
    }
    Ok(below)
}
