//! The complete way: by induction on the dimension.

ghost use Rattle.std.specs.Prelude.{◌≡◌, IfOk, MatchOption, map};
ghost use Rattle.classes.specs.Partitions.{HasNoCommon};
ghost use Rattle.families.specs.Families.{IsFamily};
ghost use Rattle.parity_lines.specs.Problems.{IsProblem};
ghost use Rattle.augment.specs.Divided.{IsCommonPoint};
ghost use Rattle.augment.specs.FirstSets.{first_of};
ghost use Rattle.augment.specs.Steps.{TellsStep, TellsStepModulo};

use crate::Step;
use crate::modulo::{family_modulo, lifted, problem_modulo};
use crate::raising::step_by_classes;
use crate::searching::searched;
use families::Family;
use field_core::{Field, Row};
use quotients::Quotient;
use std::alloc::AllocError;

/// Whether each problem that the recursion comes to is searched first.
#[derive(Clone, Copy, Drop)]
pub enum Way {
    Searching,
    Plain,
}

/// A vector, but zero, that all members span.
fn common_point<F: Field>(family: &Family<'_, F>) -> Result<Option<Row<F>>, AllocError>
    ensures found { IfOk result (λ found. MatchOption found (HasNoCommon F.scalars family.now) (IsCommonPoint F.scalars family.now)) }
    ensures family { IsFamily F.scalars family.now }
    ensures problem { IsProblem F.scalars family.now.problem }
{
    let (_members, _lines) = (family.len(), family.problem().len());
    let basis = family.common().basis();
    if basis.len() == 0 {
        return Ok(None);
    }
    Ok(Some(Row::copy_of(family.alloc(), basis.row(0))?))
}

/// The step from the first set, modulo a point that all members span: a certificate is lifted; a set that is longer
/// there is as long here, and doesn't span the point.
#[cycle(recursion)]
fn step_modulo<F: Field>(
    family: &Family<'_, F>,
    point: &[F],
    way: Way,
) -> Result<Step<F>, AllocError>
    requires { IsCommonPoint F.scalars family.now (map F.number point.now) }
    ensures { IfOk result (TellsStepModulo F.scalars family.now.problem (map F.number point.now) (first_of family.now)) }
{
    let (alloc, problem) = (family.alloc(), family.problem());
    let (_lines, _members) = (problem.len(), family.len());
    let quotient = Quotient::quotient_by(alloc, point)?;
    let modulo = problem_modulo(alloc, problem, &quotient)?;
    let mut below = family_modulo(family, point, &modulo)?;
    match step_from(&mut below, way)? {
        Step::Larger(set) => Ok(Step::Larger(set)),
        Step::Best(certificate) => Ok(Step::Best(lifted(alloc, &quotient, point, certificate)?)),
    }
}

/// The step from the first set of the family. While the spans of its members meet in more than zero, a point of their
/// meeting gives a certificate or one more member, that doesn't span the point.
#[cycle(recursion)]
pub fn step_by_meeting<F: Field>(
    family: &mut Family<'_, F>,
    way: Way,
) -> Result<Step<F>, AllocError>
    ensures { IfOk result (TellsStep F.scalars family.old.problem (first_of family.old)) }
{
    let (_members, _lines) = (family.len(), family.problem().len());
    'points: loop {
        let Some(point) = common_point(family)? else {
            return step_by_classes(family);
        };
        match step_modulo(family, point.as_slice(), way)? {
            Step::Best(certificate) => return Ok(Step::Best(certificate)),
            Step::Larger(set) => family.add(&set)?,
        }
    }
}

/// The step from the first set of the family, whose other sets help to find it.
#[cycle(recursion)]
pub fn step_from<F: Field>(family: &mut Family<'_, F>, way: Way) -> Result<Step<F>, AllocError>
    ensures { IfOk result (TellsStep F.scalars family.old.problem (first_of family.old)) }
{
    let _members = family.len();
    if let Way::Searching = way {
        if let Some(step) = searched(family)? {
            return Ok(step);
        }
    }
    step_by_meeting(family, way)
}
