//! Where the spans of a family meet in zero: what the division of the lines into classes gives.

ghost use Rattle.std.specs.Prelude.{◌≡◌, suc, IfOk, length};
ghost use Rattle.classes.specs.Ends.{IsOverlapping};
ghost use Rattle.classes.specs.Partitions.{HasNoCommon};
ghost use Rattle.parity_lines.specs.LineSets.{IsIndependentSet};
ghost use Rattle.augment.specs.FirstSets.{first_of};
ghost use Rattle.augment.specs.Steps.{TellsStep};

use crate::Step;
use classes::{Classes, partition};
use families::Family;
use field_core::{Field, Rows};
use matching_state::Matched;
use overlap::{at, raise};
use parity_lines::{Certificate, LineSet};
use std::alloc::AllocError;

/// A set of one line more, by an overlap of two lines: a member that misses its point is raised.
fn raised<F: Field>(
    family: &Family<'_, F>,
    set: &LineSet,
    first: usize,
    second: usize,
) -> Result<LineSet, AllocError>
    requires none { HasNoCommon F.scalars family.now }
    requires overlapping { IsOverlapping F.scalars family.now.problem (length (first_of family.now)) set.now first second }
    ensures independent { IfOk result (IsIndependentSet F.scalars family.now.problem) }
    ensures longer { IfOk result (λ larger. length larger ≡ suc (length (first_of family.now))) }
{
    let (_members, _lines) = (family.len(), family.problem().len());
    let state = Matched::started(family.alloc(), family.problem(), set)?;
    let overlap = at(&state, first, second)?;
    match family.member_missing(overlap.point())? {
        Some(i) => raise(&overlap, family.member(i)),
        None => unreachable!(),
    }
}

/// A set of one line more than the first of the family, or a certificate that it is largest, by the classes of the
/// lines.
pub fn step_by_classes<F: Field>(family: &mut Family<'_, F>) -> Result<Step<F>, AllocError>
    requires { HasNoCommon F.scalars family.old }
    ensures { IfOk result (TellsStep F.scalars family.old.problem (first_of family.old)) }
{
    let (alloc, problem) = (family.alloc(), family.problem());
    let _members = family.len();
    match partition(family)? {
        Classes::Parts(parts) => Ok(Step::Best(Certificate {
            kernel: Rows::new(alloc, problem.dimension()),
            parts,
        })),
        Classes::Larger(set) => Ok(Step::Larger(set)),
        Classes::Overlapping { set, first, second } => {
            Ok(Step::Larger(raised(family, &set, first, second)?))
        }
    }
}
