//! Augmentation of an independent set.

ghost use Rattle.std.specs.Prelude.{IfOk};
ghost use Rattle.parity_lines.specs.LineSets.{IsIndependentSet};
ghost use Rattle.augment.specs.Steps.{TellsStep};

use crate::Step;
use crate::recursion::{Way, step_from};
use families::Family;
use field_core::Field;
use parity_lines::{LineSet, Problem};
use std::alloc::{AllocError, Global};

/// An independent set of exactly one line more than this one, or a certificate that makes a good answer with it, so
/// that no independent set is longer ([`parity_lines::good_answer_is_largest`]).
pub fn augment<F: Field>(
    alloc: Global,
    problem: &Problem<F>,
    set: &LineSet,
) -> Result<Step<F>, AllocError>
    requires { IsIndependentSet F.scalars problem.now set.now }
    ensures { IfOk result (TellsStep F.scalars problem.now set.now) }
{
    let mut family = Family::new(alloc, problem, set)?;
    step_from(&mut family, Way::Searching)
}

/// As [`augment`], by the recursion alone.
pub fn augment_by_recursion<F: Field>(
    alloc: Global,
    problem: &Problem<F>,
    set: &LineSet,
) -> Result<Step<F>, AllocError>
    requires { IsIndependentSet F.scalars problem.now set.now }
    ensures { IfOk result (TellsStep F.scalars problem.now set.now) }
{
    let mut family = Family::new(alloc, problem, set)?;
    step_from(&mut family, Way::Plain)
}
