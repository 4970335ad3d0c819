//! The search, which finds most answers: a walk over sets that shrinks the meeting of their spans, and certificates
//! that are guessed from the meeting.

ghost use Rattle.std.specs.Prelude.{◌≡◌, All, IfOk, IfSome, length};
ghost use Rattle.augment.specs.FirstSets.{KeepsFirst, first_of};
ghost use Rattle.augment.specs.Steps.{TellsStep};
ghost use Rattle.parity_lines.specs.LineSets.{IsIndependentSet};
ghost use Rattle.search.specs.Found.{IsAsLargeAs};

use crate::Step;
use families::Family;
use field_core::Field;
use matching_state::Matched;
use parity_lines::LineSet;
use search::{Found, search};
use std::alloc::AllocError;

/// Puts a set last, which is as long as the first one.
fn add<F: Field>(family: &mut Family<'_, F>, set: &LineSet) -> Result<(), AllocError>
    requires independent { IsIndependentSet F.scalars family.old.problem set.now }
    requires size { length set.now ≡ length (first_of family.old) }
    ensures { KeepsFirst family.old family.new }
{
    let _members = family.len();
    family.add(set)
}

/// Puts the sets last, which are as long as the first one.
pub fn add_all<F: Field>(family: &mut Family<'_, F>, sets: &[LineSet]) -> Result<(), AllocError>
    requires { All (IsAsLargeAs F.scalars family.old.problem (first_of family.old)) sets.now }
    ensures { KeepsFirst family.old family.new }
{
    for i in 0..sets.len() {
        add(family, &sets[i])?;
    }
    Ok(())
}

/// A step from the first set of the family, or nothing found. The family grows by sets that were visited.
pub fn searched<F: Field>(family: &mut Family<'_, F>) -> Result<Option<Step<F>>, AllocError>
    ensures keeps { KeepsFirst family.old family.new }
    ensures found { IfOk result (λ found. IfSome found (TellsStep F.scalars family.old.problem (first_of family.old))) }
{
    let _members = family.len();
    let state = Matched::started(family.alloc(), family.problem(), family.member(0))?;
    match search(state)? {
        Found::Larger(larger) => {
            let set = larger.set();
            Ok(Some(Step::Larger(set.copied()?)))
        }
        Found::Best(certificate) => Ok(Some(Step::Best(certificate))),
        Found::Sets(sets) => {
            add_all(family, sets.as_slice())?;
            Ok(None)
        }
    }
}
