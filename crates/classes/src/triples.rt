//! The turn of three lines of which two are akin to the third and not to each other.

ghost use Rattle.std.specs.Prelude.{◌≡◌, IfOk, length};
ghost use Rattle.linear_algebra.specs.Scalars.{IsField};
ghost use Rattle.classes.specs.ClassLabels.{IsTriple};
ghost use Rattle.classes.specs.Tables.{akin_at};
ghost use Rattle.classes.specs.Turns.{IsTurn, TellsTurned, size_of};

use crate::labels::Triple;
use crate::missed::{member_missing, missed_of, nonzero_of, separator_of};
use crate::outcome::Classes;
use crate::table::Table;
use crate::transit::{Shared, transit};
use crate::turned::Turned;
use families::Family;
use field_core::Field;
use matching_state::Matched;
use std::alloc::AllocError;

/// From a member that misses a vector of the middle line, toward one that separates the others: to a set that separates
/// the middle line and one of them.

pub fn triple_turn<F: Field>(
    family: &Family<'_, F>,
    table: &Table,
    triple: Triple,
) -> Result<Turned, AllocError>
    requires turn { (L : IsField F.scalars) → IsTurn F.scalars L family.now table.now }
    requires triple { IsTriple (length family.now.problem.lines) (akin_at table.now) triple }
    ensures { IfOk result (λ turned. (L : IsField F.scalars) → TellsTurned F.scalars L family.now.problem (size_of family.now) table.now turned) }
{
    let (alloc, problem) = (family.alloc(), family.problem());
    let (_members, _lines) = (family.len(), problem.len());
    let apart = family.member(separator_of(family, table, triple.first, triple.last));
    let state = Matched::started(alloc, problem, apart)?;
    let first = missed_of(&state, triple.first)?;
    let middle = nonzero_of(problem, triple.middle);
    let other = family.member(member_missing(family, middle)?);
    match transit(alloc, problem, other, middle, apart, first.as_slice())? {
        Shared::Larger(larger) => Ok(Turned::Ended(Classes::Larger(larger))),
        Shared::First(set) => Ok(Turned::Grown(set)),
        Shared::Second(set) => Ok(Turned::Grown(set)),
    }
}
