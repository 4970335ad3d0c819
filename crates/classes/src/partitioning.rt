//! The partition of the lines by a family: turn after turn, each of which ends the call or lets the family grow.

ghost use Rattle.std.specs.Prelude.{◌≡◌, IfOk};
ghost use Rattle.families.specs.Families.{IsFamily};
ghost use Rattle.linear_algebra.specs.Scalars.{IsField};
ghost use Rattle.classes.specs.Partitions.{HasGrown, HasNoCommon, TellsClasses};
ghost use Rattle.classes.specs.Turns.{IsTurn, TellsTurned, size_of};

use crate::growing::{grow, take_members};
use crate::labels::{Labelling, labels_of};
use crate::large::class_turn;
use crate::outcome::Classes;
use crate::table::Table;
use crate::triples::triple_turn;
use crate::turned::Turned;
use families::Family;
use field_core::Field;
use std::alloc::AllocError;

/// One turn: three lines that show that there are no classes, or the classes.
fn turn<F: Field>(family: &Family<'_, F>, table: &Table) -> Result<Turned, AllocError>
    requires { (L : IsField F.scalars) → IsTurn F.scalars L family.now table.now }
    ensures { IfOk result (λ turned. (L : IsField F.scalars) → TellsTurned F.scalars L family.now.problem (size_of family.now) table.now turned) }
{
    let (_members, _lines) = (family.len(), family.problem().len());
    match labels_of(table)? {
        Labelling::Violated(triple) => triple_turn(family, table, triple),
        Labelling::Exact(labels) => class_turn(family, table, &labels),
    }
}

/// Turns, up to one that ends the call. Each other one adds a member that separates two lines that none separated
/// before.
fn turns<F: Field>(family: &mut Family<'_, F>, table: &mut Table) -> Result<Classes, AllocError>
    requires { (L : IsField F.scalars) → IsTurn F.scalars L family.old table.old }
    ensures grows { HasGrown F.scalars family.old family.new }
    ensures told { IfOk result (TellsClasses F.scalars family.old.problem (size_of family.old)) }
{
    let _members = family.len();
    loop {
        match turn(family, table)? {
            Turned::Ended(classes) => return Ok(classes),
            Turned::Grown(set) => {
                if let Some(larger) = grow(family, table, &set)? {
                    return Ok(Classes::Larger(larger));
                }
            }
        }
    }
}

/// What a family of independent sets of k lines, with no vector but zero in all their spans, tells of the lines: parts
/// that hold each line once and whose halves of ranks add up to k, an independent set of k + 1 lines, or an overlap.
/// The family may grow by sets of k lines, behind its members, also where memory runs out.
///
/// Lines that no member separates are akin. Each turn ends the call or adds a member that separates two lines that
/// were akin, so it ends.
pub fn partition<F: Field>(family: &mut Family<'_, F>) -> Result<Classes, AllocError>
    requires { HasNoCommon F.scalars family.old }
    ensures grows { HasGrown F.scalars family.old family.new }
    ensures told { IfOk result (λ classes. (f : IsFamily F.scalars family.old) → TellsClasses F.scalars family.old.problem f.size classes) }
{
    let _members = family.len();
    let mut table = Table::new(family.alloc(), family.problem())?;
    match take_members(&mut table, family)? {
        Some(larger) => Ok(Classes::Larger(larger)),
        None => turns(family, &mut table),
    }
}
