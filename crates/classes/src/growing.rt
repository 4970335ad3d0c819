//! The table of a family, up to date with its members.

ghost use Rattle.std.specs.Prelude.{◌≡◌, ◌+◌, ◌<◌, [], IfOk, MatchOption, length, suc, take};
ghost use Rattle.class_theory.proofs.PairCounts.{pairs_below};
ghost use Rattle.linear_algebra.specs.Scalars.{IsField};
ghost use Rattle.linear_algebra.proofs.Coordinates.{space};
ghost use Rattle.parity_lines.proofs.Border.{tuples_at};
ghost use Rattle.parity_theory.proofs.Lines.{IsFree};
ghost use Rattle.classes.specs.Ends.{IsSetOf};
ghost use Rattle.classes.specs.Partitions.{HasGrown, HasNoCommon};
ghost use Rattle.classes.specs.Tables.{IsTableOf, akin_at};
ghost use Rattle.classes.specs.Turns.{IsGrowth, IsTurn, size_of};

use crate::direction::{Outlook, directions};
use crate::table::Table;
use families::Family;
use field_core::Field;
use matching_state::Matched;
use parity_lines::LineSet;
use std::alloc::AllocError;

/// The set with a line that is free.
fn with_free<F: Field>(state: &Matched<'_, F>, line: usize) -> Result<LineSet, AllocError>
    requires within { line < length state.now.problem.lines }
    requires free { (L : IsField F.scalars) → IsFree (space F.scalars L state.now.problem.dimension) (tuples_at F.scalars L state.now.problem) state.now.set line }
    ensures { IfOk result (IsSetOf F.scalars state.now.problem (suc (length state.now.set))) }
{
    let _lines = state.problem().len();
    state.set().with(line)
}

/// Takes the member into the table, which is of those before it, or finds a set that is one line longer.
fn take_member<F: Field>(
    table: &mut Table,
    family: &Family<'_, F>,
    member: usize,
) -> Result<Option<LineSet>, AllocError>
    requires member { member < length family.now.sets }
    requires table { (L : IsField F.scalars) → IsTableOf F.scalars L family.now.problem (take member family.now.sets) table.old }
    ensures { IfOk result (λ found. MatchOption found
        ((L : IsField F.scalars) → IsTableOf F.scalars L family.now.problem (take (member + 1) family.now.sets) table.new)
        (IsSetOf F.scalars family.now.problem (suc (size_of family.now)))) }
{
    let _members = family.len();
    let state = Matched::started(family.alloc(), family.problem(), family.member(member))?;
    match directions(&state)? {
        Outlook::Free(line) => Ok(Some(with_free(&state, line)?)),
        Outlook::Directions(directions) => {
            *table = table.with_member(family, member, &directions)?;
            Ok(None)
        }
    }
}

/// Takes all members into the table, which is of none, or finds a set that is one line longer.
pub fn take_members<F: Field>(
    table: &mut Table,
    family: &Family<'_, F>,
) -> Result<Option<LineSet>, AllocError>
    requires table { (L : IsField F.scalars) → IsTableOf F.scalars L family.now.problem [] table.old }
    ensures { IfOk result (λ found. MatchOption found
        ((L : IsField F.scalars) → IsTableOf F.scalars L family.now.problem family.now.sets table.new)
        (IsSetOf F.scalars family.now.problem (suc (size_of family.now)))) }
{
    for member in 0..family.len() {
        if let Some(larger) = take_member(table, family, member)? {
            return Ok(Some(larger));
        }
    }
    Ok(None)
}

/// Adds a set to the family and its table, which has fewer akin pairs then, or finds a set that is one line longer.
pub fn grow<F: Field>(
    family: &mut Family<'_, F>,
    table: &mut Table,
    set: &LineSet,
) -> Result<Option<LineSet>, AllocError>
    requires turn { (L : IsField F.scalars) → IsTurn F.scalars L family.old table.old }
    requires growth { (L : IsField F.scalars) → IsGrowth F.scalars L family.old.problem (size_of family.old) table.old set.now }
    ensures grows { HasGrown F.scalars family.old family.new }
    ensures found { IfOk result (λ found. MatchOption found
        (((L : IsField F.scalars) → IsTurn F.scalars L family.new table.new)
        × (pairs_below (length family.old.problem.lines) (akin_at table.new) < pairs_below (length family.old.problem.lines) (akin_at table.old)))
        (IsSetOf F.scalars family.old.problem (suc (size_of family.old)))) }
{
    let (member, _lines) = (family.len(), family.problem().len());
    family.add(set)?;
    take_member(table, family, member)
}
