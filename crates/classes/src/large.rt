//! The turn of a class that is too large for a member.

ghost use Rattle.std.specs.Prelude.{◌≡◌, ◌≢◌, ◌<◌, [], ◌∷◌, IfOk, length, map, slice_index_or};
ghost use Rattle.linear_algebra.specs.Scalars.{IsField};
ghost use Rattle.linear_algebra.specs.Vectors.{zero_vector};
ghost use Rattle.matching_state.specs.Missing.{Misses};
ghost use Rattle.classes.specs.Divisions.{IsLargeClass};
ghost use Rattle.classes.specs.Ends.{IsSetOf};
ghost use Rattle.classes.specs.Lasting.{IsLasting};
ghost use Rattle.classes.specs.Missed.{AreSeparated, IsNonzeroOf};
ghost use Rattle.classes.specs.Partitions.{TellsClasses};
ghost use Rattle.classes.specs.Tables.{akin_at};
ghost use Rattle.classes.specs.Turns.{AreClasses, AreOfClass, IsCrossing, IsSplit, IsTurn, TellsTurned, size_of};

use crate::circuits::circuits;
use crate::crossing::{Crossing, missing_both};
use crate::division::{Division, division_of};
use crate::ended::Ended;
use crate::lasting::last_exchanges;
use crate::missed::{member_missing, missed_of, nonzero_of, separator_of};
use crate::outcome::Classes;
use crate::pacing::{Walked, reach};
use crate::spreads::{Spread, spread_of};
use crate::table::Table;
use crate::turned::Turned;
use families::Family;
use field_core::Field;
use matching_state::Matched;
use parity_lines::LineSet;
use std::alloc::AllocError;

/// The end of the call, where a line has one in its support that isn't akin to it: circuits toward the member that
/// separates the two.
fn split_end<F: Field>(
    family: &Family<'_, F>,
    table: &Table,
    state: &mut Matched<'_, F>,
    line: usize,
    other: usize,
) -> Result<Classes, AllocError>
    requires turn { (L : IsField F.scalars) → IsTurn F.scalars L family.now table.now }
    requires problem { state.old.problem ≡ family.now.problem }
    requires size { length state.old.set ≡ size_of family.now }
    requires split { IsSplit F.scalars family.now.problem table.now state.old.set line other }
    ensures { IfOk result (TellsClasses F.scalars family.now.problem (size_of family.now)) }
{
    let (_members, _lines, _set) = (family.len(), family.problem().len(), state.set());
    let target = family.member(separator_of(family, table, line, other));
    match circuits(state, target, line)? {
        Ended::Larger(larger) => Ok(Classes::Larger(larger)),
        Ended::Overlapping { set, first, second } => Ok(Classes::Overlapping {
            set,
            first,
            second,
        }),
    }
}

/// Toward a set that misses `o`, a vector of the line of the label, and `part`, one of the class of `line`.
fn crossing_of<F: Field>(
    family: &Family<'_, F>,
    table: &Table,
    set: &LineSet,
    label: usize,
    o: &[F],
    line: usize,
    part: &[F],
) -> Result<Crossing, AllocError>
    requires turn { (L : IsField F.scalars) → IsTurn F.scalars L family.now table.now }
    requires set { IsSetOf F.scalars family.now.problem (size_of family.now) set.now }
    requires label_within { label < length family.now.problem.lines }
    requires line_within { line < length family.now.problem.lines }
    requires apart { AreSeparated table.now label line }
    requires long { length o.now ≡ family.now.problem.dimension }
    requires missed { Misses F.scalars family.now.problem set.now (map F.number o.now ∷ []) }
    requires part_long { length part.now ≡ family.now.problem.dimension }
    requires part_not_zero { map F.number part.now ≢ zero_vector F.scalars family.now.problem.dimension }
    ensures { IfOk result (IsCrossing F.scalars family.now.problem (size_of family.now) label line (map F.number o.now) (map F.number part.now)) }
{
    let (alloc, problem) = (family.alloc(), family.problem());
    let (_members, _lines) = (family.len(), problem.len());
    let apart = family.member(separator_of(family, table, label, line));
    let state = Matched::started(alloc, problem, apart)?;
    let first = missed_of(&state, label)?;
    let second = missed_of(&state, line)?;
    let other = family.member(member_missing(family, part)?);
    missing_both(
        alloc,
        problem,
        set,
        o,
        apart,
        first.as_slice(),
        second.as_slice(),
        other,
        part,
    )
}

/// The last exchanges, toward a set that misses `o` and the part of `vector` in another class.
fn last_turn<F: Field>(
    family: &Family<'_, F>,
    table: &Table,
    labels: &[usize],
    state: &mut Matched<'_, F>,
    target: &LineSet,
    o: &[F],
    vector: &[F],
) -> Result<Turned, AllocError>
    requires turn { (L : IsField F.scalars) → IsTurn F.scalars L family.now table.now }
    requires classes { AreClasses (length family.now.problem.lines) (akin_at table.now) labels.now }
    requires problem { state.old.problem ≡ family.now.problem }
    requires size { length state.old.set ≡ size_of family.now }
    requires target { IsSetOf F.scalars family.now.problem (size_of family.now) target.now }
    requires long { length o.now ≡ family.now.problem.dimension }
    requires vector_long { length vector.now ≡ family.now.problem.dimension }
    requires of_class { (L : IsField F.scalars) → AreOfClass F.scalars L family.now.problem labels.now (map F.number o.now) (map F.number vector.now) }
    requires lasting { (L : IsField F.scalars) → IsLasting F.scalars L family.now.problem labels.now target.now (map F.number o.now) (map F.number vector.now) state.old.set }
    ensures { IfOk result (λ turned. (L : IsField F.scalars) → TellsTurned F.scalars L family.now.problem (size_of family.now) table.now turned) }
{
    let (_members, _lines) = (family.len(), family.problem().len());
    match last_exchanges(state, labels, target, o, vector)? {
        Walked::Larger(larger) => Ok(Turned::Ended(Classes::Larger(larger))),
        Walked::Stray { line, other } => {
            let _set = state.set();
            Ok(Turned::Ended(split_end(family, table, state, line, other)?))
        }
        Walked::Arrived => Ok(Turned::Grown(state.set().copied()?)),
    }
}

/// From a set that misses the vector `o` of the class, which is too large for it.
fn spread_turn<F: Field>(
    family: &Family<'_, F>,
    table: &Table,
    labels: &[usize],
    label: usize,
    class: &LineSet,
    o: &[F],
    state: &mut Matched<'_, F>,
) -> Result<Turned, AllocError>
    requires turn { (L : IsField F.scalars) → IsTurn F.scalars L family.now table.now }
    requires classes { AreClasses (length family.now.problem.lines) (akin_at table.now) labels.now }
    requires problem { state.old.problem ≡ family.now.problem }
    requires size { length state.old.set ≡ size_of family.now }
    requires large { IsLargeClass F.scalars family.now.problem labels.now state.old.set label class.now }
    requires long { length o.now ≡ family.now.problem.dimension }
    requires of_label { IsNonzeroOf F.scalars family.now.problem label (map F.number o.now) }
    requires missed { Misses F.scalars family.now.problem state.old.set (map F.number o.now ∷ []) }
    ensures { IfOk result (λ turned. (L : IsField F.scalars) → TellsTurned F.scalars L family.now.problem (size_of family.now) table.now turned) }
{
    let (_members, _lines, _set) = (family.len(), family.problem().len(), state.set());
    match spread_of(state, labels, class, label, o)? {
        Spread::Wide => Ok(Turned::Grown(state.set().copied()?)),
        Spread::Stray { line, vector, part } => {
            match crossing_of(family, table, state.set(), label, o, line, part.as_slice())? {
                Crossing::Larger(larger) => Ok(Turned::Ended(Classes::Larger(larger))),
                Crossing::First(set) => Ok(Turned::Grown(set)),
                Crossing::Second(set) => Ok(Turned::Grown(set)),
                Crossing::Both(target) => {
                    last_turn(family, table, labels, state, &target, o, vector.as_slice())
                }
            }
        }
    }
}

/// From the first member, for which the class is too large, to a set that misses a vector of the class, and on.
fn large_turn<F: Field>(
    family: &Family<'_, F>,
    table: &Table,
    labels: &[usize],
    label: usize,
    class: &LineSet,
) -> Result<Turned, AllocError>
    requires turn { (L : IsField F.scalars) → IsTurn F.scalars L family.now table.now }
    requires classes { AreClasses (length family.now.problem.lines) (akin_at table.now) labels.now }
    requires large { IsLargeClass F.scalars family.now.problem labels.now (slice_index_or family.now.sets 0 []) label class.now }
    ensures { IfOk result (λ turned. (L : IsField F.scalars) → TellsTurned F.scalars L family.now.problem (size_of family.now) table.now turned) }
{
    let (alloc, problem) = (family.alloc(), family.problem());
    let (_members, _lines) = (family.len(), problem.len());
    let o = nonzero_of(problem, label);
    let target = family.member(member_missing(family, o)?);
    let mut state = Matched::started(alloc, problem, family.member(0))?;
    match reach(&mut state, labels, target, o)? {
        Walked::Larger(larger) => Ok(Turned::Ended(Classes::Larger(larger))),
        Walked::Stray { line, other } => {
            let _set = state.set();
            Ok(Turned::Ended(split_end(family, table, &mut state, line, other)?))
        }
        Walked::Arrived => {
            let _set = state.set();
            spread_turn(family, table, labels, label, class, o, &mut state)
        }
    }
}

/// The turn of classes: they are parts, or one of them is too large for the first member.
pub fn class_turn<F: Field>(
    family: &Family<'_, F>,
    table: &Table,
    labels: &[usize],
) -> Result<Turned, AllocError>
    requires turn { (L : IsField F.scalars) → IsTurn F.scalars L family.now table.now }
    requires classes { AreClasses (length family.now.problem.lines) (akin_at table.now) labels.now }
    ensures { IfOk result (λ turned. (L : IsField F.scalars) → TellsTurned F.scalars L family.now.problem (size_of family.now) table.now turned) }
{
    let (_members, _lines) = (family.len(), family.problem().len());
    match division_of(family.alloc(), family.problem(), labels, family.member(0))? {
        Division::Parts(parts) => Ok(Turned::Ended(Classes::Parts(parts))),
        Division::Large { label, class } => large_turn(family, table, labels, label, &class),
    }
}
