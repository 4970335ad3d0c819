//! Vectors of lines that aren't zero, and those that sets miss.

ghost use Rattle.std.specs.Prelude.{◌≡◌, ◌≢◌, ◌<◌, ℕ, List, IfOk, length, map};
ghost use Rattle.linear_algebra.specs.Scalars.{IsField};
ghost use Rattle.linear_algebra.specs.Vectors.{zero_vector};
ghost use Rattle.classes.specs.Missed.{AreSeparated, IsMissedOf, IsMissing, IsNonzeroOf, IsSeparator};
ghost use Rattle.classes.specs.Partitions.{HasNoCommon};
ghost use Rattle.classes.specs.Tables.{IsTableOf};

use crate::table::Table;
use families::Family;
use field_core::{Field, Row, is_zero};
use matching_state::Matched;
use parity_lines::Problem;
use std::alloc::AllocError;

/// A vector of the line that isn't zero, where there is one.
pub fn nonzero_of<F: Field>(problem: &Problem<F>, line: usize) -> &[F]
    requires within { line < length problem.now.lines }
    requires some { (v : List ℕ) × IsNonzeroOf F.scalars problem.now line v }
    ensures { IsNonzeroOf F.scalars problem.now line (map F.number result.now) }
{
    let _lines = problem.len();
    let first = problem.first(line);
    if is_zero(first) {
        problem.second(line)
    } else {
        first
    }
}

/// A vector of the line that the set misses, where there is one.
pub fn missed_of<F: Field>(state: &Matched<'_, F>, line: usize) -> Result<Row<F>, AllocError>
    requires within { line < length state.now.problem.lines }
    requires some { (v : List ℕ) × IsMissedOf F.scalars state.now.problem state.now.set line v }
    ensures { IfOk result (IsMissedOf F.scalars state.now.problem state.now.set line) }
{
    let (problem, _set) = (state.problem(), state.set());
    let _lines = problem.len();
    let first = problem.first(line);
    if state.coordinates(first)?.is_none() {
        Row::copy_of(state.alloc(), first)
    } else {
        Row::copy_of(state.alloc(), problem.second(line))
    }
}

/// A member that misses the vector, which isn't zero.
pub fn member_missing<F: Field>(family: &Family<'_, F>, v: &[F]) -> Result<usize, AllocError>
    requires long { length v.now ≡ family.now.problem.dimension }
    requires none { HasNoCommon F.scalars family.now }
    requires not_zero { map F.number v.now ≢ zero_vector F.scalars family.now.problem.dimension }
    ensures { IfOk result (IsMissing F.scalars family.now (map F.number v.now)) }
{
    let (_members, _lines) = (family.len(), family.problem().len());
    match family.member_missing(v)? {
        Some(member) => Ok(member),
        None => unreachable!(),
    }
}

/// The member that separates two live lines that aren't akin.
pub fn separator_of<F: Field>(
    family: &Family<'_, F>,
    table: &Table,
    first: usize,
    second: usize,
) -> usize
    requires first_within { first < length family.now.problem.lines }
    requires second_within { second < length family.now.problem.lines }
    requires table { (L : IsField F.scalars) → IsTableOf F.scalars L family.now.problem family.now.sets table.now }
    requires apart { AreSeparated table.now first second }
    ensures { (L : IsField F.scalars) → IsSeparator F.scalars L family.now first second result }
{
    match table.separator(first, second) {
        Some(member) => member,
        None => unreachable!(),
    }
}
