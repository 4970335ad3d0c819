//! From a set that misses the point of an overlap to a longer one.

ghost use Rattle.std.specs.Prelude.{◌≡◌, ◌⊎◌, ◌↔◌, [], ◌∷◌, ℕ, IfOk, length};
ghost use Rattle.std.specs.List.{Contains};
ghost use Rattle.std.specs.List.Sorted.{IsStrictlyIncreasing};
ghost use Rattle.exchanges.specs.Exchanges.{IsLonger};
ghost use Rattle.matching_state.specs.Missing.{Misses};
ghost use Rattle.parity_lines.specs.LineSets.{IsIndependentSet};

use crate::Overlap;
use exchanges::{Moved, move_toward};
use field_core::{Field, Rows};
use matching_state::Matched;
use parity_lines::LineSet;
use std::alloc::AllocError;

/// The lines of the set, and the two.
fn lines_with(set: &LineSet, first: usize, second: usize) -> Result<LineSet, AllocError>
    ensures { IfOk result (λ lines. IsStrictlyIncreasing lines × ((l : ℕ) → Contains lines l ↔ (Contains set.now l ⊎ ((l ≡ first) ⊎ (l ≡ second))))) }
{
    let more = set.with(first)?;
    more.with(second)
}

/// An independent set that is one line longer than `set`, which is as long as M and misses the point.
pub fn raise<F: Field>(overlap: &Overlap<'_, F>, set: &LineSet) -> Result<LineSet, AllocError>
    requires independent { IsIndependentSet F.scalars overlap.now.problem set.now }
    requires as_long { length set.now ≡ length overlap.now.set }
    requires misses { Misses F.scalars overlap.now.problem set.now (overlap.now.point ∷ []) }
    ensures { IfOk result (IsLonger F.scalars overlap.now.problem set.now) }
{
    let problem = overlap.problem();
    let _lines = problem.len();
    let (first, second) = overlap.lines();
    let target = lines_with(overlap.set(), first, second)?;
    let keep = Rows::alone(overlap.alloc(), overlap.point())?;
    let mut state = Matched::started(overlap.alloc(), problem, set)?;
    match move_toward(&mut state, &target, &keep)? {
        Moved::Larger(longer) => Ok(longer),
        Moved::Settled => unreachable!(),
    }
}
