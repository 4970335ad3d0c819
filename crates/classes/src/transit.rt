//! Missing is transitive: a set that misses a vector, moved toward one that misses two.

ghost use Rattle.std.specs.Prelude.{◌≡◌, [], ◌∷◌, IfOk, length, map};
ghost use Rattle.classes.specs.Ends.{IsSetOf};
ghost use Rattle.classes.specs.Sharing.{TellsShared};
ghost use Rattle.matching_state.specs.Missing.{Misses};
ghost use Rattle.parity_lines.specs.LineSets.{IsIndependentSet};

use crate::starting::basis_with;
use exchanges::{Moved, move_toward};
use field_core::{Field, Rows};
use matching_state::Matched;
use parity_lines::{LineSet, Problem};
use std::alloc::{AllocError, Global};

/// What a set that misses a vector comes to.
#[derive(Drop)]
pub enum Shared {
    /// An independent set that is one line longer.
    Larger(LineSet),
    /// A set that misses the vector with the first of two.
    First(LineSet),
    /// A set that misses it with the second.
    Second(LineSet),
}

/// From the state of a set that misses `q`, as `transit` does.
fn shared_by<F: Field>(
    state: &mut Matched<'_, F>,
    q: &[F],
    target: &LineSet,
    first: &[F],
) -> Result<Shared, AllocError>
    requires long { length q.now ≡ state.old.problem.dimension }
    requires missed { Misses F.scalars state.old.problem state.old.set (map F.number q.now ∷ []) }
    requires target { IsSetOf F.scalars state.old.problem (length state.old.set) target.now }
    requires first_long { length first.now ≡ state.old.problem.dimension }
    ensures { IfOk result (TellsShared F.scalars state.old.problem (length state.old.set)
        (map F.number q.now) target.now (map F.number first.now)) }
{
    let (problem, _set) = (state.problem(), state.set());
    let _lines = problem.len();
    let keep = Rows::alone(state.alloc(), q)?;
    match move_toward(state, target, &keep)? {
        Moved::Larger(larger) => Ok(Shared::Larger(larger)),
        Moved::Settled => {
            let basis = basis_with(state, q)?;
            let moved = state.set().copied()?;
            let found = basis.coefficients(first)?;
            Ok(match found {
                None => Shared::First(moved),
                Some(_) => Shared::Second(moved),
            })
        }
    }
}

/// From a set that misses `q` toward one that misses `first` together with others: to a set that misses `q` with
/// `first`, or with each of those others.
pub fn transit<F: Field>(
    alloc: Global,
    problem: &Problem<F>,
    set: &LineSet,
    q: &[F],
    target: &LineSet,
    first: &[F],
) -> Result<Shared, AllocError>
    requires independent { IsIndependentSet F.scalars problem.now set.now }
    requires long { length q.now ≡ problem.now.dimension }
    requires missed { Misses F.scalars problem.now set.now (map F.number q.now ∷ []) }
    requires target { IsSetOf F.scalars problem.now (length set.now) target.now }
    requires first_long { length first.now ≡ problem.now.dimension }
    ensures { IfOk result (TellsShared F.scalars problem.now (length set.now)
        (map F.number q.now) target.now (map F.number first.now)) }
{
    let mut state = Matched::started(alloc, problem, set)?;
    shared_by(&mut state, q, target, first)
}
