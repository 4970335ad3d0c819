//! The basis of a set and of what it is to miss.

ghost use Rattle.std.specs.Prelude.{◌≡◌, [], ◌∷◌, ◌++◌, IfOk, length, map};
ghost use Rattle.matching_state.specs.Missing.{Misses};
ghost use Rattle.parity_lines.specs.Problems.{vectors_at};

use echelon::{Echelon, Inserted};
use field_core::Field;
use matching_state::Matched;
use std::alloc::AllocError;

/// The basis that took the vectors of the set, and then one that the set misses.
pub fn basis_with<F: Field>(state: &Matched<'_, F>, q: &[F]) -> Result<Echelon<F>, AllocError>
    requires long { length q.now ≡ state.now.problem.dimension }
    requires missed { Misses F.scalars state.now.problem state.now.set (map F.number q.now ∷ []) }
    ensures { IfOk result (λ basis.
        basis ≡ record { width = state.now.problem.dimension; rows = vectors_at state.now.problem state.now.set ++ map F.number q.now ∷ [] }) }
{
    let mut basis = state.echelon()?;
    let _rank = basis.rank();
    match basis.insert(q)? {
        Inserted::New => Ok(basis),
        Inserted::Old(_) => unreachable!(),
    }
}
