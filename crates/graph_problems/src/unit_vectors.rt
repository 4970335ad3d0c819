//! The vectors of vertices.

ghost use Rattle.std.specs.Prelude.{◌≡◌, ◌≢◌, IfOk, length, map};
ghost use Rattle.graph_problems.specs.GraphLines.{unit_vector};

use field_core::Field;
use std::alloc::{AllocError, Global};

/// The vector with one at a place, and zero elsewhere.
pub fn unit_vector<F: Field>(
    alloc: Global,
    dimension: usize,
    place: usize,
) -> Result<Vec<F>, AllocError>
    ensures value { IfOk result (λ v. map F.number v.items ≡ unit_vector F.scalars dimension place) }
    ensures long { IfOk result (λ v. length v.items ≡ dimension) }
{
    let mut vector = Vec::new(alloc);
    for coordinate in 0..dimension {
        vector.push(entry(coordinate, place))?;
    }
    Ok(vector)
}

/// The coordinate of that vector: one at the place, and zero elsewhere.
fn entry<F: Field>(coordinate: usize, place: usize) -> F
    ensures there { coordinate ≡ place → F.number result ≡ F.scalars.one }
    ensures elsewhere { coordinate ≢ place → F.number result ≡ F.scalars.zero }
{
    if coordinate == place {
        F::one()
    } else {
        F::zero()
    }
}
