//! Bases of given vectors.

ghost use Rattle.std.specs.Prelude.{IfOk};
ghost use Rattle.echelon.specs.Grown.{IsBasisOf};

use crate::Echelon;
use field_core::{Field, Rows};
use std::alloc::{AllocError, Global};

/// A basis of the span of the vectors.
pub fn basis_of<F: Field>(alloc: Global, vectors: &Rows<F>) -> Result<Echelon<F>, AllocError>
    ensures { IfOk result (IsBasisOf F.scalars vectors.now) }
{
    let mut basis = Echelon::new(alloc, vectors.width())?;
    for i in 0..vectors.len() {
        let _found = basis.insert(vectors.row(i))?;
    }
    Ok(basis)
}
