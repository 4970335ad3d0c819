//! The span of an independent set with vectors to keep.

ghost use Rattle.std.specs.Prelude.{◌≡◌, ◌++◌, IfOk};
ghost use Rattle.echelon.specs.Grown.{Grows, GrowsToSpan};
ghost use Rattle.linear_algebra.specs.Vectors.{AreVectors};
ghost use Rattle.parity_lines.specs.Problems.{vectors_at};
ghost use Rattle.exchanges.specs.Spans.{HasSpan};

use echelon::Echelon;
use field_core::{Field, Rows};
use matching_state::Matched;
use std::alloc::AllocError;

/// Inserts the vectors, one after the other.
fn insert_rows<F: Field>(basis: &mut Echelon<F>, vectors: &Rows<F>) -> Result<(), AllocError>
    requires width { basis.old.width ≡ vectors.now.width }
    requires vectors { AreVectors F.scalars basis.old.width basis.old.rows }
    ensures grows { Grows basis.old basis.new }
    ensures ok { GrowsToSpan F.scalars vectors.now.rows basis.old basis.new result }
{
    for i in 0..vectors.len() {
        let _found = basis.insert(vectors.row(i))?;
    }
    Ok(())
}

/// A basis of the span of the set's vectors and those to keep.
pub fn basis_with<F: Field>(
    state: &Matched<'_, F>,
    keep: &Rows<F>,
) -> Result<Echelon<F>, AllocError>
    requires { keep.now.width ≡ state.now.problem.dimension }
    ensures { IfOk result (HasSpan F.scalars state.now.problem.dimension (vectors_at state.now.problem state.now.set ++ keep.now.rows)) }
{
    let _kept = keep.len();
    let mut basis = state.echelon()?;
    let _rank = basis.rank();
    insert_rows(&mut basis, keep)?;
    Ok(basis)
}
