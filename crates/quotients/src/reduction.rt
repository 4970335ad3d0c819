//! The reduced echelon basis of a span.

ghost use Rattle.std.specs.Prelude.{◌≡◌, ◌<◌, IfOk, length, map, slice_set};
ghost use Rattle.linear_algebra.specs.Vectors.{zero_vector};
ghost use Rattle.quotients.specs.Reductions.{IsRowAt, IsReductionOf};

use echelon::Echelon;
use field_core::{Field, Row, Rows, is_zero};
use std::alloc::{AllocError, Global};

/// Writes a one at a position.
fn put_one<F: Field>(v: &mut [F], position: usize)
    requires { position < length v.old }
    ensures { map F.number v.new ≡ slice_set (map F.number v.old) position F.scalars.one }
{
    v[position] = F::one();
}

/// The vector that is one at a position, and zero elsewhere.
fn unit_vector<F: Field>(
    alloc: Global,
    dimension: usize,
    position: usize,
) -> Result<Row<F>, AllocError>
    requires { position < dimension }
    ensures { IfOk result (λ unit. unit ≡ slice_set (zero_vector F.scalars dimension) position F.scalars.one) }
{
    let mut unit = Row::zeros(alloc, dimension)?;
    put_one(unit.as_mut_slice(), position);
    Ok(unit)
}

/// The unit vector of a position, less its residue. Where the span leads at the position, it is one there and
/// zero at all others at which the span leads; elsewhere it is zero.
fn row_at<F: Field>(
    alloc: Global,
    span: &Echelon<F>,
    dimension: usize,
    position: usize,
) -> Result<Row<F>, AllocError>
    requires dimension { dimension ≡ span.now.width }
    requires position { position < dimension }
    ensures { IfOk result (IsRowAt F.scalars span.now.width span.now.rows position) }
{
    let _rank = span.rank();
    let mut row = unit_vector(alloc, dimension, position)?;
    let residue = span.residue(row.as_slice())?;
    row.add_multiple(F::one().neg(), residue.as_slice());
    Ok(row)
}

/// The reduced echelon basis of the span.
pub fn reduced_basis<F: Field>(
    alloc: Global,
    span: &Echelon<F>,
    dimension: usize,
) -> Result<Rows<F>, AllocError>
    requires { dimension ≡ span.now.width }
    ensures { IfOk result (IsReductionOf F.scalars span.now.width span.now.rows) }
{
    let _rank = span.rank();
    let mut basis = Rows::new(alloc, dimension);
    for position in 0..dimension {
        let row = row_at(alloc, span, dimension, position)?;
        if !is_zero(row.as_slice()) {
            basis.push(row.as_slice())?;
        }
    }
    Ok(basis)
}
