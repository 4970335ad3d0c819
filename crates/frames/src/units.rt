//! The unit vectors.

ghost use Rattle.std.specs.Prelude.{◌≡◌, ◌<◌, IfOk};
ghost use Rattle.coordinates.specs.Bases.{unit_vector, unit_vectors};

use field_core::{Field, Row, Rows};
use std::alloc::{AllocError, Global};

/// The vector with one at a place, and zeros elsewhere.
fn unit_row<F: Field>(alloc: Global, width: usize, i: usize) -> Result<Row<F>, AllocError>
    requires { i < width }
    ensures { IfOk result (λ row. row ≡ unit_vector F.scalars width i) }
{
    let mut row = Row::zeros(alloc, width)?;
    row.as_mut_slice()[i] = F::one();
    Ok(row)
}

/// The unit vectors of a width, in order.
pub(crate) fn unit_rows<F: Field>(alloc: Global, width: usize) -> Result<Rows<F>, AllocError>
    ensures { IfOk result (λ rows. rows ≡ record { width = width; rows = unit_vectors F.scalars width }) }
{
    let mut rows = Rows::new(alloc, width);
    for i in 0..width {
        let unit = unit_row(alloc, width, i)?;
        rows.push(unit.as_slice())?;
    }
    Ok(rows)
}
