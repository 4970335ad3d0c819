//! Vectors that span the meeting of two spans.

ghost use Rattle.std.specs.Prelude.{◌≡◌, ◌≤◌, IfOk, length, map};
ghost use Rattle.linear_algebra.specs.Vectors.{IsVector, vector_sum};
ghost use Rattle.linear_algebra.specs.Spans.{combination};
ghost use Rattle.quotients.specs.Meetings.{Takes, SpansMeeting};

use echelon::{Echelon, Inserted, basis_of};
use field_core::{Field, Row, Rows};
use std::alloc::{AllocError, Global};

/// What is left of `v` when the combination of the rows is taken away.
fn less_combination<F: Field>(
    alloc: Global,
    v: &[F],
    coefficients: &[F],
    rows: &Rows<F>,
) -> Result<Row<F>, AllocError>
    requires width { length v.now ≡ rows.now.width }
    requires one_each { length coefficients.now ≡ length rows.now.rows }
    ensures vector { IfOk result (IsVector F.scalars rows.now.width) }
    ensures sum { IfOk result (λ left. map F.number v.now ≡ vector_sum F.scalars left (combination F.scalars rows.now.width (map F.number coefficients.now) rows.now.rows)) }
{
    let mut left = Row::copy_of(alloc, v)?;
    for i in 0..rows.len() {
        left.add_multiple(coefficients[i].neg(), rows.row(i));
    }
    Ok(left)
}

/// A walk over the vectors of a second span: a basis of the first one with vectors added behind, the added vectors,
/// and vectors of both spans.
#[derive(Drop)]
struct Walk<F: Field> {
    basis: Echelon<F>,
    added: Rows<F>,
    common: Rows<F>,
}

/// Takes one more vector: a new one as it is, of another the part in the first span.
fn take<F: Field>(alloc: Global, walk: &mut Walk<F>, w: &[F]) -> Result<(), AllocError>
    requires basis { length w.now ≡ walk.old.basis.width }
    requires added { walk.old.added.width ≡ walk.old.basis.width }
    requires common { walk.old.common.width ≡ walk.old.basis.width }
    requires fits { length walk.old.added.rows ≤ length walk.old.basis.rows }
    ensures { IfOk result (λ _. Takes F.scalars walk.old (map F.number w.now) walk.new) }
{
    match walk.basis.insert(w)? {
        Inserted::New => walk.added.push(w),
        Inserted::Old(coefficients) => {
            let first = walk.basis.rank() - walk.added.len();
            let coefficients = &coefficients.as_slice()[first..];
            let part = less_combination(alloc, w, coefficients, &walk.added)?;
            walk.common.push(part.as_slice())
        }
    }
}

/// Vectors that span the meeting of the spans of two lists.
pub fn meeting<F: Field>(alloc: Global, us: &Rows<F>, ws: &Rows<F>) -> Result<Rows<F>, AllocError>
    requires { ws.now.width ≡ us.now.width }
    ensures { IfOk result (SpansMeeting F.scalars us.now ws.now) }
{
    let mut walk = Walk {
        basis: basis_of(alloc, us)?,
        added: Rows::new(alloc, us.width()),
        common: Rows::new(alloc, us.width()),
    };
    for i in 0..ws.len() {
        take(alloc, &mut walk, ws.row(i))?;
    }
    Ok(walk.common)
}
