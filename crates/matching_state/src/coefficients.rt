//! Coordinates of any vector.

ghost use Rattle.std.specs.Prelude.{◌≡◌, ◌≤◌, IfOk, MatchOption, length, map, take};
ghost use Rattle.linear_algebra.specs.Spans.{Combines, InSpan};
ghost use Rattle.matching_state.specs.Bases.{IsKept};
ghost use Rattle.parity_lines.specs.Problems.{vectors_at};

use crate::Matched;
use field_core::{Field, Row};
use frames::lead_from;
use kept_rows::KeptRow;
use std::alloc::{AllocError, Global};

/// The first `count` entries.
fn front<F: Field>(alloc: Global, row: &KeptRow<F>, count: usize) -> Result<Row<F>, AllocError>
    requires { count ≤ length row.now }
    ensures { IfOk result (λ front. front ≡ take count row.now) }
{
    let mut front = Vec::new(alloc);
    for i in 0..count {
        front.push(row.get(i))?;
    }
    Row::copy_of(alloc, &front)
}

impl<'a, F: Field> Matched<'a, F> {
    /// The coefficients that combine the whole basis to `v`.
    fn combined(&self, v: &[F]) -> Result<KeptRow<F>, AllocError>
        requires { length v.now ≡ self.now.problem.dimension }
        ensures kept { IsKept F.scalars self.now }
        ensures combines { IfOk result (λ row. Combines F.scalars self.now.problem.dimension self.now.basis row (map F.number v.now)) }
    {
        let mut row = KeptRow::zeros(self.alloc, v.len())?;
        for i in 0..v.len() {
            row.axpy(v[i], self.unit(i));
        }
        Ok(row)
    }

    /// The coefficients that combine M's vectors, two a line in order, to `v`. `None` says that `v` is outside
    /// their span.
    pub fn coordinates(&self, v: &[F]) -> Result<Option<Row<F>>, AllocError>
        requires { length v.now ≡ self.now.problem.dimension }
        ensures { IfOk result (λ found. MatchOption found
            (¬ (InSpan F.scalars self.now.problem.dimension (vectors_at self.now.problem self.now.set) (map F.number v.now)))
            (λ cs. Combines F.scalars self.now.problem.dimension (vectors_at self.now.problem self.now.set) cs (map F.number v.now))) }
    {
        let row = self.combined(v)?;
        let _entries = row.len();
        let count = 2 * self.set().len();
        match lead_from(&row, count) {
            Some(_) => Ok(None),
            None => Ok(Some(front(self.alloc, &row, count)?)),
        }
    }
}
