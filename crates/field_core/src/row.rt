//! One vector over a field.

ghost use Rattle.std.specs.Prelude.{◌≡◌, IfOk, List, ℕ, map, length};
ghost use Rattle.std.specs.Borrow.{sem};
ghost use Rattle.std.specs.List.{refill};
ghost use Rattle.linear_algebra.specs.Vectors.{zero_vector, vector_sum, multiple};

use crate::{Field, axpy, scale};
use std::alloc::{AllocError, Global};
use std::marker::Model;

/// One vector over a field, seen as the list of its numbers.
#[derive(Drop)]
pub struct Row<F: Field> {
    entries: Vec<F>,
}

impl<F: Field> Model for Row<F> {
    ghost use Rattle.std.specs.Prelude.{List, ℕ, map};

    ghost Value = { List ℕ };

    ghost view = { λ r. map F.number r.entries.items };
}

impl<F: Field> Row<F> {
    ghost use Rattle.field_core.specs.RowLends.{lends_entries};

    /// The vector of `len` zeros.
    pub fn zeros(alloc: Global, len: usize) -> Result<Row<F>, AllocError>
        ensures { IfOk result (λ row. row ≡ zero_vector F.scalars len) }
    {
        let zero = F::zero();
        let mut entries = Vec::with_capacity(alloc, len)?;
        for _i in 0..len {
            entries.push(zero)?;
        }
        Ok(Row { entries })
    }

    /// A vector with the entries of `v`.
    pub fn copy_of(alloc: Global, v: &[F]) -> Result<Row<F>, AllocError>
        ensures { IfOk result (λ row. row ≡ map F.number v.now) }
    {
        let entries = v.iter().copied().collect(alloc)?;
        Ok(Row { entries })
    }

    /// The entries.
    pub fn as_slice(&self) -> &[F]
        ensures value { map F.number result.now ≡ self.now }
        ensures len { length result.now ≡ length self.now }
    {
        self.entries.as_slice()
    }

    /// The entries, to be written: once the loan ends, the row has the numbers of what was written.
    pub fn as_mut_slice(&mut self) -> &mut [F]
        ensures* writes_back { sem 𝓛 (lends_entries F.row F.Field.own F.PartialEq F.number self.entry result) }
        ensures value { map F.number result.now ≡ self.old }
        ensures whole { (written : List ℕ) → length written ≡ length self.old → refill (length self.old) self.old written ≡ written }
    {
        self.entries.as_mut_slice()
    }

    /// Adds `factor` times `source` to the row.
    pub fn add_multiple(&mut self, factor: F, source: &[F])
        requires { length source.now ≡ length self.old }
        ensures { self.new ≡ vector_sum F.scalars self.old (multiple F.scalars (F.number factor) (map F.number source.now)) }
    {
        axpy(self.as_mut_slice(), factor, source);
    }

    /// Multiplies the row by `factor`.
    pub fn multiply(&mut self, factor: F)
        ensures { self.new ≡ multiple F.scalars (F.number factor) self.old }
    {
        scale(self.as_mut_slice(), factor);
    }
}
