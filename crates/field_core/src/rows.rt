//! A list of vectors of one width.

ghost use Rattle.std.specs.Prelude.{◌≡◌, ◌<◌, ◌^◌, IfOk, OnOk, OnErr, [], ◌∷◌, ◌++◌, List, ℕ, map, length, slice_index_or, slice_set};
ghost use Rattle.std.specs.List.{swap};
ghost use Rattle.linear_algebra.specs.Vectors.{AreVectors};

use crate::{Field, Row};
use std::alloc::{AllocError, Global};
use std::marker::Model;

/// A list of vectors of one width.
#[derive(Drop)]
pub struct Rows<F: Field> {
    alloc: Global,
    width: usize,
    rows: Vec<Row<F>>,
}

impl<F: Field> Model for Rows<F> {
    ghost use Rattle.field_core.specs.Matrix.{Matrix};
    ghost use Rattle.linear_algebra.specs.Vectors.{AreVectors};

    ghost Value = { Matrix };

    ghost view = { λ r. record { width = r.width; rows = r.rows.items } };

    ghost invariant = { λ r. AreVectors F.scalars r.width r.rows.items };
}

impl<F: Field> Rows<F> {
    /// No vector yet.
    pub fn new(alloc: Global, width: usize) -> Rows<F>
        ensures { result ≡ record { width = width; rows = [] } }
    {
        Rows {
            alloc,
            width,
            rows: Vec::new(alloc),
        }
    }

    /// The vector alone.
    pub fn alone(alloc: Global, v: &[F]) -> Result<Rows<F>, AllocError>
        ensures { IfOk result (λ rows. rows ≡ record { width = length v.now; rows = map F.number v.now ∷ [] }) }
    {
        let mut rows = Rows::new(alloc, v.len());
        rows.push(v)?;
        Ok(rows)
    }

    /// Puts a vector last.
    pub fn push(&mut self, v: &[F]) -> Result<(), AllocError>
        requires { length v.now ≡ self.old.width }
        ensures ok { OnOk result (self.new ≡ record self.old { rows = self.old.rows ++ map F.number v.now ∷ [] }) }
        ensures err { OnErr result (self.new ≡ self.old) }
    {
        let row = Row::copy_of(self.alloc, v)?;
        self.rows.push(row)?;
        Ok(())
    }

    /// Puts a vector at a position, in the place of the one that stands there.
    pub fn put(&mut self, i: usize, v: &[F])
        requires within { i < length self.old.rows }
        requires long { length v.now ≡ self.old.width }
        ensures { self.new ≡ record self.old { rows = slice_set self.old.rows i (map F.number v.now) } }
    {
        self.rows[i].as_mut_slice().copy_from_slice(v);
    }

    /// Two vectors in each other's place.
    pub fn swap(&mut self, i: usize, j: usize)
        requires first { i < length self.old.rows }
        requires second { j < length self.old.rows }
        ensures { self.new ≡ record self.old { rows = swap self.old.rows i j } }
    {
        self.rows.swap(i, j);
    }

    /// How many vectors there are.
    pub fn len(&self) -> usize
        ensures value { result ≡ length self.now.rows }
        ensures vectors { AreVectors F.scalars self.now.width self.now.rows }
        ensures small { result < 2 ^ 63 }
    {
        self.rows.len()
    }

    /// The width.
    pub fn width(&self) -> usize
        ensures { result ≡ self.now.width }
    {
        self.width
    }

    /// The vector at a position.
    pub fn row(&self, i: usize) -> &[F]
        requires { i < length self.now.rows }
        ensures value { map F.number result.now ≡ slice_index_or self.now.rows i [] }
        ensures len { length result.now ≡ self.now.width }
    {
        self.rows[i].as_slice()
    }
}
