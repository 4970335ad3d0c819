//! Subspaces.

ghost use Rattle.std.specs.Prelude.{◌≡◌, ◌↔◌, ◌++◌, IfOk, OnOk, IsTrue, length, map};
ghost use Rattle.linear_algebra.specs.Spans.{InSpan, IsIndependent};
ghost use Rattle.linear_algebra.specs.Ranks.{rank as rank_of};
ghost use Rattle.quotients.specs.ReducedBases.{IsReducedBasis};
ghost use Rattle.quotients.specs.Subspaces.{HasElements};

use crate::meeting::meeting;
use crate::reduction::reduced_basis;
use echelon::{Echelon, basis_of};
use field_core::{Field, Row, Rows};
use std::alloc::{AllocError, Global};
use std::marker::Model;

/// A subspace, seen as the dimension of the whole space and the reduced echelon basis of the subspace.
#[derive(Drop)]
pub struct Subspace<F: Field> {
    alloc: Global,
    basis: Rows<F>,
    span: Echelon<F>,
}

impl<F: Field> Model for Subspace<F> {
    ghost use Rattle.field_core.specs.Matrix.{Matrix};
    ghost use Rattle.quotients.specs.Subspaces.{IsKept};

    ghost Value = { Matrix };

    ghost view = { λ s. s.basis };

    ghost invariant = { λ s. IsKept F.scalars s.basis s.span };
}

/// Puts all vectors of another list behind.
fn append<F: Field>(rows: &mut Rows<F>, others: &Rows<F>) -> Result<(), AllocError>
    requires { others.now.width ≡ rows.old.width }
    ensures { OnOk result (rows.new ≡ record rows.old { rows = rows.old.rows ++ others.now.rows }) }
{
    for i in 0..others.len() {
        rows.push(others.row(i))?;
    }
    Ok(())
}

impl<F: Field> Subspace<F> {
    /// The span of the vectors.
    pub fn spanned(
        alloc: Global,
        dimension: usize,
        vectors: &Rows<F>,
    ) -> Result<Subspace<F>, AllocError>
        requires { vectors.now.width ≡ dimension }
        ensures width { IfOk result (λ s. s.width ≡ dimension) }
        ensures spans { IfOk result (λ s. HasElements F.scalars s (InSpan F.scalars dimension vectors.now.rows)) }
    {
        let span = basis_of(alloc, vectors)?;
        let basis = reduced_basis(alloc, &span, dimension)?;
        Ok(Subspace { alloc, basis, span })
    }

    /// The reduced echelon basis: each row leads with one at its pivot, no other row has an entry there, and the
    /// pivots increase. A subspace has one such basis alone (`reduced_bases_are_unique`).
    pub fn basis(&self) -> &Rows<F>
        ensures value { result.now ≡ self.now }
        ensures reduced { IsReducedBasis F.scalars self.now.width self.now.rows }
        ensures independent { IsIndependent F.scalars self.now.width self.now.rows }
    {
        &self.basis
    }

    /// How many vectors a basis has.
    pub fn rank(&self) -> usize
        ensures value { result ≡ length self.now.rows }
        ensures rank { result ≡ rank_of F.scalars self.now.width self.now.rows }
    {
        self.basis.len()
    }

    /// The length of the vectors.
    pub fn dimension(&self) -> usize
        ensures { result ≡ self.now.width }
    {
        self.basis.width()
    }

    /// The span of both subspaces together.
    pub fn sum(&self, other: &Subspace<F>) -> Result<Subspace<F>, AllocError>
        requires { other.now.width ≡ self.now.width }
        ensures width { IfOk result (λ s. s.width ≡ self.now.width) }
        ensures spans { IfOk result (λ s. HasElements F.scalars s (InSpan F.scalars self.now.width (self.now.rows ++ other.now.rows))) }
    {
        let mut vectors = Rows::new(self.alloc, self.basis.width());
        append(&mut vectors, &self.basis)?;
        append(&mut vectors, &other.basis)?;
        Subspace::spanned(self.alloc, self.basis.width(), &vectors)
    }

    /// The subspace of the vectors that are in both.
    pub fn intersect(&self, other: &Subspace<F>) -> Result<Subspace<F>, AllocError>
        requires { other.now.width ≡ self.now.width }
        ensures width { IfOk result (λ s. s.width ≡ self.now.width) }
        ensures meets { IfOk result (λ s. HasElements F.scalars s (λ x. InSpan F.scalars self.now.width self.now.rows x × InSpan F.scalars self.now.width other.now.rows x)) }
    {
        let vectors = meeting(self.alloc, &self.basis, &other.basis)?;
        Subspace::spanned(self.alloc, self.basis.width(), &vectors)
    }

    /// Tells whether the vector is in the subspace.
    pub fn contains(&self, v: &[F]) -> Result<bool, AllocError>
        requires { length v.now ≡ self.now.width }
        ensures { IfOk result (λ b. IsTrue b ↔ InSpan F.scalars self.now.width self.now.rows (map F.number v.now)) }
    {
        let mut scratch = Row::zeros(self.alloc, v.len())?;
        Ok(self.span.contains_with(v, scratch.as_mut_slice()))
    }
}
