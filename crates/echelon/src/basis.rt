//! The basis, as the list of the vectors that it took.

ghost use Rattle.std.specs.Prelude.{◌≡◌, ◌≤◌, ◌↔◌, [], IfOk, OnErr, IsTrue, MatchOption, map, length, take};
ghost use Rattle.linear_algebra.specs.Vectors.{AreVectors};
ghost use Rattle.linear_algebra.specs.Spans.{InSpan, Combines, IsIndependent};
ghost use Rattle.linear_algebra.specs.Ranks.{rank as rank_of};

use crate::elimination::{Found, find, next_step, reduce};
use crate::step::Step;
use field_core::{Field, Row, is_zero};
use std::alloc::{AllocError, Global};
use std::marker::Model;

/// A basis of a subspace, seen as the dimension of the whole space and the list of the independent vectors
/// that it took, in order.
#[derive(Drop)]
pub struct Echelon<F: Field> {
    alloc: Global,
    dimension: usize,
    steps: Vec<Step<F>>,
}

impl<F: Field> Model for Echelon<F> {
    ghost use Rattle.field_core.specs.Matrix.{Matrix};

    ghost Value = { Matrix };

    ghost use Rattle.echelon.specs.Eliminations.{taken, IsEchelon};

    ghost view = { λ e. record { width = e.dimension; rows = taken e.steps.items } };

    ghost invariant = { λ e. IsEchelon F.scalars e.dimension e.steps.items };
}

/// What an insertion found.
#[derive(Drop)]
pub enum Inserted<F: Field> {
    /// The vector is outside the span, and was taken.
    New,
    /// The vector is in the span; these coefficients combine the vectors taken before to it.
    Old(Row<F>),
}

impl<F: Field> Echelon<F> {
    ghost use Rattle.echelon.specs.Inserted.{Inserts};
    ghost use Rattle.echelon.specs.Residues.{IsResidue};

    /// The basis of no vector, in the space of vectors of length `dimension`.
    pub fn new(alloc: Global, dimension: usize) -> Result<Echelon<F>, AllocError>
        ensures { IfOk result (λ e. e ≡ record { width = dimension; rows = [] }) }
    {
        Ok(Echelon {
            alloc,
            dimension,
            steps: Vec::new(alloc),
        })
    }

    /// Takes the vector last, unless it is in the span. After want of memory the basis is unchanged.
    pub fn insert(&mut self, v: &[F]) -> Result<Inserted<F>, AllocError>
        requires { length v.now ≡ self.old.width }
        ensures ok { IfOk result (Inserts F.scalars self.old (map F.number v.now) self.new) }
        ensures err { OnErr result (self.new ≡ self.old) }
    {
        match find(self.alloc, &self.steps, v)? {
            Found::Inside(coefficients) => Ok(Inserted::Old(coefficients)),
            Found::Outside { left, pivot } => {
                let step = next_step(self.alloc, v, left, pivot)?;
                self.steps.push(step)?;
                Ok(Inserted::New)
            }
        }
    }

    /// The coefficients that combine the vectors that were taken to `v`. `None` says that `v` is outside the span.
    pub fn coefficients(&self, v: &[F]) -> Result<Option<Row<F>>, AllocError>
        requires { length v.now ≡ self.now.width }
        ensures { IfOk result (λ found. MatchOption found (¬ (InSpan F.scalars self.now.width self.now.rows (map F.number v.now)))
            (λ cs. Combines F.scalars self.now.width self.now.rows cs (map F.number v.now))) }
    {
        match find(self.alloc, &self.steps, v)? {
            Found::Inside(coefficients) => Ok(Some(coefficients)),
            Found::Outside { .. } => Ok(None),
        }
    }

    /// How many vectors were taken: the rank of the subspace.
    pub fn rank(&self) -> usize
        ensures value { result ≡ length self.now.rows }
        ensures rank { result ≡ rank_of F.scalars self.now.width self.now.rows }
        ensures vectors { AreVectors F.scalars self.now.width self.now.rows }
        ensures independent { IsIndependent F.scalars self.now.width self.now.rows }
    {
        self.steps.len()
    }

    /// Keeps the first `rank` vectors.
    pub fn truncate(&mut self, rank: usize)
        requires { rank ≤ length self.old.rows }
        ensures { self.new ≡ record self.old { rows = take rank self.old.rows } }
    {
        self.steps.truncate(rank);
    }

    /// Subtracts the element of the span that makes `v` its residue: the one vector of its coset that is zero
    /// wherever vectors of the span lead. So two vectors become equal exactly where their difference is in the
    /// span, and a vector of the span becomes zero (`residues_tell_the_span`).
    pub fn reduce_in_place(&self, v: &mut [F])
        requires { length v.old ≡ self.now.width }
        ensures { IsResidue F.scalars self.now.width self.now.rows (map F.number v.old) (map F.number v.new) }
    {
        reduce(&self.steps, v);
    }

    /// The residue of `v`, as [`Echelon::reduce_in_place`] makes it.
    pub fn residue(&self, v: &[F]) -> Result<Row<F>, AllocError>
        requires { length v.now ≡ self.now.width }
        ensures { IfOk result (IsResidue F.scalars self.now.width self.now.rows (map F.number v.now)) }
    {
        let mut residue = Row::copy_of(self.alloc, v)?;
        self.reduce_in_place(residue.as_mut_slice());
        Ok(residue)
    }

    /// Tells whether `v` is in the span. The content of `scratch` is lost.
    pub fn contains_with(&self, v: &[F], scratch: &mut [F]) -> bool
        requires long { length v.now ≡ self.now.width }
        requires room { length scratch.old ≡ self.now.width }
        ensures { IsTrue result ↔ InSpan F.scalars self.now.width self.now.rows (map F.number v.now) }
    {
        scratch.copy_from_slice(v);
        reduce(&self.steps, scratch);
        is_zero(scratch)
    }
}
