//! Vectors modulo a point.

ghost use Rattle.std.specs.Prelude.{◌≡◌, ◌≢◌, ◌<◌, ◌≤◌, suc, IfOk, length, map, slice_index, insert, remove};
ghost use Rattle.linear_algebra.specs.Vectors.{zero_vector};
ghost use Rattle.quotients.specs.Quotients.{ProjectsBy, LiftsBy};

use echelon::first_nonzero;
use field_core::{Field, Row};
use std::alloc::{AllocError, Global};
use std::marker::Model;

/// The division by a point: vectors become one coordinate shorter, and the multiples of the point zero. It is
/// seen as the point. Spans, independence and ranks of what is projected are those with the point in front
/// (`projections_are_modulo_the_point` in `quotient_spaces`), each vector has one projection alone, and each
/// shorter vector is that of its lift (`projections_are_unique`).
#[derive(Drop)]
pub struct Quotient<F: Field> {
    alloc: Global,
    point: Row<F>,
    pivot: usize,
}

impl<F: Field> Model for Quotient<F> {
    ghost use Rattle.std.specs.Prelude.{List, ℕ};
    ghost use Rattle.quotient_spaces.specs.Projections.{IsFirstPivot};

    ghost Value = { List ℕ };

    ghost view = { λ q. q.point };

    ghost invariant = { λ q. IsFirstPivot F.scalars q.point q.pivot };
}

/// The vector without the coordinate at a position.
fn without<F: Field>(alloc: Global, v: &[F], position: usize) -> Result<Row<F>, AllocError>
    requires { position < length v.now }
    ensures { IfOk result (λ w. w ≡ remove (map F.number v.now) position) }
{
    let mut entries = Vec::new(alloc);
    entries.extend_from_slice(&v[..position])?;
    entries.extend_from_slice(&v[position + 1..])?;
    Row::copy_of(alloc, &entries)
}

/// The vector with a zero put in at a position.
fn with_zero<F: Field>(alloc: Global, v: &[F], position: usize) -> Result<Row<F>, AllocError>
    requires { position ≤ length v.now }
    ensures { IfOk result (λ w. w ≡ insert (map F.number v.now) position F.scalars.zero) }
{
    let mut entries = Vec::new(alloc);
    entries.extend_from_slice(&v[..position])?;
    entries.push(F::zero())?;
    entries.extend_from_slice(&v[position..])?;
    Row::copy_of(alloc, &entries)
}

/// What times `y` makes the sum with `x` zero.
fn clearing<F: Field>(x: F, y: F) -> F
    requires { F.number y ≢ F.scalars.zero }
    ensures { F.scalars.sum (F.scalars.product (F.number result) (F.number y)) (F.number x) ≡ F.scalars.zero }
{
    match y.inverse() {
        Some(inverse) => x.neg().mul(inverse),
        None => unreachable!(),
    }
}

impl<F: Field> Quotient<F> {
    /// The division by the point, which isn't zero.
    pub fn quotient_by(alloc: Global, point: &[F]) -> Result<Quotient<F>, AllocError>
        requires { map F.number point.now ≢ zero_vector F.scalars (length point.now) }
        ensures { IfOk result (λ q. q ≡ map F.number point.now) }
    {
        match first_nonzero(point) {
            Some(pivot) => Ok(Quotient {
                alloc,
                point: Row::copy_of(alloc, point)?,
                pivot,
            }),
            None => unreachable!(),
        }
    }

    /// The vector modulo the point: the multiple of the point is added that makes it zero at the first coordinate at
    /// which the point isn't, and that coordinate is left out.
    pub fn project(&self, v: &[F]) -> Result<Row<F>, AllocError>
        requires { length v.now ≡ length self.now }
        ensures { IfOk result (ProjectsBy F.scalars self.now (map F.number v.now)) }
    {
        let point = self.point.as_slice();
        let factor = clearing(v[self.pivot], point[self.pivot]);
        let mut cleared = Row::copy_of(self.alloc, v)?;
        cleared.add_multiple(factor, point);
        without(self.alloc, cleared.as_slice(), self.pivot)
    }

    /// The vector with zero put in at the first coordinate at which the point isn't zero: its projection is the
    /// vector again.
    pub fn lift(&self, w: &[F]) -> Result<Row<F>, AllocError>
        requires { suc (length w.now) ≡ length self.now }
        ensures { IfOk result (LiftsBy F.scalars self.now (map F.number w.now)) }
    {
        with_zero(self.alloc, w, self.pivot)
    }
}
