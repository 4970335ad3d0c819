//! Elimination by steps, one after the other.

ghost use Rattle.std.specs.Prelude.{◌≡◌, ◌≢◌, ◌<◌, ◌+◌, ◌++◌, ◌∷◌, [], ℕ, IfOk, MatchOption, map, length, slice_index};
ghost use Rattle.linear_algebra.specs.Vectors.{zero_vector, vector_sum, multiple};
ghost use Rattle.linear_algebra.specs.Spans.{combination};
ghost use Rattle.echelon.specs.Eliminations.{eliminated, reduced, taken, IsEchelon, IsNextStep, IsNegated};
ghost use Rattle.echelon.specs.Leads.{LeadsAt};
ghost use Rattle.echelon.specs.Found.{Finds};

use crate::step::Step;
use field_core::{Field, Row, axpy, scale};
use std::alloc::{AllocError, Global};

/// The first entry that isn't zero.
pub fn first_nonzero<F: Field>(v: &[F]) -> Option<usize>
    ensures { MatchOption result (map F.number v.now ≡ zero_vector F.scalars (length v.now)) (LeadsAt F.scalars (map F.number v.now)) }
{
    let zero = F::zero();
    for (i, x) in v.iter().enumerate() {
        if *x != zero {
            return Some(i);
        }
    }
    None
}

/// Adds the multiple of the row that makes `v` zero at the pivot, and answers the factor.
fn eliminate<F: Field>(step: &Step<F>, v: &mut [F]) -> F
    requires pivot { step.now.pivot < length v.old }
    requires row { length step.now.row ≡ length v.old }
    ensures factor { F.number result ≡ slice_index (map F.number v.old) step.now.pivot }
    ensures rest { map F.number v.new ≡ eliminated F.scalars step.now (map F.number v.old) }
{
    let factor = v[step.pivot];
    axpy(v, factor, step.row.as_slice());
    factor
}

/// Adds the multiples of the rows that make `v` zero at the pivots.
pub fn reduce<F: Field>(steps: &[Step<F>], v: &mut [F])
    requires { IsEchelon F.scalars (length v.old) steps.now }
    ensures { map F.number v.new ≡ reduced F.scalars steps.now (map F.number v.old) }
{
    for step in steps {
        let _factor = eliminate(step, v);
    }
}

/// Adds the coefficients of the step, times the factor, of which the last is new.
fn add_coefficients<F: Field>(
    coefficients: &mut Vec<F>,
    factor: F,
    step: &Step<F>,
) -> Result<(), AllocError>
    requires { length step.now.coefficients ≡ length coefficients.old.items + 1 }
    ensures long { IfOk result (λ _. length coefficients.new.items ≡ length coefficients.old.items + 1) }
    ensures sum { IfOk result (λ _. map F.number coefficients.new.items ≡ vector_sum F.scalars (map F.number coefficients.old.items ++ F.scalars.zero ∷ []) (multiple F.scalars (F.number factor) step.now.coefficients)) }
{
    coefficients.push(F::zero())?;
    axpy(
        coefficients.as_mut_slice(),
        factor,
        step.coefficients.as_slice(),
    );
    Ok(())
}

/// As [`reduce`], and answers the coefficients of what was added.
fn reduce_with<F: Field>(
    alloc: Global,
    steps: &[Step<F>],
    v: &mut [F],
) -> Result<Vec<F>, AllocError>
    requires { IsEchelon F.scalars (length v.old) steps.now }
    ensures long { IfOk result (λ cs. length cs.items ≡ length steps.now) }
    ensures rest { IfOk result (λ cs. map F.number v.new ≡ reduced F.scalars steps.now (map F.number v.old)) }
    ensures added { IfOk result (λ cs. map F.number v.new ≡ vector_sum F.scalars (map F.number v.old) (combination F.scalars (length v.old) (map F.number cs.items) (taken steps.now))) }
{
    let mut coefficients = Vec::new(alloc);
    for step in steps {
        let factor = eliminate(step, v);
        add_coefficients(&mut coefficients, factor, step)?;
    }
    Ok(coefficients)
}

/// What the rows leave of a vector, and the coefficients of what they added.
#[derive(Drop)]
pub struct Remainder<F: Field> {
    pub rest: Row<F>,
    pub coefficients: Vec<F>,
}

/// Reduces a copy of `v`.
fn remainder_of<F: Field>(
    alloc: Global,
    steps: &[Step<F>],
    v: &[F],
) -> Result<Remainder<F>, AllocError>
    requires { IsEchelon F.scalars (length v.now) steps.now }
    ensures long { IfOk result (λ r. length r.coefficients.items ≡ length steps.now) }
    ensures rest { IfOk result (λ r. r.rest ≡ reduced F.scalars steps.now (map F.number v.now)) }
    ensures added { IfOk result (λ r. r.rest ≡ vector_sum F.scalars (map F.number v.now) (combination F.scalars (length v.now) (map F.number r.coefficients.items) (taken steps.now))) }
{
    let mut rest = Row::copy_of(alloc, v)?;
    let coefficients = reduce_with(alloc, steps, rest.as_mut_slice())?;
    Ok(Remainder { rest, coefficients })
}

/// Minus the coefficients.
fn negated<F: Field>(alloc: Global, mut coefficients: Vec<F>) -> Result<Row<F>, AllocError>
    ensures { IfOk result (IsNegated F.scalars (map F.number coefficients.items)) }
{
    scale(coefficients.as_mut_slice(), F::one().neg());
    Row::copy_of(alloc, &coefficients)
}

/// What an elimination finds of a vector.
#[derive(Drop)]
pub enum Found<F: Field> {
    /// It is in the span; these coefficients combine the vectors that were taken to it.
    Inside(Row<F>),
    /// It is outside, and leaves this, which leads at the pivot.
    Outside { left: Remainder<F>, pivot: usize },
}

/// Reduces a copy of `v`, and tells whether it is in the span.
pub fn find<F: Field>(alloc: Global, steps: &[Step<F>], v: &[F]) -> Result<Found<F>, AllocError>
    requires { IsEchelon F.scalars (length v.now) steps.now }
    ensures { IfOk result (Finds F.scalars F.number (length v.now) steps.now (map F.number v.now)) }
{
    let left = remainder_of(alloc, steps, v)?;
    match first_nonzero(left.rest.as_slice()) {
        None => Ok(Found::Inside(negated(alloc, left.coefficients)?)),
        Some(pivot) => Ok(Found::Outside { left, pivot }),
    }
}

/// What multiplied by `x` gives minus one.
fn minus_inverse<F: Field>(x: F) -> F
    requires { F.number x ≢ F.scalars.zero }
    ensures { F.scalars.sum F.scalars.one (F.scalars.product (F.number result) (F.number x)) ≡ F.scalars.zero }
{
    match x.inverse() {
        Some(inverse) => inverse.neg(),
        None => unreachable!(),
    }
}

/// The step of a new vector, whose remainder isn't zero at `pivot`.
pub fn next_step<F: Field>(
    alloc: Global,
    v: &[F],
    remainder: Remainder<F>,
    pivot: usize,
) -> Result<Step<F>, AllocError>
    requires pivot { pivot < length remainder.rest }
    requires not_zero { slice_index remainder.rest pivot ≢ F.scalars.zero }
    ensures { IfOk result (IsNextStep F.scalars (map F.number v.now) remainder.rest pivot (map F.number remainder.coefficients.items)) }
{
    let Remainder {
        mut rest,
        mut coefficients,
    } = remainder;
    let factor = minus_inverse(rest.as_slice()[pivot]);
    rest.multiply(factor);
    scale(coefficients.as_mut_slice(), factor);
    coefficients.push(factor)?;
    Ok(Step {
        vector: Row::copy_of(alloc, v)?,
        row: rest,
        pivot,
        coefficients: Row::copy_of(alloc, &coefficients)?,
    })
}
