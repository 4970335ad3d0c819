//! The point of an overlap, from the coordinates of both tips.

ghost use Rattle.std.specs.Prelude.{◌≡◌, ◌<◌, ◌+◌, ◌*◌, ◌↔◌, ℕ, All, IfOk, IsTrue, MatchOption, length, map};
ghost use Rattle.linear_algebra.specs.Spans.{combination};
ghost use Rattle.parity_lines.specs.Problems.{vectors_at};
ghost use Rattle.overlap.specs.Pairs.{HasPairAt, AreProportionalAt, IsRatioAt, IsKeptAt, AreKept};
ghost use Rattle.overlap.specs.Points.{HaveBothAt, IsPointOf};

use field_core::{Field, Row, is_zero};
use matching_state::Matched;
use parity_lines::{LineSet, Problem};
use std::alloc::{AllocError, Global};

/// Whether the pair at an index isn't zero.
fn has_pair<F: Field>(v: &[F], i: usize) -> bool
    requires { 2 * i + 1 < length v.now }
    ensures { IsTrue result ↔ HasPairAt F.scalars (map F.number v.now) i }
{
    !is_zero(&v[2 * i..2 * i + 2])
}

/// The first index at which the pairs of both lists aren't zero.
fn common_index<F: Field>(first: &[F], second: &[F]) -> Option<usize>
    requires { length second.now ≡ length first.now }
    ensures { MatchOption result
        ((i : ℕ) → ¬ (HaveBothAt F.scalars (map F.number first.now) (map F.number second.now) i))
        (HaveBothAt F.scalars (map F.number first.now) (map F.number second.now)) }
{
    for i in 0..first.len() / 2 {
        if has_pair(first, i) && has_pair(second, i) {
            return Some(i);
        }
    }
    None
}

/// The factor by which a pair of `first` that isn't zero becomes that of `second`.
fn ratio_at<F: Field>(first: &[F], second: &[F], i: usize) -> F
    requires long { length second.now ≡ length first.now }
    requires within { 2 * i + 1 < length first.now }
    requires not_zero { HasPairAt F.scalars (map F.number first.now) i }
    requires proportional { AreProportionalAt F.scalars (map F.number first.now) (map F.number second.now) i }
    ensures { IsRatioAt F.scalars (F.number result) (map F.number first.now) (map F.number second.now) i }
{
    if let Some(inverse) = first[2 * i].inverse() {
        return second[2 * i].mul(inverse);
    }
    match first[2 * i + 1].inverse() {
        Some(inverse) => second[2 * i + 1].mul(inverse),
        None => unreachable!(),
    }
}

/// The pair of `first`, where that of `second` is `factor` times as much, and zeros else.
fn pair_at_ratio<F: Field>(first: &[F], second: &[F], factor: F, i: usize) -> (F, F)
    requires long { length second.now ≡ length first.now }
    requires within { 2 * i + 1 < length first.now }
    ensures { IsKeptAt F.scalars (F.number factor) (map F.number first.now) (map F.number second.now) i (F.number result.0) (F.number result.1) }
{
    let (a, b) = (first[2 * i], first[2 * i + 1]);
    if factor.mul(a) == second[2 * i] && factor.mul(b) == second[2 * i + 1] {
        (a, b)
    } else {
        (F::zero(), F::zero())
    }
}

/// The pairs of `first` of which `second` has `factor` times as much, and zeros elsewhere.
fn kept_at_ratio<F: Field>(
    alloc: Global,
    first: &[F],
    second: &[F],
    factor: F,
) -> Result<Row<F>, AllocError>
    requires { length second.now ≡ length first.now }
    ensures { IfOk result (AreKept F.scalars (F.number factor) (map F.number first.now) (map F.number second.now)) }
{
    let mut kept = Vec::new(alloc);
    for i in 0..first.len() / 2 {
        let (a, b) = pair_at_ratio(first, second, factor, i);
        kept.push(a)?;
        kept.push(b)?;
    }
    Row::copy_of(alloc, &kept)
}

/// The combination of the vectors of the lines, two a line in order.
fn combined<F: Field>(
    alloc: Global,
    problem: &Problem<F>,
    set: &LineSet,
    coefficients: &[F],
) -> Result<Row<F>, AllocError>
    requires within { All (λ m. m < length problem.now.lines) set.now }
    requires long { length coefficients.now ≡ 2 * length set.now }
    ensures { IfOk result (λ sum. sum ≡ combination F.scalars problem.now.dimension (map F.number coefficients.now) (vectors_at problem.now set.now)) }
{
    let _lines = problem.len();
    let mut sum = Row::zeros(alloc, problem.dimension())?;
    for i in 0..set.len() {
        let line = set.at(i);
        sum.add_multiple(coefficients[2 * i], problem.first(line));
        sum.add_multiple(coefficients[2 * i + 1], problem.second(line));
    }
    Ok(sum)
}

/// The combination of M's vectors by the coordinates `first`, but only at lines where `second` has a fixed multiple
/// of them: the one at the first line at which both have a component.
pub fn point_of<F: Field>(
    state: &Matched<'_, F>,
    first: &[F],
    second: &[F],
) -> Result<Row<F>, AllocError>
    requires first_long { length first.now ≡ 2 * length state.now.set }
    requires second_long { length second.now ≡ 2 * length state.now.set }
    requires common { (i : ℕ) × HaveBothAt F.scalars (map F.number first.now) (map F.number second.now) i }
    requires proportional { (i : ℕ) → HaveBothAt F.scalars (map F.number first.now) (map F.number second.now) i
        → AreProportionalAt F.scalars (map F.number first.now) (map F.number second.now) i }
    ensures { IfOk result (IsPointOf F.scalars state.now.problem state.now.set (map F.number first.now) (map F.number second.now)) }
{
    let Some(i) = common_index(first, second) else {
        unreachable!();
    };
    let factor = ratio_at(first, second, i);
    let kept = kept_at_ratio(state.alloc(), first, second, factor)?;
    combined(state.alloc(), state.problem(), state.set(), kept.as_slice())
}
