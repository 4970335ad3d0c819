ghost use Rattle.std.specs.Prelude.{◌≡◌, ◌↔◌, IsTrue, map, length};
ghost use Rattle.linear_algebra.specs.Vectors.{zero_vector, vector_sum, multiple};

use crate::Field;

/// Adds `factor` times `source` to `target`, coordinate by coordinate.
pub fn axpy<F: Field>(target: &mut [F], factor: F, source: &[F])
    requires { length target.old ≡ length source.now }
    ensures { map F.number target.new ≡ vector_sum F.scalars (map F.number target.old) (multiple F.scalars (F.number factor) (map F.number source.now)) }
{
    if factor == F::zero() {
        return;
    }
    for i in 0..source.len() {
        target[i] = target[i].add(factor.mul(source[i]));
    }
}

/// Multiplies each coordinate by `factor`.
pub fn scale<F: Field>(target: &mut [F], factor: F)
    ensures { map F.number target.new ≡ multiple F.scalars (F.number factor) (map F.number target.old) }
{
    for x in target.iter_mut() {
        *x = factor.mul(*x);
    }
}

/// Tells whether all coordinates are zero.
pub fn is_zero<F: Field>(v: &[F]) -> bool
    ensures { IsTrue result ↔ (map F.number v.now ≡ zero_vector F.scalars (length v.now)) }
{
    let zero = F::zero();
    for x in v {
        if *x != zero {
            return false;
        }
    }
    true
}
