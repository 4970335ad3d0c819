//! A vector comes into a basis: one elimination of all coordinates.

ghost use Rattle.std.specs.Prelude.{◌≡◌, ◌<◌, ℕ, [], All, length, slice_index, slice_index_or};
ghost use Rattle.coordinates.specs.Bases.{IsPivoted, unit_vector};
ghost use Rattle.linear_algebra.specs.Scalars.{IsScalar};
ghost use Rattle.linear_algebra.specs.Vectors.{IsVector, AreVectors};

use field_core::Field;
use kept_rows::KeptRow;

/// Pivots one list of coordinates: `factor` is the inverse of what the incoming vector has at place `i`.
fn pivot_list<F: Field>(list: &mut KeptRow<F>, i: usize, incoming: &KeptRow<F>, factor: F)
    requires list { IsVector F.scalars (length incoming.now) list.old }
    requires incoming { IsVector F.scalars (length incoming.now) incoming.now }
    requires place { i < length incoming.now }
    requires factor { F.scalars.product (slice_index incoming.now i) (F.number factor) ≡ F.scalars.one }
    ensures { IsPivoted F.scalars i incoming.now list.old list.new }
{
    let share = list.get(i).mul(factor);
    if share == F::zero() {
        return;
    }
    list.axpy(share.neg(), incoming);
    list.put(i, share);
}

/// Pivots lists of coordinates, of which the incoming vector's is none.
fn pivot_lists<F: Field>(lists: &mut [KeptRow<F>], i: usize, incoming: &KeptRow<F>, factor: F)
    requires lists { AreVectors F.scalars (length incoming.now) lists.old }
    requires incoming { IsVector F.scalars (length incoming.now) incoming.now }
    requires place { i < length incoming.now }
    requires factor { F.scalars.product (slice_index incoming.now i) (F.number factor) ≡ F.scalars.one }
    ensures many { length lists.new ≡ length lists.old }
    ensures each { (t : ℕ) → t < length lists.old → IsPivoted F.scalars i incoming.now (slice_index_or lists.old t []) (slice_index_or lists.new t []) }
{
    for t in 0..lists.len() {
        pivot_list(&mut lists[t], i, incoming, factor);
    }
}

/// The incoming vector's own list: it stands at place `i` then.
fn become_unit<F: Field>(list: &mut KeptRow<F>, i: usize)
    requires scalars { All (IsScalar F.scalars) list.old }
    requires place { i < length list.old }
    ensures { list.new ≡ unit_vector F.scalars (length list.old) i }
{
    list.scale(F::zero());
    list.put(i, F::one());
}

/// Pivots all lists of coordinates, where the vector of the list `j` comes in at place `i`.
pub(crate) fn pivot_all<F: Field>(lists: &mut [KeptRow<F>], i: usize, j: usize, factor: F)
    requires list { j < length lists.old }
    requires lists { AreVectors F.scalars (length (slice_index_or lists.old j [])) lists.old }
    requires place { i < length (slice_index_or lists.old j []) }
    requires factor { F.scalars.product (slice_index (slice_index_or lists.old j []) i) (F.number factor) ≡ F.scalars.one }
    ensures many { length lists.new ≡ length lists.old }
    ensures each { (t : ℕ) → t < length lists.old
        → IsPivoted F.scalars i (slice_index_or lists.old j []) (slice_index_or lists.old t []) (slice_index_or lists.new t []) }
{
    let (front, back) = lists.split_at_mut(j);
    if let Some((incoming, rest)) = back.split_first_mut() {
        pivot_lists(front, i, incoming, factor);
        pivot_lists(rest, i, incoming, factor);
        become_unit(incoming, i);
    }
}
