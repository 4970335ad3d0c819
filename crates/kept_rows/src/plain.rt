//! Elements of a plain row.

ghost use Rattle.std.specs.Prelude.{◌≡◌, ◌<◌, List, ℕ, All, map, length, slice_index, slice_set};
ghost use Rattle.linear_algebra.specs.Scalars.{IsScalar};
ghost use Rattle.packed_rows.specs.Carried.{carried};

use field_core::{Field, Row};

/// How many there are.
pub(crate) fn count<F: Field>(row: &Row<F>) -> usize
    ensures value { result ≡ length row.now }
    ensures scalars { All (IsScalar F.scalars) row.now }
{
    row.as_slice().len()
}

/// The element at a position.
pub(crate) fn element<F: Field>(row: &Row<F>, i: usize) -> F
    requires { i < length row.now }
    ensures { F.number result ≡ slice_index row.now i }
{
    row.as_slice()[i]
}

fn write_at<F: Field>(entries: &mut [F], i: usize, value: F)
    requires { i < length entries.old }
    ensures { map F.number entries.new ≡ slice_set (map F.number entries.old) i (F.number value) }
{
    entries[i] = value;
}

/// Replaces the element at a position.
pub(crate) fn write<F: Field>(row: &mut Row<F>, i: usize, value: F)
    requires { i < length row.old }
    ensures { row.new ≡ slice_set row.old i (F.number value) }
{
    write_at(row.as_mut_slice(), i, value);
}

fn carry_in<T>(items: &mut [T], from: usize, to: usize)
    requires first { from < length items.old }
    requires second { to < length items.old }
    ensures len { length items.new ≡ length items.old }
    ensures after { items.new ≡ carried items.old from to }
{
    if from < to {
        items[from..=to].rotate_left(1);
    } else {
        items[to..=from].rotate_right(1);
    }
}

/// Takes the element at `from` out, and puts it in so that it stands at `to`.
pub(crate) fn carry<F: Field>(row: &mut Row<F>, from: usize, to: usize)
    requires first { from < length row.old }
    requires second { to < length row.old }
    ensures { row.new ≡ carried row.old from to }
{
    carry_in(row.as_mut_slice(), from, to);
}
