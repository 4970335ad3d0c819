//! A vector of the basis is carried to another place, and a coordinate of each list with it.

ghost use Rattle.std.specs.Prelude.{◌≡◌, ◌<◌, ◌≤◌, All, length, map};
ghost use Rattle.packed_rows.specs.Carried.{carried};

use field_core::{Field, Rows};
use kept_rows::KeptRow;

/// Carries a vector behind those that follow it, up to `to`.
fn carry_behind<F: Field>(rows: &mut Rows<F>, from: usize, to: usize)
    requires order { from ≤ to }
    requires within { to < length rows.old.rows }
    ensures { rows.new ≡ record rows.old { rows = carried rows.old.rows from to } }
{
    for at in from..to {
        rows.swap(at, at + 1);
    }
}

/// Carries a vector before those in front of it, down to `to`.
fn carry_before<F: Field>(rows: &mut Rows<F>, from: usize, to: usize)
    requires order { to ≤ from }
    requires within { from < length rows.old.rows }
    ensures { rows.new ≡ record rows.old { rows = carried rows.old.rows from to } }
{
    let mut at = from;
    while to < at {
        rows.swap(at - 1, at);
        at -= 1;
    }
}

/// Carries a vector to another place.
pub(crate) fn carry_row<F: Field>(rows: &mut Rows<F>, from: usize, to: usize)
    requires first { from < length rows.old.rows }
    requires second { to < length rows.old.rows }
    ensures { rows.new ≡ record rows.old { rows = carried rows.old.rows from to } }
{
    if from < to {
        carry_behind(rows, from, to);
    } else {
        carry_before(rows, from, to);
    }
}

/// Carries a coordinate of each list to another place.
pub(crate) fn carry_columns<F: Field>(lists: &mut [KeptRow<F>], from: usize, to: usize)
    requires first { All (λ list. from < length list) lists.old }
    requires second { All (λ list. to < length list) lists.old }
    ensures { lists.new ≡ map (λ list. carried list from to) lists.old }
{
    for t in 0..lists.len() {
        lists[t].carry(from, to);
    }
}
