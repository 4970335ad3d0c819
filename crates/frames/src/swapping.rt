//! Two coordinates of each list in each other's place.

ghost use Rattle.std.specs.Prelude.{◌≡◌, ◌<◌, All, length, map};
ghost use Rattle.std.specs.List.{swap};

use field_core::Field;
use kept_rows::KeptRow;

/// Two coordinates of each list in each other's place.
pub(crate) fn swap_columns<F: Field>(lists: &mut [KeptRow<F>], i: usize, j: usize)
    requires first { All (λ list. i < length list) lists.old }
    requires second { All (λ list. j < length list) lists.old }
    ensures { lists.new ≡ map (λ list. swap list i j) lists.old }
{
    for t in 0..lists.len() {
        lists[t].swap(i, j);
    }
}
