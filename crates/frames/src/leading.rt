//! Where a row begins.

ghost use Rattle.std.specs.Prelude.{◌≡◌, ◌≢◌, ◌<◌, ◌≤◌, ℕ, MatchOption, length, slice_index};

use field_core::Field;
use kept_rows::KeptRow;

/// The first place from `from` on at which the row isn't zero.
pub fn lead_from<F: Field>(row: &KeptRow<F>, from: usize) -> Option<usize>
    ensures { MatchOption result
        ((i : ℕ) → from ≤ i → i < length row.now → slice_index row.now i ≡ F.scalars.zero)
        (λ i. (from ≤ i) × (i < length row.now) × (slice_index row.now i ≢ F.scalars.zero)
        × ((j : ℕ) → from ≤ j → j < i → slice_index row.now j ≡ F.scalars.zero)) }
{
    for i in from..row.len() {
        if row.get(i) != F::zero() {
            return Some(i);
        }
    }
    None
}
