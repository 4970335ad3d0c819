//! Values of a field of two elements, as bits.

ghost use Rattle.std.specs.Prelude.{◌≡◌, ◌<◌};
ghost use Rattle.kept_rows.specs.Kept.{scalar_of};

use field_core::Field;
use small_fields::F2;

/// The bit that stands for the value.
pub(crate) fn bit_of<F: Field>(value: F) -> F2
    requires { F.ORDER ≡ 2 }
    ensures stands { scalar_of F.scalars (⟦<F2 as Field>⟧.number result) ≡ F.number value }
    ensures bit { ⟦<F2 as Field>⟧.number result < 2 }
{
    if value.number() == F::one().number() {
        F2::one()
    } else {
        F2::zero()
    }
}

/// The value that the bit stands for.
pub(crate) fn value_of<F: Field>(bit: F2) -> F
    ensures { F.number result ≡ scalar_of F.scalars (⟦<F2 as Field>⟧.number bit) }
{
    if bit.number() == 1 {
        F::one()
    } else {
        F::zero()
    }
}
