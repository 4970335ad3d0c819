//! The field of 256 elements.
ghost use Rattle.std.specs.Prelude.{◌≡◌, ◌≢◌, ◌<◌};
ghost use Rattle.small_fields.specs.Bytes.{byte_power, byte_product};

use crate::byte_tables::{LOGARITHMS, POWERS};
use field_core::Field;

/// A polynomial over two elements of degree below 8, as the byte of its coefficients.
#[derive(Clone, Copy, Debug, PartialEq, Eq)]
pub struct F256 {
    byte: u8,
    ghost small: { byte < 256 },
}

/// The power of x + 1 with an exponent.
fn power(exponent: usize) -> u8
    requires { exponent < 509 }
    ensures { result ≡ byte_power 3 exponent }
{
    POWERS[exponent]
}

/// The exponent of the power of x + 1 that the byte is.
fn logarithm(byte: u8) -> usize
    requires { byte ≢ 0 }
    ensures small { result < 255 }
    ensures power { byte_power 3 result ≡ byte }
{
    LOGARITHMS[byte as usize] as usize
}

/// The product: the exponents are added.
fn product(a: u8, b: u8) -> u8
    ensures { result ≡ byte_product a b }
{
    if a == 0 || b == 0 {
        return 0;
    }
    power(logarithm(a) + logarithm(b))
}

/// The inverse: the power 255 of x + 1 is one.
fn inverse_byte(byte: u8) -> u8
    requires { byte ≢ 0 }
    ensures { byte_product byte result ≡ 1 }
{
    power(255 - logarithm(byte))
}

impl Field for F256 {
    ghost use Rattle.small_fields.specs.ScalarsOf.{scalars_of};
    ghost use Rattle.std.proofs.Common.{refl, rules};
    ghost use Rattle.small_fields.specs.Laws.ByteField.{byte_field};
    ghost use Rattle.small_fields.specs.Laws.Made.{same_below};

    const ORDER: u16 = 256;

    ghost ORDER = { 256 };

    ghost scalars = { scalars_of 256 };

    ghost number = { λ x. x.byte };

    ghost lawful = { byte_field };

    ghost order_is = { refl };

    ghost is_scalar = { λ x. x.small };

    ghost same = { λ x y e. same_below 256 (λ n h. record { byte = n; small = h }) x.byte y.byte x.small y.small e };

    ghost equals = { Prim.search rules };

    fn zero() -> Self {
        F256 { byte: 0 }
    }

    fn one() -> Self {
        F256 { byte: 1 }
    }

    fn add(self, other: Self) -> Self {
        F256 {
            byte: self.byte ^ other.byte,
        }
    }

    fn sub(self, other: Self) -> Self {
        F256 {
            byte: self.byte ^ other.byte,
        }
    }

    fn neg(self) -> Self {
        self
    }

    fn mul(self, other: Self) -> Self {
        F256 {
            byte: product(self.byte, other.byte),
        }
    }

    fn inverse(self) -> Option<Self> {
        if self.byte == 0 {
            return None;
        }
        Some(F256 {
            byte: inverse_byte(self.byte),
        })
    }

    fn from_number(n: u16) -> Option<Self> {
        if n < 256 {
            Some(F256 { byte: n as u8 })
        } else {
            None
        }
    }

    fn number(self) -> u16 {
        self.byte as u16
    }
}
