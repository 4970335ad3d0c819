//! What is promised of the scalars, as functions that do nothing.
ghost use Rattle.std.specs.Prelude.{◌≡◌};
ghost use Rattle.linear_algebra.specs.Scalars.{IsField};
ghost use Rattle.small_fields.specs.Bytes.{IsRemainder, byte_product, carryless_product};
ghost use Rattle.small_fields.specs.FieldName.{order_of};
ghost use Rattle.small_fields.specs.ScalarsOf.{scalars_of};

use crate::{F2, F3, F5, F251, F256, FieldName};
use field_core::Field;

/// The scalars of each of the five orders meet the laws of a field.
pub fn scalars_form_a_field(name: FieldName)
    ensures { IsField (scalars_of (order_of name)) }
{}

/// The scalars of each field are those of its order.
pub fn scalars_are_of_the_order()
    ensures two { ⟦<F2 as Field>⟧.scalars ≡ scalars_of 2 }
    ensures three { ⟦<F3 as Field>⟧.scalars ≡ scalars_of 3 }
    ensures five { ⟦<F5 as Field>⟧.scalars ≡ scalars_of 5 }
    ensures two_fifty_one { ⟦<F251 as Field>⟧.scalars ≡ scalars_of 251 }
    ensures two_fifty_six { ⟦<F256 as Field>⟧.scalars ≡ scalars_of 256 }
{}

/// The product of two bytes is the remainder of their product as polynomials by
/// x^8 + x^4 + x^3 + x + 1.
pub fn products_of_bytes_are_remainders(a: u8, b: u8)
    ensures { IsRemainder 0x11B (carryless_product 8 a b) (byte_product a b) }
{}
