//! The numbers modulo a prime.
ghost use Rattle.std.specs.Prelude.{◌≡◌, ◌*◌, ◌%◌, ◌<◌, ℕ};
ghost use Rattle.small_fields.specs.Prime.{IsPrime};

use field_core::Field;
use std::alloc::AllocError;
use std::fmt::Debug;
use std::marker::PhantomData;

/// A prime order that fits a byte, as a type.
pub trait Prime: Copy + Eq + Debug {
    /// The order.
    const ORDER: u16;

    ghost ORDER: { ℕ };

    ghost prime: { IsPrime ORDER };

    ghost fits: { ORDER < 256 };
}

/// A number modulo the order of `P`.
#[derive(Debug, PartialEq, Eq)]
pub struct Residue<P: Prime> {
    value: u8,
    of: PhantomData<P>,
    ghost small: { value < P.ORDER },
}

impl<P: Prime> Clone for Residue<P> {
    ghost use Rattle.std.specs.Prelude.{⊤};

    ghost is_clone = { λ x y. y ≡ x };

    ghost is_infallible = { λ _. ⊤ };

    fn clone(&self) -> Result<Self, AllocError> {
        Ok(*self)
    }
}

impl<P: Prime> Copy for Residue<P> {}

impl<P: Prime> Residue<P> {
    fn new(value: u16) -> Self
        requires { value < P.ORDER }
        ensures { result.value ≡ value }
    {
        Residue {
            value: value as u8,
            of: PhantomData,
        }
    }
}

/// What the product with `value` makes one, modulo `order`.
///
/// While `factor * value` is `rest`, and `order` is `quotient * rest` and a smaller rest, minus
/// `quotient * factor` times `value` is that smaller rest. A prime leaves no rest of zero, so the rest
/// comes down to one.
fn inverse_modulo(value: u16, order: u16) -> u16
    requires prime { IsPrime order }
    requires fits { order < 256 }
    requires not_zero { 0 < value }
    requires small { value < order }
    ensures small { result < order }
    ensures inverse { (value * result) % order ≡ 1 }
{
    let mut rest = value;
    let mut factor = 1;
    while rest > 1 {
        let quotient = order / rest;
        factor = order - (quotient * factor) % order;
        rest = order % rest;
    }
    factor
}

impl<P: Prime> Field for Residue<P> {
    ghost use Rattle.small_fields.specs.Modular.{modulo};
    ghost use Rattle.std.proofs.Common.{refl, rules};
    ghost use Rattle.small_fields.specs.Laws.Made.{same_below};
    ghost use Rattle.small_fields.specs.Laws.ModularField.{modular_field};

    const ORDER: u16 = P::ORDER;

    ghost ORDER = { P.ORDER };

    ghost scalars = { modulo P.ORDER };

    ghost number = { λ x. x.value };

    ghost lawful = { modular_field P.ORDER P.prime };

    ghost order_is = { refl };

    ghost is_scalar = { λ x. x.small };

    ghost same = { λ x y e. same_below P.ORDER (λ n h. record { value = n; of = x.of; small = h }) x.value y.value x.small y.small e };

    ghost equals = { Prim.search rules };

    fn zero() -> Self {
        Residue::new(0)
    }

    fn one() -> Self {
        Residue::new(1)
    }

    fn add(self, other: Self) -> Self {
        let sum = self.value as u16 + other.value as u16;
        let reduced = if sum < P::ORDER { sum } else { sum - P::ORDER };
        Residue::new(reduced)
    }

    fn sub(self, other: Self) -> Self {
        let raised = if self.value < other.value {
            P::ORDER
        } else {
            0
        };
        let difference = self.value as u16 + raised - other.value as u16;
        Residue::new(difference)
    }

    fn neg(self) -> Self {
        if self.value == 0 {
            return self;
        }
        let negative = P::ORDER - self.value as u16;
        Residue::new(negative)
    }

    fn mul(self, other: Self) -> Self {
        let product = (self.value as u16 * other.value as u16) % P::ORDER;
        Residue::new(product)
    }

    fn inverse(self) -> Option<Self> {
        if self.value == 0 {
            return None;
        }
        let inverse = inverse_modulo(self.value as u16, P::ORDER);
        Some(Residue::new(inverse))
    }

    fn from_number(n: u16) -> Option<Self> {
        if n >= P::ORDER {
            return None;
        }
        Some(Residue::new(n))
    }

    fn number(self) -> u16 {
        self.value as u16
    }
}
