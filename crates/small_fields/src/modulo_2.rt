//! The field of two elements.

use crate::residue::{Prime, Residue};

/// The order 2, as a type.
#[derive(Clone, Copy, Debug, PartialEq, Eq)]
pub struct Two;

impl Prime for Two {
    ghost use Rattle.std.proofs.Common.{lit<};
    ghost use Rattle.small_fields.specs.Laws.Primes.{prime_2};

    const ORDER: u16 = 2;

    ghost ORDER = { 2 };

    ghost prime = { prime_2 };

    ghost fits = { lit< tt };
}

/// A value of the field of two elements: a number modulo 2.
pub type F2 = Residue<Two>;
