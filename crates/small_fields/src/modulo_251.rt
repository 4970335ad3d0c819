//! The field of 251 elements.

use crate::residue::{Prime, Residue};

/// The order 251, as a type.
#[derive(Clone, Copy, Debug, PartialEq, Eq)]
pub struct TwoFiftyOne;

impl Prime for TwoFiftyOne {
    ghost use Rattle.std.proofs.Common.{lit<};
    ghost use Rattle.small_fields.specs.Laws.Primes.{prime_251};

    const ORDER: u16 = 251;

    ghost ORDER = { 251 };

    ghost prime = { prime_251 };

    ghost fits = { lit< tt };
}

/// A value of the field of 251 elements: a number modulo 251.
pub type F251 = Residue<TwoFiftyOne>;
