//! The field of three elements.

use crate::residue::{Prime, Residue};

/// The order 3, as a type.
#[derive(Clone, Copy, Debug, PartialEq, Eq)]
pub struct Three;

impl Prime for Three {
    ghost use Rattle.std.proofs.Common.{lit<};
    ghost use Rattle.small_fields.specs.Laws.Primes.{prime_3};

    const ORDER: u16 = 3;

    ghost ORDER = { 3 };

    ghost prime = { prime_3 };

    ghost fits = { lit< tt };
}

/// A value of the field of three elements: a number modulo 3.
pub type F3 = Residue<Three>;
