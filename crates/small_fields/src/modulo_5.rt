//! The field of five elements.

use crate::residue::{Prime, Residue};

/// The order 5, as a type.
#[derive(Clone, Copy, Debug, PartialEq, Eq)]
pub struct Five;

impl Prime for Five {
    ghost use Rattle.std.proofs.Common.{lit<};
    ghost use Rattle.small_fields.specs.Laws.Primes.{prime_5};

    const ORDER: u16 = 5;

    ghost ORDER = { 5 };

    ghost prime = { prime_5 };

    ghost fits = { lit< tt };
}

/// A value of the field of five elements: a number modulo 5.
pub type F5 = Residue<Five>;
