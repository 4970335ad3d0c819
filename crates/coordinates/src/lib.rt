//! Bases of the vectors of one length over a finite field, and coordinates over them, as pure mathematics on lists of
//! numbers.
//!
//! `specs/Bases.antt` says what a basis is (`IsBasis`), what the unit vectors are, and what becomes of coordinates where
//! a vector of a basis is replaced (`IsPivoted`). The functions here have no code: the contract of each is a law.
//! `proofs/` has them, for the proofs of the crates above: `Replacements` and `Pivots`, `Swaps`, `Carries`, `Units`, `Coordinates`,
//! and, of what stands behind the first k coordinates, `Tails` and `IndependentTails`.
#![tactic(auto)]

mod carrying;
mod laws;

pub use carrying::a_vector_is_carried;
pub use laws::{
    a_vector_replaces_another, coordinates_are_unique, tails_tell_what_the_front_spans,
    two_vectors_change_places, unit_vectors_are_a_basis,
};
