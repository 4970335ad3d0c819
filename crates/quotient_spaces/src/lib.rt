//! Vectors modulo a point, as pure mathematics: the vectors of length d + 1 modulo the multiples of a vector p
//! that isn't zero are the vectors of length d. It stands apart from `linear_algebra`, since only what divides by
//! a point cites it: `quotients`, `families`, `problem_quotients` and `classes`.
//!
//! At a coordinate i where p isn't zero, the projection of v is v plus the multiple of p that clears coordinate i,
//! without that coordinate, and a vector of length d is lifted by putting zero in there.
//! The functions here have no code: the contract of each is a law. `specs/` defines projections and lifts on lists
//! of numbers (`IsProjection`, `AreProjections`, `lifted`); `proofs/` proves of them that spans, independence and
//! ranks of the projections are those of the vectors with p put in front (`ProjectionLaws`), from the quotients of
//! `vector_spaces`.
#![tactic(auto)]

mod laws;

pub use laws::{projections_are_modulo_the_point, projections_are_unique};
