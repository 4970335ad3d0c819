//! Vectors over the field of two elements, 64 elements a word.
//!
//! [`PackedF2`] is seen as the list of its elements, as a plain row over the field is, and each call has the
//! result of the plain one (`field_core`), for every length.
#![tactic(auto)]

mod carrying;
mod lanes;
mod packed;
#[cfg(test)]
mod tests;

pub use packed::PackedF2;
