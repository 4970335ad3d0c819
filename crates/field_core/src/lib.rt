//! Finite fields as a trait, and rows and lists of rows over them.
//!
//! A value of a [`Field`] is known by its number, which is below the order. The trait owes the laws of a
//! field for the scalars that its sums and products are defined on (`IsField` in `linear_algebra`), so that
//! generic code is proved from these laws alone. [`Row`] is seen as the list of its numbers, [`Rows`] as a
//! width and a list of such lists (`specs/Matrix.antt`). [`axpy`], [`scale`] and [`is_zero`] meet the
//! definitions of sums, multiples and the zero vector. The invariants of their loops stand in `proofs/`, in
//! the folder of each function.
#![tactic(auto)]

mod field;
mod row;
mod rows;
mod vectors;

pub use field::Field;
pub use row::Row;
pub use rows::Rows;
pub use vectors::{axpy, is_zero, scale};
