//! The fields of 2, 3, 5, 251 and 256 elements, each an implementation of [`field_core::Field`], and
//! their names.
//!
//! The scalars of a field are the numbers below its order. Of order 256 they are bytes, read as polynomials
//! over two elements: a sum is an exclusive or, and a product is the carry-less product, reduced by
//! x^8 + x^4 + x^3 + x + 1. Of the other orders, sums and products are taken modulo the order. `scalars_of` in
//! `specs/ScalarsOf.antt` says both.
//!
//! Beyond the clauses of `Field`, three functions that do nothing carry what is proved of the scalars:
//!
//! - [`scalars_form_a_field`]: the scalars of each of the five orders meet the laws of a field;
//! - [`scalars_are_of_the_order`]: the scalars of each type here are those of its order;
//! - [`products_of_bytes_are_remainders`]: the product of bytes is a remainder by the polynomial.
//!
//! The laws are proved in `specs/Laws`: `ModularField` modulo any prime, and `ByteField` for bytes, from the
//! products of powers of x, which the check computes. `proofs/` has the proofs of the functions.
#![tactic(auto)]

mod byte;
mod byte_tables;
mod field_name;
mod laws;
mod modulo_2;
mod modulo_251;
mod modulo_3;
mod modulo_5;
mod residue;

pub use byte::F256;
pub use field_name::FieldName;
pub use laws::{products_of_bytes_are_remainders, scalars_are_of_the_order, scalars_form_a_field};
pub use modulo_2::{F2, Two};
pub use modulo_3::{F3, Three};
pub use modulo_5::{F5, Five};
pub use modulo_251::{F251, TwoFiftyOne};
pub use residue::{Prime, Residue};
