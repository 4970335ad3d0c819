//! Rows over a field that are kept packed where the field has two elements.
//!
//! [`KeptRow`] is seen as the list of its numbers, as a plain row over the field is, and each call has the
//! result of the plain one (`field_core`). Where the order is 2 its elements are bits, 64 a word
//! (`packed_rows`): a bit is one exactly where the element is the one of the field (`specs/Kept.antt`).
//! That this keeps sums and products is proved in `proofs/Bits.antt`, from the laws of a field of order 2.
#![tactic(auto)]

mod bit;
mod kept;
mod plain;

pub use kept::{Kept, KeptRow};
