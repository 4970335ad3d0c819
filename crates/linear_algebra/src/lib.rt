//! Linear algebra over a finite field, on lists of numbers: the definitions that contracts cite, and their laws.
//!
//! `specs/` defines scalars (`Scalars`, `IsField`), vectors (`IsVector`, `vector_sum`, `multiple`),
//! spans (`combination`, `InSpan`, `IsIndependent`) and ranks (`rank`, `rank_over`). A scalar is a number
//! below the order, and a vector of length d is a list of d scalars.
//!
//! The functions here have no code: the contract of each is a law of these definitions. `proofs/` carries
//! the laws over from `vector_spaces`, by reading vectors as tuples and back, and has more of them for the
//! proofs of the crates above: `Combinations`, `SpanLaws`, `IndependenceLaws`, `RankLaws`.
#![tactic(auto)]

mod laws;

pub use laws::{added_rank_is_of_the_spans, exchange_lemma, rank_is_greatest, rank_is_of_the_span};
