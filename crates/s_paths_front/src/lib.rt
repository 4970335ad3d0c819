//! Disjoint paths between terminals of different classes by parity problems: [`to_parity`] makes the problem of a graph and its offset, and
//! [`from_set`] the paths of an independent set.
//!
//! A vertex in a class is a terminal. A terminal has one coordinate and another vertex two, and the line of an edge has the pairs (1, 0)
//! and (0, 1) at its first end less the same at its second (A. Schrijver's reduction of Mader's problem). A family of paths is told by the
//! graph alone (`path_theory/specs/Families`). That independent sets are forests with few terminals is a law of `graph_problems`.
#![tactic(auto)]

mod conversion;
mod counts;
mod pair_vectors;
mod paths;

pub use conversion::{Converted, to_parity};
pub use paths::from_set;
