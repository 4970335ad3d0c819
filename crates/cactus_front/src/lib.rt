//! Largest triangle cacti by parity problems: [`to_parity`] makes the problem of a graph, and [`from_set`] the cactus of an independent set.
//!
//! Each vertex has a coordinate, and the line of a triangle a, b, c has the sums a + b and b + c of unit vectors over two elements (L. Lovász
//! and M. D. Plummer, Matching Theory, chapter 11). A cactus is told by the graph alone (`graph_theory/specs/Cacti`). That independent sets
//! are the cacti is a law of `graph_problems`.
#![tactic(auto)]

mod cactus;
mod conversion;

pub use cactus::from_set;
pub use conversion::to_parity;
