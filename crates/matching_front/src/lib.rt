//! Maximum matchings by parity problems: [`to_parity`] makes the problem of a graph, and [`from_set`] the matching of an independent set.
//!
//! Each vertex has a coordinate, and the line of an edge has the unit vectors of its two ends (L. Lovász and M. D. Plummer, Matching
//! Theory, chapter 11). A matching is told by the graph alone (`graph_theory/specs/Matchings`). That independent sets are the matchings is
//! a law of `graph_problems`.
#![tactic(auto)]

mod conversion;
mod matching;

pub use conversion::to_parity;
pub use matching::from_set;
