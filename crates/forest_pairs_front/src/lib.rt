//! Pairs of edges by parity problems: [`forest_problem`] makes the problem of the pairs whose edges have no cycle, [`spare_problem`] that
//! of the pairs without which a connected graph stays connected, and [`write_pairs`] writes a list of pairs.
//!
//! Pair i, from 0, has the edges 2i and 2i + 1, and a last edge without a partner stands in none. The line of a pair has the vectors of its
//! two edges: the sums of the unit vectors of their ends, or their cographic vectors (L. Lovász and M. D. Plummer, Matching Theory, chapter
//! 11). A list of pairs is told by the graph alone (`specs/ListedPairs.antt`). That independent sets are the forests of pairs, or the spare
//! ones, is a law ([`forests_are_independent_sets`], [`spare_pairs_are_independent_sets`]).
#![tactic(auto)]

mod forests;
mod laws;
mod spares;
mod writing;

pub use forests::forest_problem;
pub use laws::{forests_are_independent_sets, spare_pairs_are_independent_sets};
pub use spares::spare_problem;
pub use writing::write_pairs;
