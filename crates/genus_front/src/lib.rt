//! Rotations of largest genus by parity problems: [`to_parity`] makes the problem of a connected graph, and [`from_set`] the rotation of an
//! independent set.
//!
//! Each pair of edges with a common end is the line of the cographic vectors of the two. A set of lines is independent exactly where its
//! pairs have no common edge and the graph without their edges is connected; put into a rotation of a spanning tree of the other edges,
//! each pair makes the genus one larger. Conversely a rotation of genus g gives g such pairs, so the largest size is the maximum genus
//! ([`largest_sets_have_the_size_of_the_maximum_genus`]; N. H. Xuong; L. Lovász and M. D. Plummer, Matching Theory, chapter 11). Genus and
//! rotations are told by the graph alone (`rotation_theory/specs`).
//!
//! The lists of edges that this needs stand apart, for other problems of pairs: [`all_edges`], [`edges_of`] the pairs of a set, those
//! [`outside`] a list, and a [`spanning_forest`].
#![tactic(auto)]

mod conversion;
mod forests;
mod growth;
mod laws;
mod lists;
mod system;

pub use conversion::to_parity;
pub use forests::spanning_forest;
pub use laws::largest_sets_have_the_size_of_the_maximum_genus;
pub use lists::{all_edges, edges_of, outside};
pub use system::from_set;
