//! Least feedback vertex sets of cubic graphs by parity problems: [`from_set`] makes one of a largest independent set of the problem of
//! pairs of edges with a common end (`genus_front`).
//!
//! A common end of each pair of the set, and one end of each other edge outside a spanning tree of the edges that are in no pair, meet every
//! cycle. In a connected cubic simple graph with n vertices no feedback set is shorter than n/2 + 1 without the size of a largest set: a
//! feedback set gives so many pairs ([`least_sets_and_largest_sets_add_up`]). Cubic graphs and feedback sets are told by the graph alone.
#![tactic(auto)]

mod cubic;
mod laws;
mod marks;
mod vertices;

pub use cubic::not_cubic;
pub use laws::least_sets_and_largest_sets_add_up;
pub use vertices::from_set;
