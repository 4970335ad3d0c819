//! The cographic vectors of a connected graph: [`represent`].
//!
//! An edge has an entry for each edge outside a spanning tree: one where it is in the fundamental cycle of that edge, which is that edge
//! and the path of the tree between its ends (`specs/CographicRows.antt`). A list of edges has independent vectors exactly where its edges
//! are different and the graph without them is connected (L. Lovász and M. D. Plummer, Matching Theory, chapter 11).
#![tactic(auto)]

mod cycles;
mod marks;
mod vectors;

pub use vectors::represent;
