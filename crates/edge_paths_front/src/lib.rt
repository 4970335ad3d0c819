//! Edge-disjoint paths between terminals of different classes, by disjoint paths of a second graph: [`to_paths`] makes that graph, and
//! [`from_paths`] leads from its paths back.
//!
//! The vertices of the second graph are the darts of the first: dart 2e leaves the first end of edge e, and dart 2e + 1 the second. Each
//! dart is joined to its reverse, and at a vertex that is no terminal all darts that leave it are joined. So a path that comes by one edge
//! goes on by another, and no two paths share an edge. A family of edge-disjoint paths is told by the graph alone, in
//! `edge_path_theory/specs/Darts`. That the largest numbers of both graphs are the same is a law here.
//!
//! The theory stands in `edge_path_theory`. Here `proofs/SecondGraphLaw` says that the second graph, with its names and classes, is the one
//! of the theory, and draws the clauses of [`from_paths`] and of the law from `proofs/ReplyLaw`: the last exits of the paths, in order, are
//! a family as the reply wants it. `EdgeSteps`, `ExitSteps` and `OrderSteps` have the steps of the loops.
#![tactic(auto)]

mod darts;
mod exits;
mod laws;
mod order;
mod reply;
mod second_graph;

pub use laws::both_graphs_have_the_same_largest_number;
pub use reply::from_paths;
pub use second_graph::to_paths;
