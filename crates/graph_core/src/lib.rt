//! Graphs with named vertices: edges with two ends, loops and parallel edges among them, and classes of vertices.
//!
//! [`Graph`] is seen as its names, the ends of its edges and the classes of its vertices (`NamedGraph` in `specs/NamedGraphs.antt`),
//! and the five lists as lists of numbers, of pairs and of lists. Components, the spanning forest, the path in a forest, triangles and
//! pairs of edges are stated by `graph_theory/specs`, over the list of ends; `specs/Adjacency.antt` says what the pairs of edges are.
//! `specs/Gathered.antt`, `LabelLists.antt` and `Ways.antt` have what the private functions cite.
#![tactic(auto)]

mod adjacent_pairs;
mod components;
mod dart_lists;
mod edge_list;
mod edge_pairs;
mod graph;
mod neighbours;
mod path;
mod triangles;
mod vertex_list;
mod vertex_lists;
mod ways;

pub use dart_lists::DartLists;
pub use edge_list::EdgeList;
pub use edge_pairs::EdgePairs;
pub use graph::Graph;
pub use vertex_list::VertexList;
pub use vertex_lists::VertexLists;
