//! Cographic vectors of a graph, as pure mathematics.
//!
//! Over the field of two elements, the cographic vector of an edge x has an entry for each edge g outside a spanning forest: one
//! where x stands in the fundamental cycle of g, which is g and the path of the forest between its ends.
//!
//! `CographicVectors` carries the law: vectors of edges are independent exactly where the edges are different and the graph
//! without them connects what it connected (`independent_of_connected`, `connected_of_independent`). `Cuts` proves its core, that
//! what is even on the fundamental cycles is a cut, and `CographicRelations` ties coefficients of vectors to sums over edges;
//! `TwoElements` has numbers modulo two as scalars. `CographicTuples` gives each graph such vectors, in tuples.
//!
//! `PairLines` is about lines of the two vectors of adjacent edges: independent sets are disjoint pairs without which the graph is
//! connected, and largest ones are as large as the largest number of such pairs (`most_of_largest`, `largest_of_most`).
#![tactic(auto)]
