//! Feedback vertex sets of graphs with at most three edges at each vertex, as pure mathematics.
//!
//! A set of vertices is a feedback set where it meets every cycle (`specs/FeedbackSets`), and in a simple graph that is so
//! exactly where a forest is left without it (`Cycles`). In a connected graph with at most three edges at each vertex the least
//! size of one and the largest number of disjoint pairs of adjacent edges, without which the graph is connected, add up to the
//! cycle rank: `LeastFeedbackSets` carries the theorem (`least_feedback`), and `LeastOfLargest` the same from a largest
//! independent set of lines, with the number for cubic graphs.
//!
//! `FeedbackOfPairs` is the first half, a set from pairs. For the second, `FeedbackReduction` makes a set smaller until each
//! vertex of it is a mark, with two edges into one component of the rest (`Marks`); `MarkedTrees` has a tree with the first edge
//! of each mark, and `PairsOfFeedback` pairs each edge that is left with a second one. `Outside` and `LeadingEdges` have the edges
//! with no end in a set and edges by their ends, and `Degrees` counts edges at vertices.
#![tactic(auto)]
