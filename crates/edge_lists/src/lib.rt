//! Lists of numbered edges, as pure mathematics.
//!
//! Edges are numbers, and `ends e` is the pair of the ends of the edge e. Lists are compared by how often each number
//! stands in them (`count`), so that a list split, joined or put in another order is an equation between numbers.
//!
//! `specs/` has what contracts cite: how often a number stands in a list, a list without another, graphs and what their
//! edges join (by the labels of `graph_theory`), walks along edges, and disjoint pairs of edges with a common end.
//!
//! `proofs/`: `Occurrences` has the laws of `count`, with the bridges to membership and lists of different members;
//! `ListSplits` and `EachOnce` split a list and make its members different. `Connections` has what edges join and the number
//! of components; `SpanningForests` that each forest is a part of a spanning one, `SameEdges` that forests depend on their edges
//! alone, and `EdgeWalks` that joined vertices have a walk between them.
#![tactic(auto)]
