//! From an independent set of lines to a feedback set.

ghost use Rattle.std.specs.Prelude.{◌≤◌, ◌+◌, ◌/◌, IfOk, length};
ghost use Rattle.small_fields.specs.ScalarsOf.{scalars_of};
ghost use Rattle.parity_lines.specs.LineSets.{IsIndependentSet, IsLargest};
ghost use Rattle.graph_theory.specs.Walks.{edge_at};
ghost use Rattle.edge_lists.specs.Connections.{IsConnected};
ghost use Rattle.edge_lists.specs.EdgeNumbers.{edge_numbers};
ghost use Rattle.genus_front.specs.GenusProblems.{OfGenusProblem};
ghost use Rattle.cubic_front.specs.CubicGraphs.{IsCubic};
ghost use Rattle.cubic_front.specs.FeedbackVertexSets.{IsFeedbackVertexSet, IsLeastFeedbackVertexSet};

use crate::marks::{common_ends, in_order, push_first_ends};
use genus_front::{all_edges, edges_of, outside, spanning_forest};
use graph_core::{Graph, VertexList};
use parity_lines::LineSet;
use std::alloc::{AllocError, Global};

/// A feedback set of a connected cubic simple graph with n vertices, one or more, from an independent set of the problem of
/// `genus_front::to_parity`: with the lines of the set it has at most n/2 + 1 members. It has a common end of each pair of the set, and one
/// end of each other edge outside a spanning tree of the edges that are in no pair. Where the set is largest, no feedback set is shorter.
pub fn from_set(alloc: Global, graph: &Graph, set: &LineSet) -> Result<VertexList, AllocError>
    requires connected { IsConnected (edge_at graph.now.ends) (length graph.now.names) (edge_numbers graph.now.ends) }
    requires cubic { IsCubic (length graph.now.names) graph.now.ends }
    requires vertices { 1 ≤ length graph.now.names }
    requires set { OfGenusProblem (scalars_of 2) graph.now.ends (λ p. IsIndependentSet (scalars_of 2) p set.now) }
    ensures feedback { IfOk result (IsFeedbackVertexSet (length graph.now.names) graph.now.ends) }
    ensures size { IfOk result (λ X. length X + length set.now ≤ length graph.now.names / 2 + 1) }
    ensures least { OfGenusProblem (scalars_of 2) graph.now.ends (λ p. IsLargest (scalars_of 2) p set.now)
        → IfOk result (IsLeastFeedbackVertexSet (length graph.now.names) graph.now.ends) }
{
    let vertices = graph.vertices();
    let pairs = graph.adjacent_pairs(alloc)?;
    let taken = edges_of(alloc, &pairs, set)?;
    let others = outside(alloc, &all_edges(alloc, graph)?, &taken)?;
    let tree = spanning_forest(alloc, graph, &others)?;
    let rest = outside(alloc, &others, &tree)?;
    let mut marks = common_ends(alloc, graph, &pairs, set)?;
    push_first_ends(&mut marks, graph, &rest)?;
    in_order(alloc, vertices, &marks)
}
