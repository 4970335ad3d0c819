//! From disjoint paths of the second graph to edge-disjoint paths.

ghost use Rattle.std.specs.Prelude.{◌≡◌, ◌<◌, ◌≤◌, ◌+◌, All, IfOk, length, map};
ghost use Rattle.graph_theory.specs.Walks.{edge_at};
ghost use Rattle.path_theory.specs.Classes.{class_of, is_terminal};
ghost use Rattle.path_theory.specs.Families.{IsLargestPathFamily, IsPathFamily};
ghost use Rattle.edge_path_theory.specs.Darts.{IsEdgePathFamily, IsLargestEdgePathFamily};
ghost use Rattle.edge_paths_front.specs.Replies.{darts_along, AreOrderedDarts};
ghost use Rattle.edge_paths_front.specs.SecondGraphs.{second_graph};

use crate::exits::darts_along;
use crate::order::in_order;
use graph_core::{DartLists, Graph, VertexLists};
use std::alloc::{AllocError, Global};

/// Edge-disjoint paths of a graph of at most 32 edges, as many as the disjoint paths of its second graph that are given, and as many as can
/// be where those are. Each leads from its end with the smaller number; they stand by increasing first vertex, and then first dart.
pub fn from_paths(
    alloc: Global,
    graph: &Graph,
    paths: &VertexLists,
) -> Result<DartLists, AllocError>
    requires few { length graph.now.ends ≤ 32 }
    requires family { IsPathFamily (second_graph graph.now).ends (is_terminal (second_graph graph.now).classes)
        (class_of (second_graph graph.now).classes) paths.now }
    ensures family { IfOk result (IsEdgePathFamily (length graph.now.ends) (edge_at graph.now.ends) (is_terminal graph.now.classes)
        (class_of graph.now.classes)) }
    ensures number { IfOk result (λ lists. length lists ≡ length paths.now) }
    ensures ordered { IfOk result (AreOrderedDarts (edge_at graph.now.ends)) }
    ensures largest { IsLargestPathFamily (second_graph graph.now).ends (is_terminal (second_graph graph.now).classes)
        (class_of (second_graph graph.now).classes) paths.now
        → IfOk result (IsLargestEdgePathFamily (length graph.now.ends) (edge_at graph.now.ends) (is_terminal graph.now.classes)
        (class_of graph.now.classes)) }
{
    let found = all_along(alloc, graph, paths)?;
    in_order(alloc, graph, &found)
}

/// The last exits of each path.
fn all_along(alloc: Global, graph: &Graph, paths: &VertexLists) -> Result<DartLists, AllocError>
    requires few { length graph.now.ends ≤ 32 }
    requires some { All (λ vs. 0 < length vs) paths.now }
    requires darts { All (λ vs. All (λ d. d < length graph.now.ends + length graph.now.ends) vs) paths.now }
    ensures { IfOk result (λ lists. lists ≡ map (darts_along (edge_at graph.now.ends)) paths.now) }
{
    let mut found = DartLists::new(alloc);
    for i in 0..paths.len() {
        let darts = darts_along(alloc, graph, paths.at(i))?;
        found.push(&darts)?;
    }
    Ok(found)
}
