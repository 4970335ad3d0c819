//! From a path of the second graph to a path of darts.

ghost use Rattle.std.specs.Prelude.{◌≡◌, ◌<◌, ◌≤◌, ◌+◌, ℕ, All, IfOk, drop, length, reverse};
ghost use Rattle.graph_theory.specs.Walks.{edge_at};
ghost use Rattle.edge_path_theory.specs.Exits.{leaves, path_of_list};
ghost use Rattle.edge_paths_front.specs.Replies.{darts_along, exits_along};

use crate::darts::tail;
use graph_core::{Graph, VertexList};
use std::alloc::{AllocError, Global};

/// The last exits of a path of the second graph, from its end where it leaves the smaller vertex.
pub(crate) fn darts_along(
    alloc: Global,
    graph: &Graph,
    path: &VertexList,
) -> Result<Vec<u32>, AllocError>
    requires few { length graph.now.ends ≤ 32 }
    requires some { 0 < length path.now }
    requires darts { All (λ d. d < length graph.now.ends + length graph.now.ends) path.now }
    ensures { IfOk result (λ darts. darts.items ≡ darts_along (edge_at graph.now.ends) path.now) }
{
    let first = tail(graph, path.at(0));
    let last = tail(graph, path.at(path.len() - 1));
    if last < first {
        exits_along(alloc, graph, &reversed(alloc, path)?)
    } else {
        exits_along(alloc, graph, path)
    }
}

/// The path from its end.
fn reversed(alloc: Global, path: &VertexList) -> Result<VertexList, AllocError>
    ensures { IfOk result (λ list. list ≡ reverse path.now) }
{
    let mut list = VertexList::new(alloc);
    for i in 0..path.len() {
        list.push(path.at(path.len() - 1 - i))?;
    }
    Ok(list)
}

/// The last dart that leaves the first vertex, the last one that leaves the vertex where that one arrives, and so on.
fn exits_along(alloc: Global, graph: &Graph, path: &VertexList) -> Result<Vec<u32>, AllocError>
    requires few { length graph.now.ends ≤ 32 }
    requires some { 0 < length path.now }
    requires darts { All (λ d. d < length graph.now.ends + length graph.now.ends) path.now }
    ensures { IfOk result (λ darts. darts.items ≡ exits_along (edge_at graph.now.ends) (path_of_list path.now)) }
{
    let mut darts = Vec::new(alloc);
    let mut vertex = tail(graph, path.at(0));
    for i in 1..path.len() {
        if !leaves(graph, vertex, path, i) {
            darts.push(path.at(i - 1) as u32)?;
            vertex = tail(graph, path.at(i));
        }
    }
    Ok(darts)
}

/// Whether one of the darts from an index on leaves the vertex.
fn leaves(graph: &Graph, vertex: usize, path: &VertexList, from: usize) -> bool
    requires from { from ≤ length path.now }
    requires darts { All (λ d. d < length graph.now.ends + length graph.now.ends) path.now }
    ensures { result ≡ leaves (edge_at graph.now.ends) vertex (drop from path.now) }
{
    for i in from..path.len() {
        if tail(graph, path.at(i)) == vertex {
            return true;
        }
    }
    false
}
