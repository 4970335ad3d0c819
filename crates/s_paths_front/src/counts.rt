//! How many vertices are terminals, and how many components have none.

ghost use Rattle.std.specs.Prelude.{◌≡◌, ◌≤◌, ◌<◌, ◌&&◌, ℕ, IfOk, length, not, slice_index};
ghost use Rattle.graph_theory.specs.Counts.{count, is_root};
ghost use Rattle.graph_theory.specs.Labels.{label};
ghost use Rattle.path_theory.specs.Classes.{is_terminal};
ghost use Rattle.path_theory.specs.Terminals.{free_components, is_terminal_with, some_below};

use graph_core::{Graph, VertexList};
use std::alloc::{AllocError, Global};

/// How many vertices are terminals.
pub(crate) fn terminals(graph: &Graph) -> usize
    ensures value { result ≡ count (length graph.now.names) (is_terminal graph.now.classes) }
    ensures most { result ≤ length graph.now.names }
{
    let mut found = 0;
    for vertex in 0..graph.vertices() {
        if graph.class(vertex).is_some() {
            found += 1;
        }
    }
    found
}

/// How many components have no terminal.
pub(crate) fn free_components(alloc: Global, graph: &Graph) -> Result<usize, AllocError>
    ensures { IfOk result (λ free. free ≡ free_components (length graph.now.names) (is_terminal graph.now.classes) graph.now.ends) }
{
    let labels = graph.components(alloc)?;
    Ok(free_roots(graph, &labels))
}

/// How many vertices are their own labels, and no terminal has the same.
fn free_roots(graph: &Graph, labels: &VertexList) -> usize
    requires count { length labels.now ≡ length graph.now.names }
    requires labels { (v : ℕ) → v < length graph.now.names → slice_index labels.now v ≡ label graph.now.ends v }
    ensures { result ≡ free_components (length graph.now.names) (is_terminal graph.now.classes) graph.now.ends }
{
    let mut free = 0;
    for vertex in 0..graph.vertices() {
        if is_free_root(graph, labels, vertex) {
            free += 1;
        }
    }
    free
}

/// Whether the vertex is its own label, and no terminal has the same.
fn is_free_root(graph: &Graph, labels: &VertexList, vertex: usize) -> bool
    requires vertex { vertex < length graph.now.names }
    requires count { length labels.now ≡ length graph.now.names }
    requires labels { (v : ℕ) → v < length graph.now.names → slice_index labels.now v ≡ label graph.now.ends v }
    ensures { result ≡ (is_root graph.now.ends vertex
        && not (some_below (length graph.now.names) (is_terminal_with (is_terminal graph.now.classes) graph.now.ends vertex))) }
{
    labels.at(vertex) == vertex && !has_terminal(graph, labels, vertex)
}

/// Whether a vertex with the label of the given one is a terminal.
fn has_terminal(graph: &Graph, labels: &VertexList, root: usize) -> bool
    requires root { root < length graph.now.names }
    requires count { length labels.now ≡ length graph.now.names }
    requires labels { (v : ℕ) → v < length graph.now.names → slice_index labels.now v ≡ label graph.now.ends v }
    ensures { result ≡ some_below (length graph.now.names) (is_terminal_with (is_terminal graph.now.classes) graph.now.ends root) }
{
    for vertex in 0..graph.vertices() {
        if is_terminal_with(graph, labels, root, vertex) {
            return true;
        }
    }
    false
}

/// Whether the vertex is a terminal with the label of the given one.
fn is_terminal_with(graph: &Graph, labels: &VertexList, root: usize, vertex: usize) -> bool
    requires root { root < length graph.now.names }
    requires vertex { vertex < length graph.now.names }
    requires count { length labels.now ≡ length graph.now.names }
    requires labels { (v : ℕ) → v < length graph.now.names → slice_index labels.now v ≡ label graph.now.ends v }
    ensures { result ≡ is_terminal_with (is_terminal graph.now.classes) graph.now.ends root vertex }
{
    graph.class(vertex).is_some() && labels.at(vertex) == labels.at(root)
}
