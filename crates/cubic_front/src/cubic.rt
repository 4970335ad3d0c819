//! Whether a graph is cubic and simple.

ghost use Rattle.std.specs.Prelude.{◌≡◌, ◌≢◌, ◌<◌, ◌≤◌, ◌↔◌, [], ◌∷◌, IsTrue, IfSome, IfNone, length, take};
ghost use Rattle.graph_theory.specs.Walks.{edge_at};
ghost use Rattle.edge_lists.specs.Occurrences.{count};
ghost use Rattle.cubic_front.specs.CubicGraphs.{IsCubic, IsCubicAt, way_from, ways_from};

use graph_core::Graph;

/// The first vertex that isn't the end of exactly three edges which lead to three different other vertices; None exactly where the graph
/// is cubic and simple.
pub fn not_cubic(graph: &Graph) -> Option<usize>
    ensures first { IfSome result (λ v. (v < length graph.now.names) × ¬ (IsCubicAt graph.now.ends v) × IsCubic v graph.now.ends) }
    ensures none { IfNone result (IsCubic (length graph.now.names) graph.now.ends) }
{
    for vertex in 0..graph.vertices() {
        if !is_cubic(graph, vertex) {
            return Some(vertex);
        }
    }
    None
}

/// Whether the vertex is the end of exactly three edges which lead to three different other vertices.
fn is_cubic(graph: &Graph, vertex: usize) -> bool
    ensures { IsTrue result ↔ IsCubicAt graph.now.ends vertex }
{
    let mut found: usize = 0;
    for edge in 0..graph.edges() {
        if let Some(other) = way(graph, edge, vertex) {
            if !is_new(graph, edge, vertex, other) {
                return false;
            }
            found += 1;
        }
    }
    found == 3
}

/// Whether the other vertex is another one, to which none of the first edges leads from the vertex.
fn is_new(graph: &Graph, edges: usize, vertex: usize, other: usize) -> bool
    requires { edges ≤ length graph.now.ends }
    ensures { IsTrue result ↔ ((other ≢ vertex) × (count other (ways_from vertex (take edges graph.now.ends)) ≡ 0)) }
{
    other != vertex && !leads(graph, edges, vertex, other)
}

/// Whether one of the first edges leads from the vertex to the other.
fn leads(graph: &Graph, edges: usize, vertex: usize, other: usize) -> bool
    requires { edges ≤ length graph.now.ends }
    ensures { IsTrue result ↔ (1 ≤ count other (ways_from vertex (take edges graph.now.ends))) }
{
    for edge in 0..edges {
        if way(graph, edge, vertex) == Some(other) {
            return true;
        }
    }
    false
}

/// Where the edge leads from the vertex, None where the vertex is no end of it.
fn way(graph: &Graph, edge: usize, vertex: usize) -> Option<usize>
    requires { edge < length graph.now.ends }
    ensures some { IfSome result (λ w. way_from vertex (edge_at graph.now.ends edge) ≡ w ∷ []) }
    ensures none { IfNone result (way_from vertex (edge_at graph.now.ends edge) ≡ []) }
{
    let (first, second) = graph.ends(edge);
    if first == vertex {
        return Some(second);
    }
    if second == vertex {
        return Some(first);
    }
    None
}
