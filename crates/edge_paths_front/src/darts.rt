//! The darts of a graph.

ghost use Rattle.std.specs.Prelude.{◌≡◌, ◌<◌, ◌+◌, length};
ghost use Rattle.graph_theory.specs.Walks.{edge_at};
ghost use Rattle.path_theory.specs.Classes.{is_terminal};
ghost use Rattle.edge_path_theory.specs.Darts.{reverse_of, tail};
ghost use Rattle.edge_path_theory.specs.SecondGraph.{joins};

use graph_core::Graph;

/// The vertex that a dart leaves.
pub(crate) fn tail(graph: &Graph, dart: usize) -> usize
    requires { dart < length graph.now.ends + length graph.now.ends }
    ensures value { result ≡ tail (edge_at graph.now.ends) dart }
    ensures vertex { result < length graph.now.names }
{
    let ends = graph.ends(dart / 2);
    if dart % 2 == 0 { ends.0 } else { ends.1 }
}

/// The other dart of the same edge.
fn reverse(dart: usize) -> usize
    ensures { result ≡ reverse_of dart }
{
    if dart % 2 == 0 { dart + 1 } else { dart - 1 }
}

/// Whether two darts leave the same vertex, which is no terminal, and aren't reverses.
pub(crate) fn joins(graph: &Graph, dart: usize, other: usize) -> bool
    requires dart { dart < length graph.now.ends + length graph.now.ends }
    requires other { other < length graph.now.ends + length graph.now.ends }
    ensures { result ≡ joins (edge_at graph.now.ends) (is_terminal graph.now.classes) dart other }
{
    let vertex = tail(graph, dart);
    vertex == tail(graph, other) && (graph.class(vertex).is_none() && other != reverse(dart))
}
