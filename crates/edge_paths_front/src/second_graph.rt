//! From a graph to its second graph.

ghost use Rattle.std.specs.Prelude.{◌≡◌, ◌<◌, ◌≤◌, ◌+◌, ◌-◌, [], IfOk, OnOk, length, map};
ghost use Rattle.std.specs.Fmt.{decimal};
ghost use Rattle.graph_theory.specs.Numbers.{numbers_from};
ghost use Rattle.graph_theory.specs.Walks.{edge_at};
ghost use Rattle.path_theory.specs.Classes.{is_terminal};
ghost use Rattle.edge_path_theory.specs.SecondGraph.{later, others, reverses};
ghost use Rattle.edge_paths_front.specs.SecondGraphs.{class_left, darts, second_graph, with_dart, with_edges};

use crate::darts::{joins, tail};
use graph_core::Graph;
use itoa::Buffer;
use std::alloc::{AllocError, Global};

/// The second graph of a graph of at most 32 edges. Its vertices are the darts, named by their decimals, each in the class of the vertex
/// that it leaves. Its edges are those between a dart and its reverse, by edge, and then, in lexicographic order, those between two other
/// darts that leave the same vertex, which is no terminal.
pub fn to_paths(alloc: Global, graph: &Graph) -> Result<Graph, AllocError>
    requires { length graph.now.ends ≤ 32 }
    ensures { IfOk result (λ second. second ≡ second_graph graph.now) }
{
    let mut second = lone_darts(alloc, graph)?;
    put_reverses(&mut second, graph)?;
    put_others(&mut second, graph)?;
    Ok(second)
}

/// The graph of the darts, with no edge.
fn lone_darts(alloc: Global, graph: &Graph) -> Result<Graph, AllocError>
    requires { length graph.now.ends ≤ 32 }
    ensures { IfOk result (λ second. second ≡ record {
      names = map decimal (darts (length graph.now.ends));
      ends = [];
      classes = map (class_left graph.now) (darts (length graph.now.ends));
    }) }
{
    let mut second = Graph::new(alloc);
    for dart in 0..2 * graph.edges() {
        put_dart(&mut second, dart, graph.class(tail(graph, dart)))?;
    }
    Ok(second)
}

/// Puts the vertex of a dart last, in a class or in none.
fn put_dart(second: &mut Graph, dart: usize, class: Option<u32>) -> Result<(), AllocError>
    requires names { second.old.names ≡ map decimal (numbers_from 0 dart) }
    requires classes { length second.old.classes ≡ dart }
    ensures { OnOk result (second.new ≡ with_dart second.old dart class) }
{
    let mut buffer = Buffer::new();
    second.vertex(buffer.format(dart).as_bytes())?;
    if let Some(class) = class {
        second.put_class(dart, class);
    }
    Ok(())
}

/// Puts the edges between a dart and its reverse last, by edge.
fn put_reverses(second: &mut Graph, graph: &Graph) -> Result<(), AllocError>
    requires { length second.old.names ≡ length graph.now.ends + length graph.now.ends }
    ensures { OnOk result (second.new ≡ with_edges second.old (reverses (length graph.now.ends))) }
{
    for edge in 0..graph.edges() {
        second.edge(2 * edge, 2 * edge + 1)?;
    }
    Ok(())
}

/// Puts the edges between darts that leave the same vertex last, in lexicographic order.
fn put_others(second: &mut Graph, graph: &Graph) -> Result<(), AllocError>
    requires { length second.old.names ≡ length graph.now.ends + length graph.now.ends }
    ensures { OnOk result (second.new ≡ with_edges second.old (others (edge_at graph.now.ends) (is_terminal graph.now.classes) 0
        (length graph.now.ends + length graph.now.ends))) }
{
    for dart in 0..2 * graph.edges() {
        put_later(second, graph, dart)?;
    }
    Ok(())
}

/// Puts the edges between a dart and later ones that leave the same vertex last.
fn put_later(second: &mut Graph, graph: &Graph, dart: usize) -> Result<(), AllocError>
    requires names { length second.old.names ≡ length graph.now.ends + length graph.now.ends }
    requires dart { dart < length graph.now.ends + length graph.now.ends }
    ensures { OnOk result (second.new ≡ with_edges second.old (later (edge_at graph.now.ends) (is_terminal graph.now.classes) dart
        (length graph.now.ends + length graph.now.ends - (dart + 1)))) }
{
    let darts = 2 * graph.edges();
    for other in dart + 1..darts {
        if joins(graph, dart, other) {
            second.edge(dart, other)?;
        }
    }
    Ok(())
}
