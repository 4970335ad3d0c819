//! From an independent set of lines to disjoint paths.

ghost use Rattle.std.specs.Prelude.{◌≡◌, ◌<◌, ◌≤◌, ◌+◌, ◌∷◌, ◌⊎◌, ℕ, All, Some, None, IfNone, IfOk, IfSome, List, length, map, slice_index_or, true};
ghost use Rattle.graph_problems.specs.PathLines.{paths_problem};
ghost use Rattle.graph_theory.specs.Labels.{Connected};
ghost use Rattle.graph_theory.specs.Paths.{LeadThrough};
ghost use Rattle.graph_theory.specs.Walks.{edge_at};
ghost use Rattle.parity_lines.specs.LineSets.{IsIndependentSet, IsLargest};
ghost use Rattle.path_theory.specs.Classes.{class_of, is_terminal};
ghost use Rattle.path_theory.specs.Families.{AreOrdered, IsLargestPathFamily, IsPathFamily};
ghost use Rattle.path_theory.specs.Terminals.{GrownTerminalForest, IsOffset, second_terminals};
ghost use Rattle.s_paths_front.specs.PathsUp.{IsPathUp};
ghost use Rattle.small_fields.specs.ScalarsOf.{scalars_of};

use graph_core::{EdgeList, Graph, VertexList, VertexLists};
use parity_lines::LineSet;
use std::alloc::{AllocError, Global};

/// Disjoint paths of the graph along the edges of an independent set of its problem: no fewer than its lines less the offset, and as many
/// as can be where the set is largest. Each leads from its end with the smaller number; they stand by increasing first vertex.
pub fn from_set(alloc: Global, graph: &Graph, set: &LineSet) -> Result<VertexLists, AllocError>
    requires classes { (v c : ℕ) → slice_index_or graph.now.classes v None ≡ Some c → c < 251 }
    requires set { IsIndependentSet (scalars_of 251) (paths_problem (scalars_of 251) 250 (length graph.now.names)
        (is_terminal graph.now.classes)
        (class_of graph.now.classes) graph.now.ends) set.now }
    ensures family { IfOk result (IsPathFamily graph.now.ends (is_terminal graph.now.classes) (class_of graph.now.classes)) }
    ensures ordered { IfOk result AreOrdered }
    ensures enough { (offset : ℕ) → IsOffset (length graph.now.names) (is_terminal graph.now.classes) graph.now.ends offset
        → IfOk result (λ paths. length set.now ≤ length paths + offset) }
    ensures largest { IsLargest (scalars_of 251) (paths_problem (scalars_of 251) 250 (length graph.now.names)
        (is_terminal graph.now.classes)
        (class_of graph.now.classes) graph.now.ends) set.now
        → IfOk result (IsLargestPathFamily graph.now.ends (is_terminal graph.now.classes) (class_of graph.now.classes)) }
{
    let _edges = graph.edges();
    let forest = edges_of(alloc, set)?;
    paths_in(alloc, graph, &forest)
}

/// The edges of the lines.
fn edges_of(alloc: Global, set: &LineSet) -> Result<EdgeList, AllocError>
    ensures { IfOk result (λ edges. edges ≡ set.now) }
{
    let mut edges = EdgeList::new(alloc);
    for i in 0..set.len() {
        edges.push(set.at(i))?;
    }
    Ok(edges)
}

/// In a forest with few terminals the paths from each terminal to a greater one.
fn paths_in(alloc: Global, graph: &Graph, forest: &EdgeList) -> Result<VertexLists, AllocError>
    requires edges { All (λ e. e < length graph.now.ends) forest.now }
    requires forest { GrownTerminalForest (is_terminal graph.now.classes) (class_of graph.now.classes)
        (map (edge_at graph.now.ends) forest.now) }
    ensures family { IfOk result (IsPathFamily (map (edge_at graph.now.ends) forest.now) (is_terminal graph.now.classes)
        (class_of graph.now.classes)) }
    ensures ordered { IfOk result AreOrdered }
    ensures each { IfOk result (λ paths. second_terminals (length graph.now.names) (is_terminal graph.now.classes)
        (map (edge_at graph.now.ends) forest.now) ≤ length paths) }
{
    let mut paths = VertexLists::new(alloc);
    for from in 0..graph.vertices() {
        if graph.class(from).is_some() {
            if let Some(path) = path_from(alloc, graph, forest, from)? {
                paths.push(path)?;
            }
        }
    }
    Ok(paths)
}

/// The path from a vertex to a greater terminal, None where the forest joins it with none.
fn path_from(
    alloc: Global,
    graph: &Graph,
    forest: &EdgeList,
    from: usize,
) -> Result<Option<VertexList>, AllocError>
    requires edges { All (λ e. e < length graph.now.ends) forest.now }
    requires forest { GrownTerminalForest (is_terminal graph.now.classes) (class_of graph.now.classes)
        (map (edge_at graph.now.ends) forest.now) }
    requires from { from < length graph.now.names }
    ensures path { IfOk result (λ found. IfSome found (IsPathUp (is_terminal graph.now.classes)
        (map (edge_at graph.now.ends) forest.now) from)) }
    ensures none { IfOk result (λ found. IfNone found ((t : ℕ) → from < t → t < length graph.now.names
        → is_terminal graph.now.classes t ≡ true
        → ¬ (Connected (map (edge_at graph.now.ends) forest.now) from t))) }
{
    let vertices = graph.vertices();
    for to in from + 1..vertices {
        if graph.class(to).is_some() {
            if let Some(edges) = graph.path_in_tree(alloc, forest, from, to)? {
                return Ok(Some(vertices_of(alloc, graph, from, &edges)?));
            }
        }
    }
    Ok(None)
}

/// The vertices along the edges of a path, from the first on.
fn vertices_of(
    alloc: Global,
    graph: &Graph,
    from: usize,
    path: &EdgeList,
) -> Result<VertexList, AllocError>
    requires { All (λ e. e < length graph.now.ends) path.now }
    ensures { IfOk result (λ vertices. (others : List ℕ) → LeadThrough (edge_at graph.now.ends) from path.now others
        → vertices ≡ from ∷ others) }
{
    let mut vertices = VertexList::new(alloc);
    vertices.push(from)?;
    let mut at = from;
    for i in 0..path.len() {
        at = other_end(graph.ends(path.at(i)), at);
        vertices.push(at)?;
    }
    Ok(vertices)
}

/// The end that isn't the given one, of two.
fn other_end(ends: (usize, usize), vertex: usize) -> usize
    ensures { (other : ℕ) → (ends ≡ (vertex, other)) ⊎ (ends ≡ (other, vertex)) → result ≡ other }
{
    if ends.0 == vertex { ends.1 } else { ends.0 }
}
