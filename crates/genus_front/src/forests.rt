//! Spanning forests of some edges of a graph.

ghost use Rattle.std.specs.Prelude.{◌<◌, ℕ, List, [], ◌∷◌, ◌++◌, IfOk, OnOk, All, length};
ghost use Rattle.graph_theory.specs.Walks.{edge_at};
ghost use Rattle.edge_lists.specs.Connections.{AreForest};
ghost use Rattle.genus_front.specs.SpanningForests.{IsSpanningForest};

use graph_core::{EdgeList, Graph};
use std::alloc::{AllocError, Global};

/// The edges whose ends are not joined by those kept before, in order.
pub fn spanning_forest(
    alloc: Global,
    graph: &Graph,
    edges: &EdgeList,
) -> Result<EdgeList, AllocError>
    requires { All (λ e. e < length graph.now.ends) edges.now }
    ensures { IfOk result (IsSpanningForest (edge_at graph.now.ends) edges.now) }
{
    let mut forest = EdgeList::new(alloc);
    for i in 0..edges.len() {
        keep(alloc, graph, edges.at(i), &mut forest)?;
    }
    Ok(forest)
}

/// Keeps the edge, where the forest doesn't join its ends.
fn keep(alloc: Global, graph: &Graph, edge: usize, forest: &mut EdgeList) -> Result<(), AllocError>
    requires edge { edge < length graph.now.ends }
    requires edges { All (λ e. e < length graph.now.ends) forest.old }
    requires forest { AreForest (edge_at graph.now.ends) forest.old }
    ensures { OnOk result ((K : List ℕ) → IsSpanningForest (edge_at graph.now.ends) K forest.old
        → IsSpanningForest (edge_at graph.now.ends) (K ++ edge ∷ []) forest.new) }
{
    let (first, second) = graph.ends(edge);
    match graph.path_in_tree(alloc, forest, first, second)? {
        None => forest.push(edge),
        Some(_path) => Ok(()),
    }
}
