//! Lists of edges: all of a graph, those of pairs, and those outside a list.

ghost use Rattle.std.specs.Prelude.{◌≡◌, ◌<◌, ◌≤◌, ◌↔◌, [], ◌∷◌, ◌++◌, IsTrue, IfOk, OnOk, All, length};
ghost use Rattle.edge_lists.specs.EdgeNumbers.{edge_numbers};
ghost use Rattle.edge_lists.specs.Occurrences.{count, without};
ghost use Rattle.genus_front.specs.GenusProblems.{edges_of};

use graph_core::{EdgeList, EdgePairs, Graph};
use parity_lines::LineSet;
use std::alloc::{AllocError, Global};

/// All edges of a graph, in order.
pub fn all_edges(alloc: Global, graph: &Graph) -> Result<EdgeList, AllocError>
    ensures { IfOk result (λ list. list ≡ edge_numbers graph.now.ends) }
{
    let mut list = EdgeList::new(alloc);
    for edge in 0..graph.edges() {
        list.push(edge)?;
    }
    Ok(list)
}

/// Both edges of the pairs at the positions of a set.
pub fn edges_of(alloc: Global, pairs: &EdgePairs, set: &LineSet) -> Result<EdgeList, AllocError>
    requires { All (λ i. i < length pairs.now) set.now }
    ensures { IfOk result (λ list. list ≡ edges_of pairs.now set.now) }
{
    let mut list = EdgeList::new(alloc);
    for i in 0..set.len() {
        let (first, second) = pairs.at(set.at(i));
        list.push(first)?;
        list.push(second)?;
    }
    Ok(list)
}

/// The edges of a list that don't stand in another, in order.
pub fn outside(alloc: Global, edges: &EdgeList, others: &EdgeList) -> Result<EdgeList, AllocError>
    ensures { IfOk result (λ list. list ≡ without others.now edges.now) }
{
    let mut list = EdgeList::new(alloc);
    for i in 0..edges.len() {
        push_outside(edges.at(i), others, &mut list)?;
    }
    Ok(list)
}

/// Puts the edge last, where it doesn't stand in the others.
fn push_outside(edge: usize, others: &EdgeList, list: &mut EdgeList) -> Result<(), AllocError>
    ensures { OnOk result (list.new ≡ list.old ++ without others.now (edge ∷ [])) }
{
    if !holds(others, edge) {
        list.push(edge)?;
    }
    Ok(())
}

/// Whether the edge stands in the list.
fn holds(list: &EdgeList, edge: usize) -> bool
    ensures { IsTrue result ↔ (1 ≤ count edge list.now) }
{
    for i in 0..list.len() {
        if list.at(i) == edge {
            return true;
        }
    }
    false
}
