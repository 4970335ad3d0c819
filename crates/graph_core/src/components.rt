//! Components, and the spanning forest that is found edge by edge.

ghost use Rattle.std.specs.Prelude.{◌≡◌, ◌≢◌, ◌<◌, ℕ, ◌↔◌, [], ◌∷◌, ◌++◌, IfOk, OnOk, IsTrue, All, map, length, slice_index, nat_eq, if◌then◌else◌};
ghost use Rattle.graph_theory.specs.Walks.{Walk, IsLeastConnected, IsForest};
ghost use Rattle.graph_theory.specs.Walks.{edge_at};
ghost use Rattle.graph_core.specs.LabelLists.{labels, joined, where_apart};
ghost use Rattle.graph_theory.specs.Greedy.{IsGreedyForest};

use crate::{EdgeList, Graph, VertexList};
use std::alloc::{AllocError, Global};

impl Graph {
    /// For each vertex the least vertex that is connected with it.
    pub fn components(&self, alloc: Global) -> Result<VertexList, AllocError>
        ensures count { IfOk result (λ least. length least ≡ length self.now.names) }
        ensures least { IfOk result (λ least. (v : ℕ) → v < length self.now.names → IsLeastConnected self.now.ends v (slice_index least v)) }
    {
        let mut labels = own_labels(alloc, self.vertices())?;
        for edge in 0..self.edges() {
            let (first, second) = self.ends(edge);
            join(&mut labels, first, second);
        }
        Ok(VertexList::of(labels))
    }

    /// The edges whose ends are not connected by those kept before, in order: a forest that connects what the edges connect.
    pub fn spanning_forest(&self, alloc: Global) -> Result<EdgeList, AllocError>
        ensures greedy { IfOk result (λ kept. IsGreedyForest self.now.ends kept) }
        ensures within { IfOk result (λ kept. All (λ e. e < length self.now.ends) kept) }
        ensures forest { IfOk result (λ kept. IsForest (map (edge_at self.now.ends) kept)) }
        ensures spanning { IfOk result (λ kept. (p q : ℕ) → Walk self.now.ends p q → Walk (map (edge_at self.now.ends) kept) p q) }
    {
        let mut labels = own_labels(alloc, self.vertices())?;
        let mut kept = EdgeList::new(alloc);
        for edge in 0..self.edges() {
            keep(self, edge, &mut labels, &mut kept)?;
        }
        Ok(kept)
    }
}

/// Keeps the edge where the labels of its ends differ, and joins these.
fn keep(
    graph: &Graph,
    edge: usize,
    labels: &mut Vec<usize>,
    kept: &mut EdgeList,
) -> Result<(), AllocError>
    requires edge { edge < length graph.now.ends }
    requires count { length labels.old.items ≡ length graph.now.names }
    ensures joined { OnOk result (labels.new.items ≡ joined labels.old.items (edge_at graph.now.ends edge)) }
    ensures kept { OnOk result (kept.new ≡ kept.old ++ where_apart labels.old.items (edge_at graph.now.ends edge) edge) }
{
    let (first, second) = graph.ends(edge);
    if join(labels, first, second) {
        kept.push(edge)?;
    }
    Ok(())
}

/// Each vertex is its own label.
fn own_labels(alloc: Global, vertices: usize) -> Result<Vec<usize>, AllocError>
    ensures { IfOk result (λ list. list.items ≡ labels [] vertices) }
{
    let mut own = Vec::with_capacity(alloc, vertices)?;
    for vertex in 0..vertices {
        own.push(vertex)?;
    }
    Ok(own)
}

/// Joins the labels of two vertices to the smaller one, and tells whether they were different.
fn join(labels: &mut Vec<usize>, first: usize, second: usize) -> bool
    requires first_vertex { first < length labels.old.items }
    requires second_vertex { second < length labels.old.items }
    ensures joined { labels.new.items ≡ joined labels.old.items (first, second) }
    ensures differ { IsTrue result ↔ (slice_index labels.old.items first ≢ slice_index labels.old.items second) }
{
    let (a, b) = (labels[first], labels[second]);
    if a == b {
        return false;
    }
    replace(labels, a.max(b), a.min(b));
    true
}

/// Writes the second number for the first.
fn replace(labels: &mut Vec<usize>, from: usize, to: usize)
    ensures { labels.new.items ≡ map (λ label. if nat_eq label from then to else label) labels.old.items }
{
    for label in labels.iter_mut() {
        if *label == from {
            *label = to;
        }
    }
}
