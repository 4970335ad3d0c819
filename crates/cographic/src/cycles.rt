//! The fundamental cycles of the edges outside a tree.

ghost use Rattle.std.specs.Prelude.{◌≡◌, ◌<◌, ℕ, List, [], ◌++◌, IfOk, OnOk, All, length, map, slice_index_or};
ghost use Rattle.std.specs.List.{range_with_len};
ghost use Rattle.edge_lists.specs.EdgeNumbers.{edge_numbers};
ghost use Rattle.edge_lists.specs.Occurrences.{without};
ghost use Rattle.graph_theory.specs.Walks.{edge_at, Walk, IsForest};
ghost use Rattle.cographic.specs.Cycles.{AreCycles, MarkCycle, MarkMembers, entry_by, where_unmarked};

use crate::marks::Marks;
use field_core::Field;
use graph_core::{EdgeList, Graph};
use std::alloc::{AllocError, Global};
use std::marker::Model;

/// Marks of the edges of each cycle.
#[derive(Drop)]
pub(crate) struct Cycles {
    cycles: Vec<Marks>,
}

impl Model for Cycles {
    ghost use Rattle.std.specs.Prelude.{List, Bool};

    ghost Value = { List (List Bool) };

    ghost view = { λ c. c.cycles.items };
}

impl Cycles {
    /// The cycles of the edges outside a tree that connects the ends of all edges.
    pub(crate) fn of(alloc: Global, graph: &Graph, tree: &EdgeList) -> Result<Cycles, AllocError>
        requires edges { All (λ e. e < length graph.now.ends) tree.now }
        requires forest { IsForest (map (edge_at graph.now.ends) tree.now) }
        requires spanning { (p q : ℕ) → Walk graph.now.ends p q → Walk (map (edge_at graph.now.ends) tree.now) p q }
        ensures { IfOk result (AreCycles (edge_at graph.now.ends) (length graph.now.ends) tree.now (without tree.now (edge_numbers graph.now.ends))) }
    {
        let inside = Marks::of(alloc, graph.edges(), tree)?;
        let others = unmarked(alloc, &inside, graph.edges())?;
        cycles_of(alloc, graph, tree, &others)
    }

    /// How many cycles there are.
    pub(crate) fn len(&self) -> usize
        ensures { result ≡ length self.now }
    {
        self.cycles.len()
    }

    /// The vector of an edge: one at the cycles that it is in, and zero elsewhere.
    pub(crate) fn vector<F: Field>(&self, alloc: Global, edge: usize) -> Result<Vec<F>, AllocError>
        requires { All (λ cycle. edge < length cycle) self.now }
        ensures { IfOk result (λ v. map F.number v.items ≡ map (entry_by F.scalars edge) self.now) }
    {
        let mut vector = Vec::new(alloc);
        for i in 0..self.len() {
            vector.push(entry(self.at(i), edge))?;
        }
        Ok(vector)
    }

    /// The marks of a cycle.
    fn at(&self, i: usize) -> &Marks
        requires { i < length self.now }
        ensures { result.now ≡ slice_index_or self.now i [] }
    {
        &self.cycles[i]
    }
}

/// One where the edge is marked, and zero elsewhere.
fn entry<F: Field>(cycle: &Marks, edge: usize) -> F
    requires { edge < length cycle.now }
    ensures { F.number result ≡ entry_by F.scalars edge cycle.now }
{
    if cycle.holds(edge) {
        F::one()
    } else {
        F::zero()
    }
}

/// The edges without a mark, in order.
fn unmarked(alloc: Global, marks: &Marks, edges: usize) -> Result<EdgeList, AllocError>
    requires { edges ≡ length marks.now }
    ensures { IfOk result (λ list. (T : List ℕ) → MarkMembers T marks.now → list ≡ without T (range_with_len 0 edges)) }
{
    let mut list = EdgeList::new(alloc);
    for edge in 0..edges {
        push_unmarked(marks, edge, &mut list)?;
    }
    Ok(list)
}

/// Puts the edge last, where it has no mark.
fn push_unmarked(marks: &Marks, edge: usize, list: &mut EdgeList) -> Result<(), AllocError>
    requires { edge < length marks.now }
    ensures { OnOk result (list.new ≡ list.old ++ where_unmarked marks.now edge) }
{
    if !marks.holds(edge) {
        list.push(edge)?;
    }
    Ok(())
}

/// The cycles of these edges.
fn cycles_of(
    alloc: Global,
    graph: &Graph,
    tree: &EdgeList,
    others: &EdgeList,
) -> Result<Cycles, AllocError>
    requires others { All (λ e. e < length graph.now.ends) others.now }
    requires edges { All (λ e. e < length graph.now.ends) tree.now }
    requires forest { IsForest (map (edge_at graph.now.ends) tree.now) }
    requires spanning { (p q : ℕ) → Walk graph.now.ends p q → Walk (map (edge_at graph.now.ends) tree.now) p q }
    ensures { IfOk result (AreCycles (edge_at graph.now.ends) (length graph.now.ends) tree.now others.now) }
{
    let mut cycles = Vec::new(alloc);
    for i in 0..others.len() {
        let cycle = cycle_of(alloc, graph, tree, others.at(i))?;
        cycles.push(cycle)?;
    }
    Ok(Cycles { cycles })
}

/// The edge, and the path in the tree between its ends.
fn cycle_of(alloc: Global, graph: &Graph, tree: &EdgeList, edge: usize) -> Result<Marks, AllocError>
    requires edge { edge < length graph.now.ends }
    requires edges { All (λ e. e < length graph.now.ends) tree.now }
    requires forest { IsForest (map (edge_at graph.now.ends) tree.now) }
    requires spanning { (p q : ℕ) → Walk graph.now.ends p q → Walk (map (edge_at graph.now.ends) tree.now) p q }
    ensures { IfOk result (MarkCycle (edge_at graph.now.ends) (length graph.now.ends) tree.now edge) }
{
    let (first, second) = graph.ends(edge);
    let found = graph.path_in_tree(alloc, tree, first, second)?;
    let path = found.unwrap();
    let mut marks = Marks::of(alloc, graph.edges(), &path)?;
    marks.mark(edge);
    Ok(marks)
}
