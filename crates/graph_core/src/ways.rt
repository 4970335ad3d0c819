//! The ways from the vertices of a forest to one of them.

ghost use Rattle.std.specs.Prelude.{◌≡◌, ◌+◌, ◌<◌, ℕ, List, IfOk, IsTrue, Some, All, false, length};
ghost use Rattle.graph_theory.specs.Walks.{edge_at};
ghost use Rattle.graph_core.specs.Ways.{AreWays, AreClosed, GoDown, way_at, is_reached, unreached, extended, differ, back};

use crate::{EdgeList, Graph};
use std::alloc::{AllocError, Global};

/// How to go on from a vertex: the number of steps, the first edge and its other end. Where there is no step these two say nothing.
#[derive(Clone, Copy, Drop)]
struct Way {
    steps: usize,
    edge: usize,
    next: usize,
}

/// For each vertex that is reached the way to the vertex `to`.
#[derive(Drop)]
pub(crate) struct Ways {
    to: usize,
    table: Vec<Option<Way>>,
}

impl Ways {
    /// The vertex alone is reached.
    pub(crate) fn new(alloc: Global, vertices: usize, to: usize) -> Result<Ways, AllocError>
        requires { to < vertices }
        ensures count { IfOk result (λ ways. length ways.table.items ≡ vertices) }
        ensures vertex { IfOk result (λ ways. ways.to ≡ to) }
        ensures ways { IfOk result (λ ways. (ends : ℕ → ℕ × ℕ) (F : List ℕ) → AreWays ends F to ways.table.items) }
    {
        let mut table = Vec::with_capacity(alloc, vertices)?;
        for _vertex in 0..vertices {
            table.push(None)?;
        }
        table[to] = Some(Way {
            steps: 0,
            edge: 0,
            next: to,
        });
        Ok(Ways { to, table })
    }

    /// Reaches what the edges of the forest lead to.
    pub(crate) fn fill(&mut self, graph: &Graph, forest: &EdgeList)
        requires edges { All (λ e. e < length graph.now.ends) forest.now }
        requires count { length self.old.table.items ≡ length graph.now.names }
        requires ways { AreWays (edge_at graph.now.ends) forest.now self.old.to self.old.table.items }
        ensures vertex { self.new.to ≡ self.old.to }
        ensures count { length self.new.table.items ≡ length self.old.table.items }
        ensures ways { AreWays (edge_at graph.now.ends) forest.now self.new.to self.new.table.items }
        ensures closed { AreClosed (edge_at graph.now.ends) forest.now self.new.table.items }
    {
        while self.spread(graph, forest) {}
    }

    /// Goes over the edges once, and tells whether that reached another vertex.
    fn spread(&mut self, graph: &Graph, forest: &EdgeList) -> bool
        requires edges { All (λ e. e < length graph.now.ends) forest.now }
        requires count { length self.old.table.items ≡ length graph.now.names }
        requires ways { AreWays (edge_at graph.now.ends) forest.now self.old.to self.old.table.items }
        ensures vertex { self.new.to ≡ self.old.to }
        ensures count { length self.new.table.items ≡ length self.old.table.items }
        ensures ways { AreWays (edge_at graph.now.ends) forest.now self.new.to self.new.table.items }
        ensures fewer { IsTrue result → unreached self.new.table.items < unreached self.old.table.items }
        ensures closed { result ≡ false → AreClosed (edge_at graph.now.ends) forest.now self.new.table.items }
    {
        let mut changed = false;
        for i in 0..forest.len() {
            let edge = forest.at(i);
            let more = self.extend(graph.ends(edge), edge);
            changed = changed | more;
        }
        changed
    }

    /// Reaches the other end of an edge with one end that is reached, and tells whether it is such an edge.
    fn extend(&mut self, ends: (usize, usize), edge: usize) -> bool
        requires first_vertex { ends.0 < length self.old.table.items }
        requires second_vertex { ends.1 < length self.old.table.items }
        requires short { (v : ℕ) (w : Way) → way_at self.old.table.items v ≡ Some w → w.steps < length self.old.table.items }
        ensures vertex { self.new.to ≡ self.old.to }
        ensures extended { self.new.table.items ≡ extended self.old.table.items ends edge }
        ensures changed { result ≡ differ (is_reached self.old.table.items ends.0) (is_reached self.old.table.items ends.1) }
    {
        match (self.table[ends.0], self.table[ends.1]) {
            (Some(way), None) => {
                self.table[ends.1] = Some(Way {
                    steps: way.steps + 1,
                    edge,
                    next: ends.0,
                });
                true
            }
            (None, Some(way)) => {
                self.table[ends.0] = Some(Way {
                    steps: way.steps + 1,
                    edge,
                    next: ends.1,
                });
                true
            }
            _ => false,
        }
    }

    /// The edges of the way from a vertex that is reached, in order.
    pub(crate) fn path(&self, alloc: Global, from: usize) -> Result<EdgeList, AllocError>
        requires reached { IsTrue (is_reached self.now.table.items from) }
        requires down { GoDown self.now.table.items }
        ensures { IfOk result (λ path. (w : Way) → way_at self.now.table.items from ≡ Some w → path ≡ back self.now.table.items w.steps from) }
    {
        let mut path = EdgeList::new(alloc);
        let mut at = from;
        for _step in 0..self.way(from).steps {
            let way = self.way(at);
            path.push(way.edge)?;
            at = way.next;
        }
        Ok(path)
    }

    /// The way from a vertex that is reached.
    fn way(&self, vertex: usize) -> Way
        requires { IsTrue (is_reached self.now.table.items vertex) }
        ensures { way_at self.now.table.items vertex ≡ Some result }
    {
        self.table[vertex].unwrap()
    }

    /// Whether the vertex is reached.
    pub(crate) fn reaches(&self, vertex: usize) -> bool
        requires { vertex < length self.now.table.items }
        ensures { result ≡ is_reached self.now.table.items vertex }
    {
        self.table[vertex].is_some()
    }
}
