//! The pairs of edges with a common end.

ghost use Rattle.std.specs.Prelude.{◌≡◌, ◌<◌, [], ◌∷◌, ◌++◌, IfOk, OnOk, length};
ghost use Rattle.graph_theory.specs.Walks.{edge_at};
ghost use Rattle.graph_core.specs.Adjacency.{AreAdjacentPairs};
ghost use Rattle.graph_core.specs.Gathered.{pair_by, pairs_at, meets};

use crate::{EdgePairs, Graph};
use std::alloc::{AllocError, Global};

impl Graph {
    /// All pairs of different edges with a common end, the smaller number first, in lexicographic order.
    pub fn adjacent_pairs(&self, alloc: Global) -> Result<EdgePairs, AllocError>
        ensures { IfOk result (AreAdjacentPairs self.now.ends) }
    {
        let mut found = EdgePairs::new(alloc);
        for first in 0..self.edges() {
            push_pairs_at(self, first, &mut found)?;
        }
        Ok(found)
    }
}

/// Puts the pairs of the edge with later edges last.
fn push_pairs_at(graph: &Graph, first: usize, found: &mut EdgePairs) -> Result<(), AllocError>
    requires { first < length graph.now.ends }
    ensures { OnOk result (found.new ≡ found.old ++ pairs_at (edge_at graph.now.ends) (length graph.now.ends) first) }
{
    for second in 0..graph.edges() {
        push_pair(graph, first, second, found)?;
    }
    Ok(())
}

/// Puts the pair of two edges last, where the second is the later one and they have a common end.
fn push_pair(
    graph: &Graph,
    first: usize,
    second: usize,
    found: &mut EdgePairs,
) -> Result<(), AllocError>
    requires first_edge { first < length graph.now.ends }
    requires second_edge { second < length graph.now.ends }
    ensures { OnOk result (found.new ≡ found.old ++ pair_by (edge_at graph.now.ends) first second) }
{
    if first < second && meet(graph.ends(first), graph.ends(second)) {
        found.push(first, second)?;
    }
    Ok(())
}

/// Whether two edges have a common end.
fn meet(first: (usize, usize), second: (usize, usize)) -> bool
    ensures { result ≡ meets first second }
{
    first.0 == second.0 || first.0 == second.1 || first.1 == second.0 || first.1 == second.1
}
