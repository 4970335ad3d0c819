//! From an independent set of lines to a matching.

ghost use Rattle.std.specs.Prelude.{◌≡◌, IfOk, length};
ghost use Rattle.graph_problems.specs.GraphLines.{matching_problem};
ghost use Rattle.graph_theory.specs.Matchings.{IsMatching, IsLargestMatching};
ghost use Rattle.parity_lines.specs.LineSets.{IsIndependentSet, IsLargest};
ghost use Rattle.small_fields.specs.ScalarsOf.{scalars_of};

use graph_core::{EdgeList, Graph};
use parity_lines::LineSet;
use std::alloc::{AllocError, Global};

/// The matching of an independent set of the problem of a graph: the edges of its lines. Where the set is largest, so is the matching.
pub fn from_set(alloc: Global, graph: &Graph, set: &LineSet) -> Result<EdgeList, AllocError>
    requires { IsIndependentSet (scalars_of 2) (matching_problem (scalars_of 2) (length graph.now.names) graph.now.ends) set.now }
    ensures edges { IfOk result (λ edges. edges ≡ set.now) }
    ensures matching { IfOk result (IsMatching graph.now.ends) }
    ensures largest { IsLargest (scalars_of 2) (matching_problem (scalars_of 2) (length graph.now.names) graph.now.ends) set.now
        → IfOk result (IsLargestMatching graph.now.ends) }
{
    let _edges = graph.edges();
    let mut edges = EdgeList::new(alloc);
    for i in 0..set.len() {
        edges.push(set.at(i))?;
    }
    Ok(edges)
}
