//! From a connected graph to the parity problem of its spare pairs.

ghost use Rattle.std.specs.Prelude.{◌≡◌, ◌↔◌, ℕ, List, IfOk, length};
ghost use Rattle.edge_lists.specs.Connections.{IsConnected};
ghost use Rattle.edge_lists.specs.EdgeNumbers.{edge_numbers};
ghost use Rattle.forest_pairs_front.specs.ListedPairs.{AreSparePairs, IsLongest};
ghost use Rattle.forest_pairs_front.specs.PairLines.{IsSpareProblem, row_problem};
ghost use Rattle.graph_theory.specs.Walks.{edge_at};
ghost use Rattle.parity_lines.specs.LineSets.{IsIndependentSet, IsLargest};
ghost use Rattle.small_fields.specs.ScalarsOf.{scalars_of};

use cographic::represent;
use field_core::{Field, Rows};
use graph_core::Graph;
use parity_lines::Problem;
use small_fields::F2;
use std::alloc::{AllocError, Global};

/// The problem of the spare pairs of a connected graph: for each pair the line of the cographic vectors of its two edges, as
/// [`cographic::represent`] gives them. The independent sets are the lists of pairs without whose edges the graph is connected.
pub fn spare_problem(alloc: Global, graph: &Graph) -> Result<Problem<F2>, AllocError>
    requires { IsConnected (edge_at graph.now.ends) (length graph.now.names) (edge_numbers graph.now.ends) }
    ensures problem { IfOk result (IsSpareProblem (scalars_of 2) graph.now.ends) }
    ensures independent { IfOk result (λ p. (M : List ℕ) → IsIndependentSet (scalars_of 2) p M
        ↔ AreSparePairs (length graph.now.names) graph.now.ends M) }
    ensures largest { IfOk result (λ p. (M : List ℕ) → IsLargest (scalars_of 2) p M
        ↔ IsLongest (AreSparePairs (length graph.now.names) graph.now.ends) M) }
{
    let _edges = graph.edges();
    let rows = represent(alloc, graph)?;
    problem_of(alloc, graph, &rows)
}

/// The problem of the pairs of a graph where an edge has its row.
fn problem_of<F: Field>(
    alloc: Global,
    graph: &Graph,
    rows: &Rows<F>,
) -> Result<Problem<F>, AllocError>
    requires { length rows.now.rows ≡ length graph.now.ends }
    ensures { IfOk result (λ p. p ≡ row_problem rows.now graph.now.ends) }
{
    let mut problem = Problem::new(alloc, rows.width());
    for pair in 0..graph.edges() / 2 {
        problem.push(rows.row(2 * pair), rows.row(2 * pair + 1))?;
    }
    Ok(problem)
}
