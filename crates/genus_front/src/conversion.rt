//! From a graph to the parity problem of its pairs of edges with a common end.

ghost use Rattle.std.specs.Prelude.{◌≡◌, ◌<◌, ◌↔◌, ℕ, List, All, IfOk, length};
ghost use Rattle.vector_spaces.proofs.Distinct.{IsDistinct};
ghost use Rattle.small_fields.specs.ScalarsOf.{scalars_of};
ghost use Rattle.parity_lines.specs.LineSets.{IsIndependentSet, IsLineSet};
ghost use Rattle.graph_theory.specs.Walks.{edge_at};
ghost use Rattle.graph_core.specs.Adjacency.{AreAdjacentPairs};
ghost use Rattle.edge_lists.specs.Connections.{IsConnected};
ghost use Rattle.edge_lists.specs.EdgeNumbers.{edge_numbers};
ghost use Rattle.edge_lists.specs.Occurrences.{without};
ghost use Rattle.genus_front.specs.GenusProblems.{IsGenusProblem, edges_of, pairs_problem};

use cographic::represent;
use field_core::{Field, Rows};
use graph_core::{EdgePairs, Graph};
use parity_lines::Problem;
use small_fields::F2;
use std::alloc::{AllocError, Global};

/// The problem of the pairs of different edges of a connected graph with a common end, in the order of [`Graph::adjacent_pairs`]: the pair
/// e, f is the line of the cographic vectors of e and of f. A set of lines is independent exactly where its pairs have no common edge and
/// the graph without their edges is connected.
pub fn to_parity(alloc: Global, graph: &Graph) -> Result<Problem<F2>, AllocError>
    requires { IsConnected (edge_at graph.now.ends) (length graph.now.names) (edge_numbers graph.now.ends) }
    ensures problem { IfOk result (IsGenusProblem (scalars_of 2) graph.now.ends) }
    ensures independent { IfOk result (λ p. (P : List (ℕ × ℕ)) (M : List ℕ) → AreAdjacentPairs graph.now.ends P → IsLineSet p M
        → IsIndependentSet (scalars_of 2) p M ↔ (IsDistinct (edges_of P M)
        × IsConnected (edge_at graph.now.ends) (length graph.now.names) (without (edges_of P M) (edge_numbers graph.now.ends)))) }
{
    let _edges = graph.edges();
    let rows = represent(alloc, graph)?;
    let pairs = graph.adjacent_pairs(alloc)?;
    problem_of(alloc, &rows, &pairs)
}

/// The problem of these pairs of rows.
fn problem_of<F: Field>(
    alloc: Global,
    rows: &Rows<F>,
    pairs: &EdgePairs,
) -> Result<Problem<F>, AllocError>
    requires { All (λ (p : ℕ × ℕ). (p.0 < length rows.now.rows) × (p.1 < length rows.now.rows)) pairs.now }
    ensures { IfOk result (λ p. p ≡ pairs_problem rows.now pairs.now) }
{
    let mut problem = Problem::new(alloc, rows.width());
    for i in 0..pairs.len() {
        let (first, second) = pairs.at(i);
        problem.push(rows.row(first), rows.row(second))?;
    }
    Ok(problem)
}
