//! From a graph to the parity problem of its forests of pairs.

ghost use Rattle.std.specs.Prelude.{◌≡◌, ◌<◌, ◌↔◌, ℕ, List, IfOk, length};
ghost use Rattle.forest_pairs_front.specs.ListedPairs.{ArePairForest, IsLongest};
ghost use Rattle.forest_pairs_front.specs.PairLines.{end_sum, forest_problem};
ghost use Rattle.graph_theory.specs.Walks.{edge_at};
ghost use Rattle.parity_lines.specs.LineSets.{IsIndependentSet, IsLargest};
ghost use Rattle.small_fields.specs.ScalarsOf.{scalars_of};

use field_core::{Field, Row};
use graph_core::Graph;
use graph_problems::unit_vector;
use parity_lines::Problem;
use small_fields::F2;
use std::alloc::{AllocError, Global};

/// The problem of the forests of pairs of a graph: a coordinate for each vertex, and for each pair the line of the sums of the unit vectors
/// of the ends of its two edges. The independent sets are the lists of pairs whose edges have no cycle.
pub fn forest_problem(alloc: Global, graph: &Graph) -> Result<Problem<F2>, AllocError>
    ensures problem { IfOk result (λ p. p ≡ forest_problem (scalars_of 2) (length graph.now.names) graph.now.ends) }
    ensures independent { IfOk result (λ p. (M : List ℕ) → IsIndependentSet (scalars_of 2) p M ↔ ArePairForest graph.now.ends M) }
    ensures largest { IfOk result (λ p. (M : List ℕ) → IsLargest (scalars_of 2) p M ↔ IsLongest (ArePairForest graph.now.ends) M) }
{
    let _edges = graph.edges();
    problem_over(alloc, graph)
}

/// The same over any field.
fn problem_over<F: Field>(alloc: Global, graph: &Graph) -> Result<Problem<F>, AllocError>
    ensures { IfOk result (λ p. p ≡ forest_problem F.scalars (length graph.now.names) graph.now.ends) }
{
    let mut problem = Problem::new(alloc, graph.vertices());
    for pair in 0..graph.edges() / 2 {
        let first: Row<F> = end_sum(alloc, graph, 2 * pair)?;
        let second = end_sum(alloc, graph, 2 * pair + 1)?;
        problem.push(first.as_slice(), second.as_slice())?;
    }
    Ok(problem)
}

/// The sum of the unit vectors of the ends of an edge.
fn end_sum<F: Field>(alloc: Global, graph: &Graph, edge: usize) -> Result<Row<F>, AllocError>
    requires { edge < length graph.now.ends }
    ensures value { IfOk result (λ v. v ≡ end_sum F.scalars (length graph.now.names) (edge_at graph.now.ends edge)) }
    ensures long { IfOk result (λ v. length v ≡ length graph.now.names) }
{
    let vertices = graph.vertices();
    let (first, second) = graph.ends(edge);
    let mut sum = Row::copy_of(alloc, &unit_vector(alloc, vertices, first)?)?;
    sum.add_multiple(F::one(), &unit_vector(alloc, vertices, second)?);
    Ok(sum)
}
