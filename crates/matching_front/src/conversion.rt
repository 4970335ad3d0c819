//! From a graph to the parity problem of its matchings.

ghost use Rattle.std.specs.Prelude.{◌≡◌, IfOk, length};
ghost use Rattle.graph_problems.specs.GraphLines.{matching_problem};
ghost use Rattle.small_fields.specs.ScalarsOf.{scalars_of};

use field_core::Field;
use graph_core::Graph;
use graph_problems::unit_vector;
use parity_lines::Problem;
use small_fields::F2;
use std::alloc::{AllocError, Global};

/// The problem of the matchings of a graph: a coordinate for each vertex, and for each edge the line of the unit vectors of its ends.
pub fn to_parity(alloc: Global, graph: &Graph) -> Result<Problem<F2>, AllocError>
    ensures { IfOk result (λ p. p ≡ matching_problem (scalars_of 2) (length graph.now.names) graph.now.ends) }
{
    problem_over(alloc, graph)
}

/// The same over any field.
fn problem_over<F: Field>(alloc: Global, graph: &Graph) -> Result<Problem<F>, AllocError>
    ensures { IfOk result (λ p. p ≡ matching_problem F.scalars (length graph.now.names) graph.now.ends) }
{
    let vertices = graph.vertices();
    let mut problem = Problem::new(alloc, vertices);
    for edge in 0..graph.edges() {
        let (first, second) = graph.ends(edge);
        let first = unit_vector(alloc, vertices, first)?;
        let second = unit_vector(alloc, vertices, second)?;
        problem.push(&first, &second)?;
    }
    Ok(problem)
}
