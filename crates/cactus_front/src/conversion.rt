//! From a graph to the parity problem of its triangles.

ghost use Rattle.std.specs.Prelude.{◌≡◌, ◌++◌, [], ◌∷◌, All, IfOk, OnOk, length, map};
ghost use Rattle.cactus_front.specs.CactusLists.{triple_of};
ghost use Rattle.graph_problems.specs.GraphLines.{triangle_line, triangle_problem, unit_vector, IsCactusProblem};
ghost use Rattle.linear_algebra.specs.Vectors.{vector_sum};
ghost use Rattle.small_fields.specs.ScalarsOf.{scalars_of};

use field_core::{Field, Row};
use graph_core::{Graph, VertexList, VertexLists};
use graph_problems::unit_vector;
use parity_lines::Problem;
use small_fields::F2;
use std::alloc::{AllocError, Global};

/// The problem of the triangles of a graph: a coordinate for each vertex, and for each triangle a, b, c, in lexicographic order, the line of
/// the sums of the unit vectors of a and b, and of b and c.
pub fn to_parity(alloc: Global, graph: &Graph) -> Result<Problem<F2>, AllocError>
    ensures { IfOk result (IsCactusProblem (scalars_of 2) (length graph.now.names) graph.now.ends) }
{
    problem_over(alloc, graph)
}

/// The same over any field.
fn problem_over<F: Field>(alloc: Global, graph: &Graph) -> Result<Problem<F>, AllocError>
    ensures { IfOk result (IsCactusProblem F.scalars (length graph.now.names) graph.now.ends) }
{
    let triangles = graph.triangles(alloc)?;
    problem_of(alloc, graph.vertices(), &triangles)
}

/// The problem of the lines of triangles.
fn problem_of<F: Field>(
    alloc: Global,
    dimension: usize,
    triangles: &VertexLists,
) -> Result<Problem<F>, AllocError>
    requires { All (λ t. length t ≡ 3) triangles.now }
    ensures { IfOk result (λ p. p ≡ triangle_problem F.scalars dimension (map triple_of triangles.now)) }
{
    let mut problem = Problem::new(alloc, dimension);
    for i in 0..triangles.len() {
        push_triangle(alloc, &mut problem, triangles.at(i))?;
    }
    Ok(problem)
}

/// Puts the line of a triangle last.
fn push_triangle<F: Field>(
    alloc: Global,
    problem: &mut Problem<F>,
    triangle: &VertexList,
) -> Result<(), AllocError>
    requires { length triangle.now ≡ 3 }
    ensures { OnOk result (problem.new ≡ record problem.old { lines = problem.old.lines ++ triangle_line F.scalars problem.old.dimension (triple_of triangle.now) ∷ [] }) }
{
    let dimension = problem.dimension();
    let first = sum_of_units(alloc, dimension, triangle.at(0), triangle.at(1))?;
    let second = sum_of_units(alloc, dimension, triangle.at(1), triangle.at(2))?;
    problem.push(first.as_slice(), second.as_slice())
}

/// The sum of the unit vectors of two places.
fn sum_of_units<F: Field>(
    alloc: Global,
    dimension: usize,
    a: usize,
    b: usize,
) -> Result<Row<F>, AllocError>
    ensures { IfOk result (λ v. v ≡ vector_sum F.scalars (unit_vector F.scalars dimension a) (unit_vector F.scalars dimension b)) }
{
    let mut sum = Row::copy_of(alloc, &unit_vector(alloc, dimension, a)?)?;
    sum.add_multiple(F::one(), &unit_vector(alloc, dimension, b)?);
    Ok(sum)
}
