//! From a graph to the parity problem of its disjoint paths.

ghost use Rattle.std.specs.Prelude.{◌≡◌, ◌<◌, ℕ, Some, None, IfOk, length, slice_index_or};
ghost use Rattle.graph_problems.specs.PathLines.{paths_problem};
ghost use Rattle.path_theory.specs.Classes.{class_of, is_terminal};
ghost use Rattle.path_theory.specs.Terminals.{IsOffset};
ghost use Rattle.small_fields.specs.ScalarsOf.{scalars_of};

use crate::counts::{free_components, terminals};
use crate::pair_vectors::edge_pair;
use field_core::Field;
use graph_core::Graph;
use parity_lines::Problem;
use small_fields::F251;
use std::alloc::{AllocError, Global};

/// The problem of a graph, and what its largest size is above the largest number of paths.
#[derive(Drop)]
pub struct Converted {
    /// The problem.
    pub problem: Problem<F251>,
    /// How many vertices are neither terminals nor stand for a component without a terminal.
    pub offset: usize,
}

/// The problem of the disjoint paths of a graph whose classes are below 251: a coordinate for each terminal and two for each other vertex,
/// by vertex number, and for each edge the pairs (1, 0) and (0, 1) at its first end less the same at its second. At a terminal of class j
/// the pair (x, y) is y less j times x.
#[tactic(auto, using(path_theory::proofs::Monotone::offset_exists))]
pub fn to_parity(alloc: Global, graph: &Graph) -> Result<Converted, AllocError>
    requires { (v c : ℕ) → slice_index_or graph.now.classes v None ≡ Some c → c < 251 }
    ensures problem { IfOk result (λ c. c.problem ≡ paths_problem (scalars_of 251) 250 (length graph.now.names)
        (is_terminal graph.now.classes)
        (class_of graph.now.classes) graph.now.ends) }
    ensures offset { IfOk result (λ c. IsOffset (length graph.now.names) (is_terminal graph.now.classes) graph.now.ends c.offset) }
{
    let problem = problem_over(alloc, graph, F251::one().neg())?;
    let offset = graph.vertices() - terminals(graph) - free_components(alloc, graph)?;
    Ok(Converted { problem, offset })
}

/// The same over any field, by the negative of one.
fn problem_over<F: Field>(alloc: Global, graph: &Graph, minus: F) -> Result<Problem<F>, AllocError>
    requires { (v c : ℕ) → slice_index_or graph.now.classes v None ≡ Some c → c < F.scalars.order }
    ensures { IfOk result (λ p. p ≡ paths_problem F.scalars (F.number minus) (length graph.now.names) (is_terminal graph.now.classes)
        (class_of graph.now.classes) graph.now.ends) }
{
    let vertices = graph.vertices();
    let mut problem = Problem::new(alloc, vertices + (vertices - terminals(graph)));
    for edge in 0..graph.edges() {
        let ends = graph.ends(edge);
        let first = edge_pair(alloc, graph, minus, ends, F::one(), F::zero())?;
        let second = edge_pair(alloc, graph, minus, ends, F::zero(), F::one())?;
        problem.push(first.as_slice(), second.as_slice())?;
    }
    Ok(problem)
}
