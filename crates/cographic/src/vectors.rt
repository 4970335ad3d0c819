//! The vectors of the edges of a connected graph.

ghost use Rattle.std.specs.Prelude.{◌≡◌, ◌<◌, ◌↔◌, ℕ, List, IfOk, All, length};
ghost use Rattle.vector_spaces.proofs.Distinct.{IsDistinct};
ghost use Rattle.linear_algebra.specs.Spans.{IsIndependent};
ghost use Rattle.small_fields.specs.ScalarsOf.{scalars_of};
ghost use Rattle.graph_theory.specs.Walks.{edge_at};
ghost use Rattle.edge_lists.specs.Connections.{IsConnected};
ghost use Rattle.edge_lists.specs.EdgeNumbers.{edge_numbers};
ghost use Rattle.edge_lists.specs.Occurrences.{without};
ghost use Rattle.cographic.specs.CographicRows.{AreCographicRows, vectors_of};
ghost use Rattle.cographic.specs.Cycles.{AreRowsBy};

use crate::cycles::Cycles;
use field_core::{Field, Rows};
use graph_core::Graph;
use small_fields::F2;
use std::alloc::{AllocError, Global};

/// The cographic vectors of the edges of a connected graph, in order: an entry for each edge outside the spanning tree that
/// [`Graph::spanning_forest`] keeps. The vectors of a list of edges are independent exactly where the edges are different and the graph
/// without them is connected.
pub fn represent(alloc: Global, graph: &Graph) -> Result<Rows<F2>, AllocError>
    requires { IsConnected (edge_at graph.now.ends) (length graph.now.names) (edge_numbers graph.now.ends) }
    ensures rows { IfOk result (AreCographicRows (scalars_of 2) graph.now.ends) }
    ensures independent { IfOk result (λ m. (L : List ℕ) → All (λ e. e < length graph.now.ends) L
        → IsIndependent (scalars_of 2) m.width (vectors_of m L)
        ↔ (IsDistinct L × IsConnected (edge_at graph.now.ends) (length graph.now.names) (without L (edge_numbers graph.now.ends)))) }
{
    let _edges = graph.edges();
    rows_over(alloc, graph)
}

/// The same over any field.
fn rows_over<F: Field>(alloc: Global, graph: &Graph) -> Result<Rows<F>, AllocError>
    ensures { IfOk result (AreCographicRows F.scalars graph.now.ends) }
{
    let tree = graph.spanning_forest(alloc)?;
    let cycles = Cycles::of(alloc, graph, &tree)?;
    rows_by(alloc, &cycles, graph.edges())
}

/// The vectors of the edges of a graph with these cycles.
fn rows_by<F: Field>(alloc: Global, cycles: &Cycles, edges: usize) -> Result<Rows<F>, AllocError>
    requires { All (λ cycle. length cycle ≡ edges) cycles.now }
    ensures { IfOk result (AreRowsBy F.scalars cycles.now edges) }
{
    let mut rows = Rows::new(alloc, cycles.len());
    for edge in 0..edges {
        let vector = cycles.vector(alloc, edge)?;
        rows.push(&vector)?;
    }
    Ok(rows)
}
