//! Whether a graph is connected.

ghost use Rattle.std.specs.Prelude.{◌≡◌, ◌<◌, ◌≤◌, ℕ, IfErr, IfSome, length, slice_index};
ghost use Rattle.graph_theory.specs.Labels.{label};
ghost use Rattle.parity_program.specs.Connectedness.{first_apart};
ghost use Rattle.parity_program.specs.Inputs.{unless_apart};
ghost use Rattle.parity_program.specs.Shown.{Admits, IsNoByteLimit};

use crate::Status;
use graph_core::{Graph, VertexList};
use std::alloc::{AllocError, Global};

/// The first vertex whose label isn't that of the first.
fn apart_from_first(graph: &Graph, labels: &VertexList) -> Option<usize>
    requires count { length labels.now ≡ length graph.now.names }
    requires labels { (v : ℕ) → v < length graph.now.names → slice_index labels.now v ≡ label graph.now.ends v }
    ensures value { result ≡ first_apart (length graph.now.names) graph.now.ends }
    ensures within { IfSome result (λ v. v < length graph.now.names) }
{
    for vertex in 0..graph.vertices() {
        if labels.at(vertex) != labels.at(0) {
            return Some(vertex);
        }
    }
    None
}

/// Whether each vertex is connected with the first one. `NotConnected` says which is the first that isn't.
pub fn connected(alloc: Global, graph: &Graph) -> Result<(), Status>
    requires { length graph.now.names ≤ 128 }
    ensures admits { Admits (λ x. unless_apart (first_apart (length graph.now.names) graph.now.ends) x) result }
    ensures kind { IfErr result IsNoByteLimit }
{
    let labels = graph.components(alloc)?;
    if let Some(vertex) = apart_from_first(graph, &labels) {
        return Err(Status::NotConnected {
            vertex: vertex as u32 + 1,
        });
    }
    Ok(())
}
