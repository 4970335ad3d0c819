//! Whether a graph is cubic and simple.

ghost use Rattle.std.specs.Prelude.{◌≡◌, ◌<◌, ◌≤◌, IfErr, IfSome, length};
ghost use Rattle.parity_program.specs.CubicVertices.{first_not_cubic};
ghost use Rattle.parity_program.specs.Inputs.{unless_not_cubic};
ghost use Rattle.parity_program.specs.Shown.{Admits, IsNoByteLimit};

use crate::Status;
use cubic_front::not_cubic;
use graph_core::Graph;

/// The first vertex that isn't the end of three edges which lead to three different other vertices.
fn first_not_cubic(graph: &Graph) -> Option<usize>
    ensures value { result ≡ first_not_cubic (length graph.now.names) graph.now.ends }
    ensures within { IfSome result (λ v. v < length graph.now.names) }
{
    not_cubic(graph)
}

/// Whether the graph is cubic and simple. `NotCubic` says which is the first vertex at which it isn't.
pub fn cubic(graph: &Graph) -> Result<(), Status>
    requires { length graph.now.names ≤ 128 }
    ensures admits { Admits (λ x. unless_not_cubic (first_not_cubic (length graph.now.names) graph.now.ends) x) result }
    ensures kind { IfErr result IsNoByteLimit }
{
    if let Some(vertex) = first_not_cubic(graph) {
        return Err(Status::NotCubic {
            vertex: vertex as u32 + 1,
        });
    }
    Ok(())
}
