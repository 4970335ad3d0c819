//! Whether a graph is fit for what is looked for in it.

ghost use Rattle.std.specs.Prelude.{◌≤◌, IfErr, length};
ghost use Rattle.parity_program.specs.Inputs.{unless_unfit};
ghost use Rattle.parity_program.specs.Shown.{Admits, IsNoByteLimit};
ghost use Rattle.parity_program.specs.declared.command.GraphObject.TheVariants.{FeedbackSet};

use crate::connection::connected;
use crate::cubic::cubic;
use crate::{Convertible, GraphObject, Status};
use graph_core::Graph;
use std::alloc::Global;

/// Whether the graph is connected, cubic and simple.
fn connected_and_cubic(alloc: Global, graph: &Graph) -> Result<(), Status>
    requires { length graph.now.names ≤ 128 }
    ensures admits { Admits (unless_unfit FeedbackSet graph.now) result }
    ensures kind { IfErr result IsNoByteLimit }
{
    connected(alloc, graph)?;
    cubic(graph)
}

/// Whether the graph is connected, or connected and cubic, where the object is looked for in such graphs alone.
pub fn fit(alloc: Global, object: GraphObject, graph: &Graph) -> Result<(), Status>
    requires { length graph.now.names ≤ 128 }
    ensures admits { Admits (unless_unfit object graph.now) result }
    ensures kind { IfErr result IsNoByteLimit }
{
    match object {
        GraphObject::Converted(Convertible::Rotation) | GraphObject::SparePairs => {
            connected(alloc, graph)
        }
        GraphObject::FeedbackSet => connected_and_cubic(alloc, graph),
        _ => Ok(()),
    }
}
