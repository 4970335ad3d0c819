//! The command `genus`.

ghost use Rattle.std.specs.Prelude.{IfOk};
ghost use Rattle.parity_program.specs.Replies.{IsFoundReply};
ghost use Rattle.parity_program.specs.Shown.{IsConnectedGraph, shown};
ghost use Rattle.parity_program.specs.declared.command.Convertible.TheVariants.{Rotation};
ghost use Rattle.parity_program.specs.declared.command.GraphObject.TheVariants.{Converted};

use crate::reply::Reply;
use crate::solver::solution;
use genus_front::{from_set, to_parity};
use graph_core::Graph;
use graph_text::write_rotation;
use std::alloc::{AllocError, Global};

/// The text of a rotation of maximum genus.
pub fn genus(alloc: Global, graph: &Graph) -> Result<Reply, AllocError>
    requires { IsConnectedGraph graph.now }
    ensures { IfOk result (λ reply. IsFoundReply (Converted Rotation) graph.now (shown reply)) }
{
    let problem = to_parity(alloc, graph)?;
    let answer = solution(alloc, &problem)?;
    let rotation = from_set(alloc, graph, &answer.set)?;
    let _vertices = rotation.vertices();
    let genus = rotation.genus(alloc)?;
    let faces = rotation.faces(alloc)?;
    let mut text = Vec::new(alloc);
    write_rotation(&mut text, graph, &rotation, genus, faces)?;
    Ok(Reply::done(text))
}
