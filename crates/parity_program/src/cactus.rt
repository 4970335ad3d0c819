//! The command `cactus`.

ghost use Rattle.std.specs.Prelude.{IfOk};
ghost use Rattle.parity_program.specs.Replies.{IsFoundReply};
ghost use Rattle.parity_program.specs.Shown.{shown};
ghost use Rattle.parity_program.specs.declared.command.Convertible.TheVariants.{Cactus};
ghost use Rattle.parity_program.specs.declared.command.GraphObject.TheVariants.{Converted};

use crate::reply::Reply;
use crate::solver::solution;
use cactus_front::{from_set, to_parity};
use graph_core::Graph;
use graph_text::write_cactus;
use std::alloc::{AllocError, Global};

/// The text of a largest cactus of the graph.
pub fn cactus(alloc: Global, graph: &Graph) -> Result<Reply, AllocError>
    ensures { IfOk result (λ reply. IsFoundReply (Converted Cactus) graph.now (shown reply)) }
{
    let _edges = graph.edges();
    let problem = to_parity(alloc, graph)?;
    let answer = solution(alloc, &problem)?;
    let triangles = from_set(alloc, graph, &answer.set)?;
    let mut text = Vec::new(alloc);
    write_cactus(&mut text, graph, &triangles)?;
    Ok(Reply::done(text))
}
