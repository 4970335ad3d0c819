//! The command `matching`.

ghost use Rattle.std.specs.Prelude.{IfOk};
ghost use Rattle.parity_program.specs.Replies.{IsFoundReply};
ghost use Rattle.parity_program.specs.Shown.{shown};
ghost use Rattle.parity_program.specs.declared.command.Convertible.TheVariants.{Matching};
ghost use Rattle.parity_program.specs.declared.command.GraphObject.TheVariants.{Converted};

use crate::reply::Reply;
use crate::solver::solution;
use graph_core::Graph;
use graph_text::write_matching;
use matching_front::{from_set, to_parity};
use std::alloc::{AllocError, Global};

/// The text of a largest matching of the graph.
pub fn matching(alloc: Global, graph: &Graph) -> Result<Reply, AllocError>
    ensures { IfOk result (λ reply. IsFoundReply (Converted Matching) graph.now (shown reply)) }
{
    let problem = to_parity(alloc, graph)?;
    let answer = solution(alloc, &problem)?;
    let edges = from_set(alloc, graph, &answer.set)?;
    let mut text = Vec::new(alloc);
    write_matching(&mut text, graph, &edges)?;
    Ok(Reply::done(text))
}
