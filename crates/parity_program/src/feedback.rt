//! The command `feedback`.

ghost use Rattle.std.specs.Prelude.{IfOk, length};
ghost use Rattle.cubic_front.specs.FeedbackVertexSets.{IsLeastFeedbackVertexSet};
ghost use Rattle.parity_program.specs.Replies.{IsFoundReply};
ghost use Rattle.parity_program.specs.Shown.{IsConnectedCubicGraph, shown};
ghost use Rattle.parity_program.specs.declared.command.GraphObject.TheVariants.{FeedbackSet};

use crate::reply::Reply;
use crate::solver::solution;
use cubic_front::from_set;
use genus_front::to_parity;
use graph_core::{Graph, VertexList};
use graph_text::write_feedback;
use std::alloc::{AllocError, Global};

/// A least set of vertices without which the graph has no cycle. Of the graph without vertices it is the empty one.
fn least_set(alloc: Global, graph: &Graph) -> Result<VertexList, AllocError>
    requires { IsConnectedCubicGraph graph.now }
    ensures { IfOk result (IsLeastFeedbackVertexSet (length graph.now.names) graph.now.ends) }
{
    if graph.vertices() == 0 {
        return Ok(VertexList::new(alloc));
    }
    let problem = to_parity(alloc, graph)?;
    let answer = solution(alloc, &problem)?;
    from_set(alloc, graph, &answer.set)
}

/// The text of a least set of vertices without which the graph has no cycle.
pub fn feedback(alloc: Global, graph: &Graph) -> Result<Reply, AllocError>
    requires { IsConnectedCubicGraph graph.now }
    ensures { IfOk result (λ reply. IsFoundReply FeedbackSet graph.now (shown reply)) }
{
    let set = least_set(alloc, graph)?;
    let mut text = Vec::new(alloc);
    write_feedback(&mut text, graph, &set)?;
    Ok(Reply::done(text))
}
