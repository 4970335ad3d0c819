//! The command `sparepairs`.

ghost use Rattle.std.specs.Prelude.{IfOk};
ghost use Rattle.parity_program.specs.Replies.{IsFoundReply};
ghost use Rattle.parity_program.specs.Shown.{IsConnectedGraph, shown};
ghost use Rattle.parity_program.specs.declared.command.GraphObject.TheVariants.{SparePairs};

use crate::reply::Reply;
use crate::solver::solution;
use forest_pairs_front::{spare_problem, write_pairs};
use graph_core::Graph;
use std::alloc::{AllocError, Global};

/// The text of most pairs of edges without which the graph is connected.
pub fn spare_pairs(alloc: Global, graph: &Graph) -> Result<Reply, AllocError>
    requires { IsConnectedGraph graph.now }
    ensures { IfOk result (λ reply. IsFoundReply SparePairs graph.now (shown reply)) }
{
    let problem = spare_problem(alloc, graph)?;
    let answer = solution(alloc, &problem)?;
    let mut text = Vec::new(alloc);
    write_pairs(&mut text, &answer.set)?;
    Ok(Reply::done(text))
}
