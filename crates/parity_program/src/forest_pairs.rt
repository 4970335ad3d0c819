//! The command `forestpairs`.

ghost use Rattle.std.specs.Prelude.{IfOk};
ghost use Rattle.parity_program.specs.Replies.{IsFoundReply};
ghost use Rattle.parity_program.specs.Shown.{shown};
ghost use Rattle.parity_program.specs.declared.command.GraphObject.TheVariants.{ForestPairs};

use crate::reply::Reply;
use crate::solver::solution;
use forest_pairs_front::{forest_problem, write_pairs};
use graph_core::Graph;
use std::alloc::{AllocError, Global};

/// The text of most pairs of edges of the graph that have no cycle.
pub fn forest_pairs(alloc: Global, graph: &Graph) -> Result<Reply, AllocError>
    ensures { IfOk result (λ reply. IsFoundReply ForestPairs graph.now (shown reply)) }
{
    let problem = forest_problem(alloc, graph)?;
    let answer = solution(alloc, &problem)?;
    let mut text = Vec::new(alloc);
    write_pairs(&mut text, &answer.set)?;
    Ok(Reply::done(text))
}
