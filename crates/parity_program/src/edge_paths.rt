//! The command `epaths`.

ghost use Rattle.std.specs.Prelude.{IfOk};
ghost use Rattle.parity_program.specs.Replies.{IsFoundReply};
ghost use Rattle.parity_program.specs.Shown.{HasFewEdges, shown};
ghost use Rattle.parity_program.specs.declared.command.GraphObject.TheVariants.{EdgePaths};

use crate::reply::Reply;
use crate::solver::solution;
use edge_paths_front::{from_paths, to_paths};
use graph_core::Graph;
use graph_text::write_edge_paths;
use s_paths_front::{from_set, to_parity};
use std::alloc::{AllocError, Global};

/// The text of a largest family of edge-disjoint paths between terminals of different classes.
pub fn edge_paths(alloc: Global, graph: &Graph) -> Result<Reply, AllocError>
    requires { HasFewEdges graph.now }
    ensures { IfOk result (λ reply. IsFoundReply EdgePaths graph.now (shown reply)) }
{
    let second = to_paths(alloc, graph)?;
    let converted = to_parity(alloc, &second)?;
    let answer = solution(alloc, &converted.problem)?;
    let disjoint = from_set(alloc, &second, &answer.set)?;
    let paths = from_paths(alloc, graph, &disjoint)?;
    let mut text = Vec::new(alloc);
    write_edge_paths(&mut text, graph, &paths)?;
    Ok(Reply::done(text))
}
