//! The command `spaths`.

ghost use Rattle.std.specs.Prelude.{IfOk};
ghost use Rattle.parity_program.specs.Replies.{IsFoundReply};
ghost use Rattle.parity_program.specs.Shown.{HasFewClasses, shown};
ghost use Rattle.parity_program.specs.declared.command.Convertible.TheVariants.{PathFamily};
ghost use Rattle.parity_program.specs.declared.command.GraphObject.TheVariants.{Converted};

use crate::reply::Reply;
use crate::solver::solution;
use graph_core::Graph;
use graph_text::write_paths;
use s_paths_front::{from_set, to_parity};
use std::alloc::{AllocError, Global};

/// The text of a largest family of disjoint paths between terminals of different classes.
pub fn spaths(alloc: Global, graph: &Graph) -> Result<Reply, AllocError>
    requires { HasFewClasses graph.now }
    ensures { IfOk result (λ reply. IsFoundReply (Converted PathFamily) graph.now (shown reply)) }
{
    let _edges = graph.edges();
    let converted = to_parity(alloc, graph)?;
    let answer = solution(alloc, &converted.problem)?;
    let paths = from_set(alloc, graph, &answer.set)?;
    let mut text = Vec::new(alloc);
    write_paths(&mut text, graph, &paths)?;
    Ok(Reply::done(text))
}
