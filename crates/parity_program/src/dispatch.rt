//! The reply of a command: to an input of bytes, and to a number.

ghost use Rattle.std.specs.Prelude.{◌≡◌, ◌≤◌, Err, IfErr, IfOk, length};
ghost use Rattle.line_lexer.specs.declared.refusal.TextRefusal.{TextRefusal};
ghost use Rattle.parity_program.specs.Inputs.{behind, input_of, numbered, object_of, status_of};
ghost use Rattle.line_lexer.specs.Seen.{most_bytes};
ghost use Rattle.parity_program.specs.Replies.{IsFoundReply, IsGraphReply, IsReply};
ghost use Rattle.parity_program.specs.Shown.{IsNoByteLimit, RepliesTo, Suits, meant_by, shown};
ghost use Rattle.parity_program.specs.declared.command.Command.TheVariants.{OfText};
ghost use Rattle.parity_program.specs.declared.command.TextCommand.TheVariants.{OverProblem, OverGraph};
ghost use Rattle.parity_text.specs.Texts.{head, problem};
ghost use Rattle.small_fields.specs.FieldName.{order_of};
ghost use Rattle.small_fields.specs.ScalarsOf.{scalars_of};
ghost use Rattle.text_forms.specs.Forms.{of_text};
ghost use Rattle.text_forms.specs.Reading.{chain};

use crate::cactus::cactus;
use crate::check::check;
use crate::convert::convert;
use crate::edge_paths::edge_paths;
use crate::feedback::feedback;
use crate::fitness::fit;
use crate::forest_pairs::forest_pairs;
use crate::generate::generate;
use crate::genus::genus;
use crate::graph_reader::graph_of;
use crate::improve::improve;
use crate::matching::matching;
use crate::reply::Reply;
use crate::sample::sample;
use crate::solve::solve;
use crate::spare_pairs::spare_pairs;
use crate::spaths::spaths;
use crate::{
    Convertible, GraphCommand, GraphObject, NumberCommand, ProblemCommand, Status, TextCommand,
};
use field_core::Field;
use graph_core::Graph;
use graph_text::graphs_are_within_limits;
use line_lexer::Lexer;
use parity_text::{read_head, read_problem};
use small_fields::{F2, F3, F5, F251, F256, FieldName};
use std::alloc::{AllocError, Global};

/// The reply over a field, from behind the head of the text: a problem, and then what the command reads.
fn reply_over<F: Field>(
    alloc: Global,
    command: ProblemCommand,
    lexer: &mut Lexer<'_>,
) -> Result<Reply, Status>
    requires { F.scalars ≡ scalars_of F.scalars.order }
    ensures replies { RepliesTo (meant_by (chain (problem F.scalars.order) (behind command F.scalars.order)) lexer.old) result }
    ensures kind { IfErr result IsNoByteLimit }
{
    let problem = read_problem::<F>(alloc, lexer)?;
    match command {
        ProblemCommand::Check => check(alloc, lexer, &problem),
        ProblemCommand::Improve => improve(alloc, lexer, &problem),
        ProblemCommand::Solve => solve(alloc, lexer, &problem),
    }
}

/// The same over the field of this name.
fn reply_named(
    alloc: Global,
    command: ProblemCommand,
    name: FieldName,
    lexer: &mut Lexer<'_>,
) -> Result<Reply, Status>
    ensures replies { RepliesTo (meant_by (chain (problem (order_of name)) (behind command (order_of name))) lexer.old) result }
    ensures kind { IfErr result IsNoByteLimit }
{
    match name {
        FieldName::Two => reply_over::<F2>(alloc, command, lexer),
        FieldName::Three => reply_over::<F3>(alloc, command, lexer),
        FieldName::Five => reply_over::<F5>(alloc, command, lexer),
        FieldName::TwoFiftyOne => reply_over::<F251>(alloc, command, lexer),
        FieldName::TwoFiftySix => reply_over::<F256>(alloc, command, lexer),
    }
}

/// The reply to the bytes of an input that begins with a problem.
fn reply_to_problem(alloc: Global, command: ProblemCommand, bytes: &[u8]) -> Result<Reply, Status>
    requires { length bytes.now ≤ most_bytes }
    ensures replies { RepliesTo (input_of (OfText (OverProblem command)) bytes.now) result }
    ensures kind { IfErr result IsNoByteLimit }

    // The head takes no memory: where it is refused, want of memory is no answer.
    ensures head { (e : TextRefusal) → of_text head bytes.now ≡ Err e → result ≡ Err (status_of e) }
{
    let mut lexer = Lexer::new(bytes);
    let name = read_head(&mut lexer)?;
    reply_named(alloc, command, name, &mut lexer)
}

/// The reply to a graph in which the object is looked for.
fn found_in(alloc: Global, object: GraphObject, graph: &Graph) -> Result<Reply, AllocError>
    requires { Suits object graph.now }
    ensures { IfOk result (λ reply. IsFoundReply object graph.now (shown reply)) }
{
    match object {
        GraphObject::Converted(Convertible::Matching) => matching(alloc, graph),
        GraphObject::Converted(Convertible::Cactus) => cactus(alloc, graph),
        GraphObject::Converted(Convertible::PathFamily) => spaths(alloc, graph),
        GraphObject::Converted(Convertible::Rotation) => genus(alloc, graph),
        GraphObject::ForestPairs => forest_pairs(alloc, graph),
        GraphObject::SparePairs => spare_pairs(alloc, graph),
        GraphObject::EdgePaths => edge_paths(alloc, graph),
        GraphObject::FeedbackSet => feedback(alloc, graph),
    }
}

/// The reply to a graph.
fn reply_of_graph(alloc: Global, command: GraphCommand, graph: &Graph) -> Result<Reply, AllocError>
    requires { Suits (object_of command) graph.now }
    ensures { IfOk result (λ reply. IsGraphReply command graph.now (shown reply)) }
{
    match command {
        GraphCommand::Find(object) => found_in(alloc, object, graph),
        GraphCommand::Convert(object) => convert(alloc, object, graph),
    }
}

/// The reply to the bytes of a graph.
fn reply_to_graph(alloc: Global, command: GraphCommand, bytes: &[u8]) -> Result<Reply, Status>
    requires { length bytes.now ≤ most_bytes }
    ensures replies { RepliesTo (input_of (OfText (OverGraph command)) bytes.now) result }
    ensures kind { IfErr result IsNoByteLimit }
{
    let mut lexer = Lexer::new(bytes);
    let object = command.object();
    let graph = graph_of(alloc, object, &mut lexer)?;
    graphs_are_within_limits();
    fit(alloc, object, &graph)?;
    Ok(reply_of_graph(alloc, command, &graph)?)
}

/// The reply to the bytes of an input.
pub fn reply_to(alloc: Global, command: TextCommand, bytes: &[u8]) -> Result<Reply, Status>
    requires { length bytes.now ≤ most_bytes }
    ensures replies { RepliesTo (input_of (OfText command) bytes.now) result }
    ensures kind { IfErr result IsNoByteLimit }
{
    match command {
        TextCommand::OverProblem(command) => reply_to_problem(alloc, command, bytes),
        TextCommand::OverGraph(command) => reply_to_graph(alloc, command, bytes),
    }
}

/// The reply to a number.
pub fn reply_to_number(alloc: Global, command: NumberCommand, n: u32) -> Result<Reply, AllocError>
    ensures { IfOk result (λ reply. IsReply (numbered command n) (shown reply)) }
{
    match command {
        NumberCommand::Generate => generate(alloc, n),
        NumberCommand::Sample => sample(alloc, n),
    }
}
