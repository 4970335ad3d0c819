//! The command `solve`.

ghost use Rattle.std.specs.Prelude.{◌≡◌, IfErr, IfOk};
ghost use Rattle.parity_program.specs.Inputs.{behind};
ghost use Rattle.parity_program.specs.Replies.{IsSolvedReply};
ghost use Rattle.parity_program.specs.Shown.{IsNoByteLimit, RepliesTo, meant_by, shown};
ghost use Rattle.parity_program.specs.declared.command.ProblemCommand.TheVariants.{Solve};
ghost use Rattle.small_fields.specs.ScalarsOf.{scalars_of};

use crate::Status;
use crate::reply::Reply;
use crate::solver::solution;
use field_core::Field;
use line_lexer::Lexer;
use parity_lines::Problem;
use parity_text::{read_end, write_answer};
use std::alloc::{AllocError, Global};

/// The text of a good answer.
fn solved<F: Field>(alloc: Global, problem: &Problem<F>) -> Result<Reply, AllocError>
    ensures { IfOk result (λ reply. IsSolvedReply F.scalars problem.now (shown reply)) }
{
    let answer = solution(alloc, problem)?;
    let mut text = Vec::new(alloc);
    write_answer(&mut text, &answer)?;
    Ok(Reply::done(text))
}

/// The reply to the problem, which goes up to the end of the input.
pub fn solve<F: Field>(
    alloc: Global,
    lexer: &mut Lexer<'_>,
    problem: &Problem<F>,
) -> Result<Reply, Status>
    requires { F.scalars ≡ scalars_of F.scalars.order }
    ensures replies { RepliesTo (meant_by (behind Solve F.scalars.order problem.now) lexer.old) result }
    ensures kind { IfErr result IsNoByteLimit }
{
    read_end(lexer)?;
    Ok(solved(alloc, problem)?)
}
