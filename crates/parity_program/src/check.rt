//! The command `check`.

ghost use Rattle.std.specs.Prelude.{◌≡◌, IfErr, IfOk};
ghost use Rattle.parity_program.specs.Inputs.{behind};
ghost use Rattle.parity_program.specs.Replies.{IsVerdictReply};
ghost use Rattle.parity_program.specs.Shown.{IsNoByteLimit, RepliesTo, meant_by, shown};
ghost use Rattle.parity_program.specs.declared.command.ProblemCommand.TheVariants.{Check};
ghost use Rattle.parity_text.specs.Shown.{answer_value};
ghost use Rattle.parity_text.specs.Values.{IsAnswerTo};
ghost use Rattle.small_fields.specs.ScalarsOf.{scalars_of};

use crate::Status;
use crate::reply::{Reply, verdict_reply};
use cert_check::verdict;
use field_core::Field;
use line_lexer::Lexer;
use parity_lines::{Answer, Problem};
use parity_text::{read_answer, read_end};
use std::alloc::{AllocError, Global};

/// The line of the verdict on an answer.
fn checked<F: Field>(
    alloc: Global,
    problem: &Problem<F>,
    answer: &Answer<F>,
) -> Result<Reply, AllocError>
    requires { IsAnswerTo F.scalars problem.now (answer_value answer.now) }
    ensures { IfOk result (λ reply. IsVerdictReply F.scalars problem.now (answer_value answer.now) (shown reply)) }
{
    verdict_reply(alloc, verdict(alloc, problem, answer)?)
}

/// The reply behind the problem: to an answer, up to the end of the input.
pub fn check<F: Field>(
    alloc: Global,
    lexer: &mut Lexer<'_>,
    problem: &Problem<F>,
) -> Result<Reply, Status>
    requires { F.scalars ≡ scalars_of F.scalars.order }
    ensures replies { RepliesTo (meant_by (behind Check F.scalars.order problem.now) lexer.old) result }
    ensures kind { IfErr result IsNoByteLimit }
{
    let answer = read_answer(alloc, lexer, problem)?;
    read_end(lexer)?;
    Ok(checked(alloc, problem, &answer)?)
}
