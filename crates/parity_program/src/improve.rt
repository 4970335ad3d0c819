//! The command `improve`.

ghost use Rattle.std.specs.Prelude.{◌≡◌, ◌<◌, All, IfErr, IfOk, length};
ghost use Rattle.parity_program.specs.Inputs.{behind};
ghost use Rattle.parity_program.specs.Replies.{IsImprovementReply};
ghost use Rattle.parity_program.specs.Shown.{IsNoByteLimit, RepliesTo, meant_by, shown};
ghost use Rattle.parity_program.specs.declared.command.ProblemCommand.TheVariants.{Improve};
ghost use Rattle.small_fields.specs.ScalarsOf.{scalars_of};

use crate::Status;
use crate::reply::{Reply, relation_reply, step_reply};
use field_core::Field;
use line_lexer::Lexer;
use matching_state::{Matched, Start};
use parity_lines::{LineSet, Problem};
use parity_text::{read_end, read_set};
use std::alloc::{AllocError, Global};

/// The set that one step makes of a set of lines, that there is none, or a relation of its vectors.
fn improved<F: Field>(
    alloc: Global,
    problem: &Problem<F>,
    set: &LineSet,
) -> Result<Reply, AllocError>
    requires { All (λ m. m < length problem.now.lines) set.now }
    ensures { IfOk result (λ reply. IsImprovementReply F.scalars problem.now set.now (shown reply)) }
{
    match Matched::start(alloc, problem, set)? {
        Start::Ready(matched) => {
            let step = matched.direct_step()?;
            step_reply(alloc, step)
        }
        Start::Relation(relation) => relation_reply(alloc, &relation),
    }
}

/// The reply behind the problem: to a choice of its lines, up to the end of the input.
pub fn improve<F: Field>(
    alloc: Global,
    lexer: &mut Lexer<'_>,
    problem: &Problem<F>,
) -> Result<Reply, Status>
    requires { F.scalars ≡ scalars_of F.scalars.order }
    ensures replies { RepliesTo (meant_by (behind Improve F.scalars.order problem.now) lexer.old) result }
    ensures kind { IfErr result IsNoByteLimit }
{
    let set = read_set(alloc, lexer, problem.len())?;
    read_end(lexer)?;
    Ok(improved(alloc, problem, &set)?)
}
