//! The command `generate`.

ghost use Rattle.std.specs.Prelude.{IfOk};
ghost use Rattle.parity_program.specs.Replies.{IsGeneratedReply};
ghost use Rattle.parity_program.specs.Shown.{shown};

use crate::reply::Reply;
use generator::problem;
use parity_text::write_problem;
use std::alloc::{AllocError, Global};

/// The text of the problem of a number.
pub fn generate(alloc: Global, n: u32) -> Result<Reply, AllocError>
    ensures { IfOk result (λ reply. IsGeneratedReply n (shown reply)) }
{
    let problem = problem(alloc, n)?;
    let mut text = Vec::new(alloc);
    write_problem(&mut text, &problem)?;
    Ok(Reply::done(text))
}
