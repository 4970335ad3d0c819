//! The command `sample`.

ghost use Rattle.std.specs.Prelude.{◌≡◌, ◌++◌, IfOk, OnOk};
ghost use Rattle.line_lexer.specs.Words.{spelled};
ghost use Rattle.parity_program.specs.Replies.{IsLargestSize, IsSampledReply, sample_lines};
ghost use Rattle.parity_program.specs.Shown.{shown};

use crate::reply::Reply;
use crate::solver::solution;
use field_core::Field;
use generator::problem;
use parity_lines::Problem;
use std::alloc::{AllocError, Global};
use text_forms::put_count;

/// How many lines are in a largest independent set of the problem.
fn largest_size<F: Field>(alloc: Global, problem: &Problem<F>) -> Result<usize, AllocError>
    ensures { IfOk result (IsLargestSize F.scalars problem.now) }
{
    let answer = solution(alloc, problem)?;
    Ok(answer.set.len())
}

/// Puts the lines that tell a size of the number's problem last.
fn put_sample<F: Field>(
    out: &mut Vec<u8>,
    n: u32,
    problem: &Problem<F>,
    size: usize,
) -> Result<(), AllocError>
    ensures { OnOk result (out.new.items ≡ out.old.items ++ spelled (sample_lines n problem.now size)) }
{
    put_count(out, b"sample", n as usize)?;
    put_count(out, b"dimension", problem.dimension())?;
    put_count(out, b"lines", problem.len())?;
    put_count(out, b"size", size)
}

/// The lines that tell how large the largest independent sets of the number's problem are.
pub fn sample(alloc: Global, n: u32) -> Result<Reply, AllocError>
    ensures { IfOk result (λ reply. IsSampledReply n (shown reply)) }
{
    let problem = problem(alloc, n)?;
    let size = largest_size(alloc, &problem)?;
    let mut text = Vec::new(alloc);
    put_sample(&mut text, n, &problem, size)?;
    Ok(Reply::done(text))
}
