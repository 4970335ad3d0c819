//! Ranks over a kernel, by elimination.

ghost use Rattle.std.specs.Prelude.{◌≡◌, ◌<◌, ℕ, All, IfOk, OnErr, length};
ghost use Rattle.linear_algebra.specs.Vectors.{AreVectors};
ghost use Rattle.linear_algebra.specs.Ranks.{rank_over as rank_added};
ghost use Rattle.parity_lines.specs.Problems.{vectors_at};
ghost use Rattle.echelon.specs.Grown.{Grows, GrowsToSpan};

use crate::{LineSet, Problem};
use echelon::{Echelon, basis_of};
use field_core::{Field, Rows};
use std::alloc::{AllocError, Global};

/// Inserts both vectors of each line of the part.
fn insert_lines<F: Field>(
    basis: &mut Echelon<F>,
    problem: &Problem<F>,
    part: &LineSet,
) -> Result<(), AllocError>
    requires width { basis.old.width ≡ problem.now.dimension }
    requires vectors { AreVectors F.scalars basis.old.width basis.old.rows }
    requires within { All (λ m. m < length problem.now.lines) part.now }
    ensures grows { Grows basis.old basis.new }
    ensures ok { GrowsToSpan F.scalars (vectors_at problem.now part.now) basis.old basis.new result }
{
    for i in 0..part.len() {
        let line = part.at(i);
        let _first = basis.insert(problem.first(line))?;
        let _second = basis.insert(problem.second(line))?;
    }
    Ok(())
}

/// The rank that the vectors of the part add to the basis, which is left as it was.
pub fn added_rank<F: Field>(
    basis: &mut Echelon<F>,
    problem: &Problem<F>,
    part: &LineSet,
) -> Result<usize, AllocError>
    requires width { basis.old.width ≡ problem.now.dimension }
    requires within { All (λ m. m < length problem.now.lines) part.now }
    ensures same { basis.new ≡ basis.old }
    ensures rank { IfOk result (λ r. r ≡ rank_added F.scalars problem.now.dimension basis.old.rows (vectors_at problem.now part.now)) }
{
    let kept = basis.rank();
    let outcome = insert_lines(basis, problem, part);
    let added = basis.rank() - kept;
    basis.truncate(kept);
    outcome?;
    Ok(added)
}

/// The rank of the kernel with the vectors of the part, less the rank of the kernel. The kernel may be dependent.
pub fn rank_over<F: Field>(
    alloc: Global,
    problem: &Problem<F>,
    kernel: &Rows<F>,
    part: &LineSet,
) -> Result<usize, AllocError>
    requires width { kernel.now.width ≡ problem.now.dimension }
    requires within { All (λ m. m < length problem.now.lines) part.now }
    ensures { IfOk result (λ r. r ≡ rank_added F.scalars problem.now.dimension kernel.now.rows (vectors_at problem.now part.now)) }
{
    let _lines = problem.len();
    let mut basis = basis_of(alloc, kernel)?;
    added_rank(&mut basis, problem, part)
}
