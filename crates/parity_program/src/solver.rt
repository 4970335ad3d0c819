//! The solver of the program.

ghost use Rattle.std.specs.Prelude.{IfOk};
ghost use Rattle.parity_lines.specs.Certificates.{IsGoodAnswer};
ghost use Rattle.parity_lines.specs.LineSets.{IsLargest};
ghost use Rattle.parity_lines.specs.PartLists.{AreInOrder};

use augment::Solver;
use field_core::Field;
use parity_lines::{Answer, Maximizer, Problem};
use std::alloc::{AllocError, Global};

/// A good answer to the problem, whose parts stand in increasing order of their least positions; its set is largest.
pub fn solution<F: Field>(alloc: Global, problem: &Problem<F>) -> Result<Answer<F>, AllocError>
    ensures good { IfOk result (λ answer. IsGoodAnswer F.scalars problem.now
        answer.set answer.certificate.kernel answer.certificate.parts) }
    ensures order { IfOk result (λ answer. AreInOrder answer.certificate.parts) }
    ensures largest { IfOk result (λ answer. IsLargest F.scalars problem.now answer.set) }
{
    let _lines = problem.len();
    Solver.largest(alloc, problem)
}
