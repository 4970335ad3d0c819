//! What answers parity problems.

ghost use Rattle.std.specs.Prelude.{IfOk};
ghost use Rattle.parity_lines.specs.Certificates.{IsGoodAnswer};
ghost use Rattle.parity_lines.specs.PartLists.{AreInOrder};

use crate::{Answer, Problem};
use field_core::Field;
use std::alloc::{AllocError, Global};

/// A way to answer parity problems over any field.
pub trait Maximizer {
    /// A good answer: an independent set of lines, and a certificate whose bound is its size, so that no independent
    /// set is longer ([`crate::good_answer_is_largest`]). The parts stand in increasing order of their least
    /// positions.
    fn largest<F: Field>(
        &self,
        alloc: Global,
        problem: &Problem<F>,
    ) -> Result<Answer<F>, AllocError>
        ensures good { IfOk result (λ answer. IsGoodAnswer F.scalars problem.now answer.set answer.certificate.kernel answer.certificate.parts) }
        ensures order { IfOk result (λ answer. AreInOrder answer.certificate.parts) };
}
