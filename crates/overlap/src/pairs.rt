//! The search for two exposed lines that overlap.

ghost use Rattle.std.specs.Prelude.{◌≡◌, ◌↔◌, [], ◌∷◌, All, IfOk, IsTrue, MatchOption, length, map};
ghost use Rattle.exchanges.specs.Spans.{HasSpan};
ghost use Rattle.overlap.specs.Candidates.{DoOverlap, HaveOverlap, HasPartner};

use crate::candidates::Candidate;
use echelon::{Echelon, basis_of};
use field_core::{Field, Rows};
use parity_lines::LineSet;
use std::alloc::{AllocError, Global};

/// The multiples of a vector.
fn multiples_of<F: Field>(alloc: Global, v: &[F]) -> Result<Echelon<F>, AllocError>
    ensures { IfOk result (HasSpan F.scalars (length v.now) (map F.number v.now ∷ [])) }
{
    let rows = Rows::alone(alloc, v)?;
    basis_of(alloc, &rows)
}

/// Whether two lines overlap, where `multiples` are those of the first one's residue.
fn do_overlap<F: Field>(
    first: &Candidate<F>,
    multiples: &Echelon<F>,
    second: &Candidate<F>,
) -> Result<bool, AllocError>
    requires span { HasSpan F.scalars multiples.now.width (first.now.residue ∷ []) multiples.now }
    requires long { length second.now.residue ≡ multiples.now.width }
    ensures { IfOk result (λ told. IsTrue told ↔ DoOverlap F.scalars multiples.now.width first.now second.now) }
{
    if !first.support.meets(&second.support) {
        return Ok(false);
    }
    let factor = multiples.coefficients(second.residue.as_slice())?;
    Ok(factor.is_none())
}

/// The first of the lines that overlaps with this one.
fn partner<F: Field>(
    alloc: Global,
    first: &Candidate<F>,
    others: &[Candidate<F>],
) -> Result<Option<usize>, AllocError>
    requires { All (λ x. length x.residue ≡ length first.now.residue) others.now }
    ensures { IfOk result (λ found. MatchOption found
        (All (λ x. ¬ (DoOverlap F.scalars (length first.now.residue) first.now x)) others.now)
        (HasPartner F.scalars first.now others.now)) }
{
    let multiples = multiples_of(alloc, first.residue.as_slice())?;
    for second in others {
        if do_overlap(first, &multiples, second)? {
            return Ok(Some(second.line));
        }
    }
    Ok(None)
}

/// Two of the lines that overlap.
pub fn overlapping_pair<F: Field>(
    alloc: Global,
    exposed: &[Candidate<F>],
) -> Result<Option<(usize, usize)>, AllocError>
    requires { All (λ x. All (λ y. length y.residue ≡ length x.residue) exposed.now) exposed.now }
    ensures { IfOk result (λ found. MatchOption found
        (All (λ x. All (λ y. ¬ (DoOverlap F.scalars (length x.residue) x y)) exposed.now) exposed.now)
        (λ pair. HaveOverlap F.scalars exposed.now pair.0 pair.1)) }
{
    for first in exposed {
        if let Some(second) = partner(alloc, first, exposed)? {
            return Ok(Some((first.line, second)));
        }
    }
    Ok(None)
}
