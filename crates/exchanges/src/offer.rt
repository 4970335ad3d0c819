//! What the lines of a target offer: a line that is free, or an exchange.

ghost use Rattle.std.specs.Prelude.{◌≡◌, ◌<◌, ◌++◌, ℕ, All, IfOk, MatchOption, length, map};
ghost use Rattle.std.specs.List.{Contains};
ghost use Rattle.linear_algebra.specs.Spans.{InSpan};
ghost use Rattle.parity_lines.specs.Problems.{vectors_at};
ghost use Rattle.exchanges.specs.Exchanges.{IsSettled};
ghost use Rattle.exchanges.specs.Offers.{IsOffer, OffersNothing, TellsLineOut};

use crate::span::basis_with;
use echelon::Echelon;
use field_core::{Field, Rows};
use matching_state::{Matched, Place};
use parity_lines::LineSet;
use std::alloc::AllocError;

/// What can be done for a target.
#[derive(Clone, Copy, Drop)]
pub enum Offer {
    /// This line of it is free.
    Line(usize),
    /// The line `into` of it can take the place of `out`, which is none of it.
    Exchange { out: usize, into: usize },
}

/// The first line of `lines` that is none of `target`.
fn first_outside(lines: &LineSet, target: &LineSet) -> Option<usize>
    ensures { MatchOption result ((m : ℕ) → Contains lines.now m → Contains target.now m) (λ m. Contains lines.now m × ¬ (Contains target.now m)) }
{
    for i in 0..lines.len() {
        let line = lines.at(i);
        if !target.holds(line) {
            return Some(line);
        }
    }
    None
}

/// The first line of an exposed line's support that is none of the target, where the basis doesn't span its outer.
fn line_out<F: Field>(
    basis: &Echelon<F>,
    target: &LineSet,
    outer: &[F],
    support: &LineSet,
) -> Result<Option<usize>, AllocError>
    requires { length outer.now ≡ basis.now.width }
    ensures { IfOk result (TellsLineOut F.scalars basis.now.width basis.now.rows target.now (map F.number outer.now) support.now) }
{
    match basis.coefficients(outer)? {
        Some(_) => Ok(None),
        None => Ok(first_outside(support, target)),
    }
}

/// What a line of the target offers, where `basis` is to leave it unspanned.
fn offer_of<F: Field>(
    state: &Matched<'_, F>,
    basis: &Echelon<F>,
    target: &LineSet,
    line: usize,
) -> Result<Option<Offer>, AllocError>
    requires within { line < length state.now.problem.lines }
    requires in_target { Contains target.now line }
    requires width { basis.now.width ≡ state.now.problem.dimension }
    requires spans { All (InSpan F.scalars state.now.problem.dimension basis.now.rows) (vectors_at state.now.problem state.now.set) }
    ensures { IfOk result (λ found. MatchOption found
        (OffersNothing F.scalars state.now.problem basis.now.rows target.now state.now.set line)
        (IsOffer F.scalars state.now.problem basis.now.rows target.now state.now.set)) }
{
    let _lines = state.problem().len();
    let _set = state.set();
    let _rank = basis.rank();
    match state.position(line)? {
        Place::Free => Ok(Some(Offer::Line(line))),
        Place::Inside => Ok(None),
        Place::Single { .. } => Ok(None),
        Place::Exposed { outer, support, .. } => {
            match line_out(basis, target, outer.as_slice(), &support)? {
                Some(out) => Ok(Some(Offer::Exchange { out, into: line })),
                None => Ok(None),
            }
        }
    }
}

/// What the first line of the target that offers something offers.
fn offer_along<F: Field>(
    state: &Matched<'_, F>,
    basis: &Echelon<F>,
    target: &LineSet,
) -> Result<Option<Offer>, AllocError>
    requires within { All (λ m. m < length state.now.problem.lines) target.now }
    requires width { basis.now.width ≡ state.now.problem.dimension }
    requires spans { All (InSpan F.scalars state.now.problem.dimension basis.now.rows) (vectors_at state.now.problem state.now.set) }
    ensures { IfOk result (λ found. MatchOption found
        ((l : ℕ) → Contains target.now l → OffersNothing F.scalars state.now.problem basis.now.rows target.now state.now.set l)
        (IsOffer F.scalars state.now.problem basis.now.rows target.now state.now.set)) }
{
    for i in 0..target.len() {
        if let Some(offer) = offer_of(state, basis, target, target.at(i))? {
            return Ok(Some(offer));
        }
    }
    Ok(None)
}

/// A free line of the target, or an exchange for a line of it that the set and `keep` don't span. `None` says that
/// the set has settled.
pub fn first_offer<F: Field>(
    state: &Matched<'_, F>,
    target: &LineSet,
    keep: &Rows<F>,
) -> Result<Option<Offer>, AllocError>
    requires within { All (λ m. m < length state.now.problem.lines) target.now }
    requires width { keep.now.width ≡ state.now.problem.dimension }
    ensures { IfOk result (λ found. MatchOption found
        (IsSettled F.scalars state.now.problem keep.now.rows target.now state.now.set)
        (IsOffer F.scalars state.now.problem (vectors_at state.now.problem state.now.set ++ keep.now.rows) target.now state.now.set)) }
{
    let (problem, _set) = (state.problem(), state.set());
    let (_lines, _kept) = (problem.len(), keep.len());
    let basis = basis_with(state, keep)?;
    offer_along(state, &basis, target)
}
