//! Exchanges, with which a meeting goes along.

ghost use Rattle.std.specs.Prelude.{◌≡◌, ◌*◌, ◌<◌, IfOk, IfSome, length, slice_index, vec_len};
ghost use Rattle.matching_state.specs.Overlaps.{InSupport};
ghost use Rattle.matching_state.specs.Sights.{IsSeen};
ghost use Rattle.search.specs.Found.{KeepsSize};
ghost use Rattle.search.specs.Meetings.{IsOver};

use crate::meeting::Meeting;
use field_core::Field;
use matching_state::{Exposed, Matched};
use parity_lines::LineSet;
use std::alloc::AllocError;

/// The index of the line in the set.
pub fn index_in(set: &LineSet, line: usize) -> Option<usize>
    ensures { IfSome result (λ i. i < length set.now) }
{
    for i in 0..set.len() {
        if set.at(i) == line {
            return Some(i);
        }
    }
    None
}

/// The coordinates of the tip, two a line of the set.
fn tip_of<F: Field>(state: &Matched<'_, F>, exposed: Exposed<F>) -> Result<Vec<F>, AllocError>
    requires { exposed.line < length state.now.problem.lines }
    ensures { IfOk result (λ tip. vec_len tip ≡ 2 * length state.now.set) }
{
    let mut tip = Vec::new(state.alloc());
    for i in 0..state.set().len() {
        let (x, y) = state.tip_pair(exposed, i);
        tip.push(x)?;
        tip.push(y)?;
    }
    Ok(tip)
}

/// The tip as a combination of the line's vectors.
fn own_pair<F: Field>(exposed: Exposed<F>) -> (F, F) {
    if exposed.second {
        (F::one(), exposed.factor.neg())
    } else {
        (exposed.factor.neg(), F::one())
    }
}

/// Puts an exposed line in the place of the one at the index, and tells the one that was there.
fn take_place<F: Field>(
    state: &mut Matched<'_, F>,
    exposed: Exposed<F>,
    i: usize,
) -> Result<usize, AllocError>
    requires seen { IsSeen F.scalars F.number state.old.problem state.old.set exposed }
    requires index { i < length state.old.set }
    requires support { InSupport F.scalars state.old.problem state.old.set exposed.line (slice_index state.old.set i) }
    ensures keeps { KeepsSize state.old state.new }
    ensures gone { IfOk result (λ out. out < length state.old.problem.lines) }
{
    let out = state.set().at(i);
    state.exchange(out, exposed.line)?;
    Ok(out)
}

/// Puts the line `into` in the place of the one at the index, where it can take it, and narrows the meeting to the span
/// of the new set. Tells the line that was there.
pub fn exchange_at<F: Field>(
    state: &mut Matched<'_, F>,
    meeting: &mut Meeting<F>,
    i: usize,
    into: usize,
) -> Result<Option<usize>, AllocError>
    requires line { into < length state.old.problem.lines }
    requires index { i < length state.old.set }
    requires over { IsOver state.old meeting.old }
    ensures keeps { KeepsSize state.old state.new }
    ensures over { IsOver state.new meeting.new }
    ensures gone { IfOk result (λ found. IfSome found (λ out. out < length state.old.problem.lines)) }
{
    let Some(exposed) = state.exposed(into) else {
        return Ok(None);
    };
    if !state.has_component(exposed, i) {
        return Ok(None);
    }
    let mut tip = tip_of(state, exposed)?;
    let pair = state.tip_pair(exposed, i);
    let out = take_place(state, exposed, i)?;
    meeting.narrow(i, pair);
    if let Some(to) = index_in(state.set(), into) {
        meeting.carry(i, to, tip.as_mut_slice(), own_pair(exposed));
    }
    Ok(Some(out))
}
