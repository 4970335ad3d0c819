//! Walks that begin anew from sets at random.

ghost use Rattle.std.specs.Prelude.{◌<◌, IfOk, IfSome, length, slice_index};
ghost use Rattle.matching_state.specs.Overlaps.{InSupport};
ghost use Rattle.matching_state.specs.Sights.{IsSeen};
ghost use Rattle.search.specs.Found.{KeepsSize};

use crate::choices::Choices;
use crate::exchanging::exchange_at;
use crate::meeting::Meeting;
use field_core::Field;
use matching_state::{Exposed, Matched};
use std::alloc::AllocError;

/// The index of the first line of the set, from `from` on, at which the tip has a component.
fn component_from<F: Field>(
    state: &Matched<'_, F>,
    exposed: Exposed<F>,
    from: usize,
) -> Option<usize>
    requires { IsSeen F.scalars F.number state.now.problem state.now.set exposed }
    ensures { IfSome result (λ i. i < length state.now.set) }
{
    for i in from..state.set().len() {
        if state.has_component(exposed, i) {
            return Some(i);
        }
    }
    None
}

/// The index of a line of the set at random, which the exposed line can take the place of.
fn component_at_random<F: Field>(
    state: &Matched<'_, F>,
    exposed: Exposed<F>,
    choices: &mut Choices,
) -> Option<usize>
    requires seen { IsSeen F.scalars F.number state.now.problem state.now.set exposed }
    requires some { 0 < length state.now.set }
    ensures { IfSome result (λ i. i < length state.now.set) }
{
    match component_from(state, exposed, choices.below(state.set().len())) {
        Some(i) => Some(i),
        None => component_from(state, exposed, 0),
    }
}

/// An exchange at random, for a line at random. Tells whether one was tried.
fn exchange_at_random<F: Field>(
    state: &mut Matched<'_, F>,
    choices: &mut Choices,
) -> Result<bool, AllocError>
    requires lines { 0 < length state.old.problem.lines }
    requires set { 0 < length state.old.set }
    ensures { KeepsSize state.old state.new }
{
    let line = choices.below(state.problem().len());
    let Some(exposed) = state.exposed(line) else {
        return Ok(false);
    };
    let Some(i) = component_at_random(state, exposed, choices) else {
        return Ok(false);
    };
    let mut none = Meeting::none(state.alloc(), state.set().len());
    exchange_at(state, &mut none, i, line)?;
    Ok(true)
}

/// Goes to another set, by about as many exchanges at random as the set has lines.
pub fn wander<F: Field>(state: &mut Matched<'_, F>, choices: &mut Choices) -> Result<(), AllocError>
    ensures { KeepsSize state.old state.new }
{
    let (lines, all) = (state.set().len(), state.problem().len());
    if lines == 0 || all == 0 {
        return Ok(());
    }
    let mut more = lines;
    for _try in 0..all.saturating_mul(40) {
        if exchange_at_random(state, choices)? {
            if more == 0 {
                return Ok(());
            }
            more -= 1;
        }
    }
    Ok(())
}
