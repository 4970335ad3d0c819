//! What ends the call.

ghost use Rattle.std.specs.Prelude.{◌<◌, IfOk, length};
ghost use Rattle.matching_state.specs.Overlaps.{IsOverlap};
ghost use Rattle.classes.specs.Ends.{TellsEnd};

use field_core::Field;
use matching_state::Matched;
use parity_lines::LineSet;
use std::alloc::AllocError;

/// What ends the call.
#[derive(Drop)]
pub enum Ended {
    /// An independent set that is one line longer.
    Larger(LineSet),
    /// Two lines that are an overlap of this set, from which no direct step leads on.
    Overlapping {
        set: LineSet,
        first: usize,
        second: usize,
    },
}

/// The end that two overlapping lines give: where a direct step leads on, its set.
pub fn ended_by<F: Field>(
    state: &Matched<'_, F>,
    first: usize,
    second: usize,
) -> Result<Ended, AllocError>
    requires first_within { first < length state.now.problem.lines }
    requires second_within { second < length state.now.problem.lines }
    requires overlap { IsOverlap F.scalars state.now.problem state.now.set first second }
    ensures { IfOk result (TellsEnd F.scalars state.now.problem (length state.now.set)) }
{
    let set = state.set();
    match state.direct_step()? {
        Some(larger) => Ok(Ended::Larger(larger)),
        None => Ok(Ended::Overlapping {
            set: set.copied()?,
            first,
            second,
        }),
    }
}
