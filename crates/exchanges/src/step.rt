//! One step toward a target.

ghost use Rattle.std.specs.Prelude.{◌≡◌, ◌<◌, All, IfOk, OnErr, length};
ghost use Rattle.exchanges.specs.Exchanges.{IsLonger, StillMisses};
ghost use Rattle.exchanges.specs.StepsToward.{TellsStep};
ghost use Rattle.matching_state.specs.Missing.{Misses};
ghost use Rattle.matching_state.specs.LinePlaces.{rank_beside};

use crate::offer::{Offer, first_offer};
use crate::swap;
use field_core::{Field, Rows};
use matching_state::Matched;
use parity_lines::LineSet;
use std::alloc::AllocError;

/// What came of a step.
#[derive(Drop)]
pub enum Stepped {
    /// The line `into` of the target has taken the place of `out`.
    Moved { out: usize, into: usize },
    /// No line of the target is free, and no exchange toward it is left.
    Settled,
    /// An independent set that is one line longer.
    Larger(LineSet),
}

/// The set with a free line.
fn larger<F: Field>(state: &Matched<'_, F>, line: usize) -> Result<LineSet, AllocError>
    requires within { line < length state.now.problem.lines }
    requires free { rank_beside F.scalars state.now.problem state.now.set line ≡ 2 }
    ensures { IfOk result (IsLonger F.scalars state.now.problem state.now.set) }
{
    let _lines = state.problem().len();
    state.set().with(line)
}

/// Makes one exchange toward the target: brings in a line of it that isn't in the span of the set and `keep`, and
/// takes out a line that is none of it. The set then misses `keep` as before. In every other case, want of memory
/// among them, the state is unchanged.
pub fn step_toward<F: Field>(
    state: &mut Matched<'_, F>,
    target: &LineSet,
    keep: &Rows<F>,
) -> Result<Stepped, AllocError>
    requires within { All (λ m. m < length state.old.problem.lines) target.now }
    requires width { keep.now.width ≡ state.old.problem.dimension }
    requires missed { Misses F.scalars state.old.problem state.old.set keep.now.rows }
    ensures problem { state.new.problem ≡ state.old.problem }
    ensures kept { StillMisses F.scalars state.old.problem keep.now.rows state.old.set state.new.set }
    ensures step { IfOk result (TellsStep F.scalars state.old.problem keep.now.rows target.now state.old.set state.new.set) }
    ensures err { OnErr result (state.new ≡ state.old) }
{
    let (problem, _set) = (state.problem(), state.set());
    let (_lines, _kept) = (problem.len(), keep.len());
    match first_offer(state, target, keep)? {
        Some(Offer::Exchange { out, into }) => {
            swap(state, out, into)?;
            Ok(Stepped::Moved { out, into })
        }
        Some(Offer::Line(line)) => Ok(Stepped::Larger(larger(state, line)?)),
        None => Ok(Stepped::Settled),
    }
}
