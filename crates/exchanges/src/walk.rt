//! Steps toward a target, as far as they go.

ghost use Rattle.std.specs.Prelude.{◌≡◌, ◌<◌, All, IfOk, length};
ghost use Rattle.exchanges.specs.Exchanges.{IsReached, StillMisses};
ghost use Rattle.exchanges.specs.StepsToward.{TellsMoved};
ghost use Rattle.matching_state.specs.Missing.{Misses};

use crate::{Stepped, step_toward};
use field_core::{Field, Rows};
use matching_state::Matched;
use parity_lines::LineSet;
use std::alloc::AllocError;

/// Where the steps ended.
#[derive(Drop)]
pub enum Moved {
    /// No line of the target is free, and no exchange toward it is left.
    Settled,
    /// An independent set that is one line longer.
    Larger(LineSet),
}

/// Makes exchanges toward the target, as [`step_toward`] does, until the set has settled or a longer set shows. The
/// lines of the target that are outside the set get fewer by one each time. Also after want of memory the set is
/// one that such exchanges reach.
pub fn move_toward<F: Field>(
    state: &mut Matched<'_, F>,
    target: &LineSet,
    keep: &Rows<F>,
) -> Result<Moved, AllocError>
    requires within { All (λ m. m < length state.old.problem.lines) target.now }
    requires width { keep.now.width ≡ state.old.problem.dimension }
    requires missed { Misses F.scalars state.old.problem state.old.set keep.now.rows }
    ensures problem { state.new.problem ≡ state.old.problem }
    ensures reached { IsReached F.scalars state.old.problem keep.now.rows target.now state.old.set state.new.set }
    ensures kept { StillMisses F.scalars state.old.problem keep.now.rows state.old.set state.new.set }
    ensures moved { IfOk result (TellsMoved F.scalars state.old.problem keep.now.rows target.now state.new.set) }
{
    let (problem, _set) = (state.problem(), state.set());
    let (_lines, _kept, _aims) = (problem.len(), keep.len(), target.len());
    loop {
        match step_toward(state, target, keep)? {
            Stepped::Moved { .. } => {}
            Stepped::Settled => return Ok(Moved::Settled),
            Stepped::Larger(set) => return Ok(Moved::Larger(set)),
        }
    }
}
