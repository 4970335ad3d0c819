//! One exchange of lines.

ghost use Rattle.std.specs.Prelude.{◌≡◌, ◌<◌, OnOk, OnErr, length};
ghost use Rattle.matching_state.specs.Overlaps.{InSupport};
ghost use Rattle.matching_state.specs.LinePlaces.{IsExposed};
ghost use Rattle.matching_state.specs.DirectSteps.{IsSwap};
ghost use Rattle.parity_lines.specs.LineSets.{IsIndependentSet};

use field_core::Field;
use matching_state::Matched;
use std::alloc::AllocError;

/// Puts the exposed line `into` in the place of `out`, a line of its support. After want of memory the state is
/// unchanged.
pub fn swap<F: Field>(state: &mut Matched<'_, F>, out: usize, into: usize) -> Result<(), AllocError>
    requires within { into < length state.old.problem.lines }
    requires exposed { IsExposed F.scalars state.old.problem state.old.set into }
    requires support { InSupport F.scalars state.old.problem state.old.set into out }
    ensures problem { state.new.problem ≡ state.old.problem }
    ensures independent { IsIndependentSet F.scalars state.new.problem state.new.set }
    ensures ok { OnOk result (IsSwap state.old.set out into state.new.set) }
    ensures err { OnErr result (state.new ≡ state.old) }
{
    state.exchange(out, into)
}
