//! Longer sets by direct steps.

ghost use Rattle.std.specs.Prelude.{◌≡◌};

use field_core::Field;
use matching_state::Matched;
use std::alloc::AllocError;

/// Goes to longer sets by direct steps, until there is none.
pub fn settle<F: Field>(state: &mut Matched<'_, F>) -> Result<(), AllocError>
    ensures { state.new.problem ≡ state.old.problem }
{
    for _step in 0..state.problem().len() {
        match state.direct_step()? {
            Some(larger) => state.go_to(&larger)?,
            None => return Ok(()),
        }
    }
    Ok(())
}
