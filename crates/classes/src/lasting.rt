//! The last exchanges: toward a set that misses a vector of a class and the part of a stray vector at another class.

ghost use Rattle.std.specs.Prelude.{◌≡◌, ◌<◌, [], ◌∷◌, All, IfOk, length, map};
ghost use Rattle.linear_algebra.specs.Scalars.{IsField};
ghost use Rattle.classes.specs.Ends.{IsSetOf};
ghost use Rattle.classes.specs.Lasting.{IsLasting};
ghost use Rattle.classes.specs.Pacing.{TellsWalk};
ghost use Rattle.matching_state.specs.Missing.{Misses};

use crate::pacing::{Paced, Walked, step_in_parts};
use field_core::{Field, Rows};
use matching_state::Matched;
use parity_lines::LineSet;
use std::alloc::AllocError;

/// Steps toward a target that misses `o` and a part of `vector` together, until the set misses `o` and `vector`
/// together.
pub fn last_exchanges<F: Field>(
    state: &mut Matched<'_, F>,
    labels: &[usize],
    target: &LineSet,
    o: &[F],
    vector: &[F],
) -> Result<Walked, AllocError>
    requires labels { length labels.now ≡ length state.old.problem.lines }
    requires target { IsSetOf F.scalars state.old.problem (length state.old.set) target.now }
    requires long { length o.now ≡ state.old.problem.dimension }
    requires vector_long { length vector.now ≡ state.old.problem.dimension }
    requires lasting { (L : IsField F.scalars) → IsLasting F.scalars L state.old.problem labels.now target.now
        (map F.number o.now) (map F.number vector.now) state.old.set }
    ensures problem { state.new.problem ≡ state.old.problem }
    ensures as_long { length state.new.set ≡ length state.old.set }
    ensures walk { IfOk result (TellsWalk F.scalars state.old.problem labels.now (length state.old.set) state.new.set
        (Misses F.scalars state.old.problem state.new.set (map F.number o.now ∷ map F.number vector.now ∷ []))) }
{
    let (problem, _set) = (state.problem(), state.set());
    let _lines = problem.len();
    let keep = Rows::alone(state.alloc(), o)?;
    loop {
        match step_in_parts(state, labels, target, &keep)? {
            Paced::Settled => unreachable!(),
            Paced::Larger(larger) => return Ok(Walked::Larger(larger)),
            Paced::Stray { line, other } => return Ok(Walked::Stray { line, other }),
            Paced::Moved => {}
        }
        if state.coordinates(vector)?.is_none() {
            return Ok(Walked::Arrived);
        }
    }
}
