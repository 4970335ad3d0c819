//! Steps toward a target from sets whose supports stay in their classes, and the walk to a set that misses a vector.

ghost use Rattle.std.specs.Prelude.{◌≡◌, ◌<◌, [], ◌∷◌, All, IfOk, OnErr, length, map};
ghost use Rattle.classes.specs.Ends.{IsSetOf};
ghost use Rattle.classes.specs.Pacing.{KeepsCounts, TellsPace, TellsWalk};
ghost use Rattle.exchanges.specs.Exchanges.{StillMisses};
ghost use Rattle.matching_state.specs.Missing.{Misses};

use crate::supports::stray_support;
use exchanges::{Stepped, step_toward};
use field_core::{Field, Rows};
use matching_state::Matched;
use parity_lines::LineSet;
use std::alloc::AllocError;

/// What came of a step from a set whose supports are looked at before.
#[derive(Drop)]
pub enum Paced {
    /// The line is exposed, and the other one, of another label, in its support.
    Stray { line: usize, other: usize },
    /// An independent set that is one line longer.
    Larger(LineSet),
    /// No line of the target is free, and no exchange toward it is left.
    Settled,
    /// A line of the target has come in.
    Moved,
}

/// Where a walk by such steps ended.
#[derive(Drop)]
pub enum Walked {
    /// At a set over which the line is exposed, with the other one, of another label, in its support.
    Stray { line: usize, other: usize },
    /// With an independent set that is one line longer.
    Larger(LineSet),
    /// At a set with what was wanted.
    Arrived,
}

/// A step toward the target, where each support stays in its class. After want of memory the state is unchanged.
pub fn step_in_parts<F: Field>(
    state: &mut Matched<'_, F>,
    labels: &[usize],
    target: &LineSet,
    keep: &Rows<F>,
) -> Result<Paced, AllocError>
    requires labels { length labels.now ≡ length state.old.problem.lines }
    requires within { All (λ m. m < length state.old.problem.lines) target.now }
    requires width { keep.now.width ≡ state.old.problem.dimension }
    requires missed { Misses F.scalars state.old.problem state.old.set keep.now.rows }
    ensures problem { state.new.problem ≡ state.old.problem }
    ensures kept { StillMisses F.scalars state.old.problem keep.now.rows state.old.set state.new.set }
    ensures pace { IfOk result (TellsPace F.scalars state.old.problem labels.now keep.now.rows target.now state.old.set state.new.set) }
    ensures err { OnErr result (state.new ≡ state.old) }
{
    let _set = state.set();
    if let Some((line, other)) = stray_support(state, labels)? {
        return Ok(Paced::Stray { line, other });
    }
    match step_toward(state, target, keep)? {
        Stepped::Larger(larger) => Ok(Paced::Larger(larger)),
        Stepped::Settled => Ok(Paced::Settled),
        Stepped::Moved { .. } => Ok(Paced::Moved),
    }
}

/// Steps toward a target that misses `o`, until the set misses it too. Each class keeps as many lines of the set.
pub fn reach<F: Field>(
    state: &mut Matched<'_, F>,
    labels: &[usize],
    target: &LineSet,
    o: &[F],
) -> Result<Walked, AllocError>
    requires labels { length labels.now ≡ length state.old.problem.lines }
    requires target { IsSetOf F.scalars state.old.problem (length state.old.set) target.now }
    requires long { length o.now ≡ state.old.problem.dimension }
    requires missed { Misses F.scalars state.old.problem target.now (map F.number o.now ∷ []) }
    ensures problem { state.new.problem ≡ state.old.problem }
    ensures counts { KeepsCounts labels.now state.old.set state.new.set }
    ensures walk { IfOk result (TellsWalk F.scalars state.old.problem labels.now (length state.old.set) state.new.set
        (Misses F.scalars state.old.problem state.new.set (map F.number o.now ∷ []))) }
{
    let (problem, _set) = (state.problem(), state.set());
    let _lines = problem.len();
    let keep = Rows::new(state.alloc(), problem.dimension());
    loop {
        if state.coordinates(o)?.is_none() {
            return Ok(Walked::Arrived);
        }
        match step_in_parts(state, labels, target, &keep)? {
            Paced::Moved => {}
            Paced::Settled => unreachable!(),
            Paced::Larger(larger) => return Ok(Walked::Larger(larger)),
            Paced::Stray { line, other } => return Ok(Walked::Stray { line, other }),
        }
    }
}
