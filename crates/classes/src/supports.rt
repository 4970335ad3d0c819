//! Supports of exposed lines: those that leave their class, and those that meet.

ghost use Rattle.std.specs.Prelude.{◌≡◌, ◌≢◌, ◌<◌, ◌↔◌, ℕ, IfOk, IsTrue, MatchOption, length, slice_index};
ghost use Rattle.std.specs.List.{Contains};
ghost use Rattle.matching_state.specs.LinePlaces.{IsExposed};
ghost use Rattle.classes.specs.Supports.{HasSupport, HaveCommonSupport, IsStray, IsClosed, StaysInClass};

use field_core::Field;
use matching_state::{Matched, Place};
use parity_lines::LineSet;
use std::alloc::AllocError;

/// The support of a line, where it is exposed.
pub fn support_of<F: Field>(
    state: &Matched<'_, F>,
    line: usize,
) -> Result<Option<LineSet>, AllocError>
    requires { line < length state.now.problem.lines }
    ensures { IfOk result (λ found. MatchOption found
        (¬ (IsExposed F.scalars state.now.problem state.now.set line))
        (HasSupport F.scalars state.now.problem state.now.set line)) }
{
    let _lines = state.problem().len();
    let _set = state.set();
    match state.position(line)? {
        Place::Exposed { support, .. } => Ok(Some(support)),
        Place::Inside => Ok(None),
        Place::Single { .. } => Ok(None),
        Place::Free => Ok(None),
    }
}

/// The first of the lines that hasn't this label.
fn first_apart(lines: &LineSet, labels: &[usize], label: usize) -> Option<usize>
    requires { (m : ℕ) → Contains lines.now m → m < length labels.now }
    ensures { MatchOption result
        ((m : ℕ) → Contains lines.now m → slice_index labels.now m ≡ label)
        (λ m. Contains lines.now m × (slice_index labels.now m ≢ label)) }
{
    for i in 0..lines.len() {
        let line = lines.at(i);
        if labels[line] != label {
            return Some(line);
        }
    }
    None
}

/// A line of another label in the line's support, where it is exposed.
fn stray_of<F: Field>(
    state: &Matched<'_, F>,
    labels: &[usize],
    line: usize,
) -> Result<Option<usize>, AllocError>
    requires within { line < length state.now.problem.lines }
    requires labels { length labels.now ≡ length state.now.problem.lines }
    ensures { IfOk result (λ found. MatchOption found
        (StaysInClass F.scalars state.now.problem labels.now state.now.set line)
        (IsStray F.scalars state.now.problem labels.now state.now.set line)) }
{
    let _set = state.set();
    match support_of(state, line)? {
        Some(support) => Ok(first_apart(&support, labels, labels[line])),
        None => Ok(None),
    }
}

/// An exposed line, and a line of its support that has another label.
pub fn stray_support<F: Field>(
    state: &Matched<'_, F>,
    labels: &[usize],
) -> Result<Option<(usize, usize)>, AllocError>
    requires { length labels.now ≡ length state.now.problem.lines }
    ensures { IfOk result (λ found. MatchOption found
        (IsClosed F.scalars state.now.problem labels.now state.now.set)
        (λ pair. IsStray F.scalars state.now.problem labels.now state.now.set pair.0 pair.1)) }
{
    for line in 0..state.problem().len() {
        if let Some(other) = stray_of(state, labels, line)? {
            return Ok(Some((line, other)));
        }
    }
    Ok(None)
}

/// Whether the supports of two exposed lines meet.
pub fn supports_meet<F: Field>(
    state: &Matched<'_, F>,
    first: usize,
    second: usize,
) -> Result<bool, AllocError>
    requires first_within { first < length state.now.problem.lines }
    requires second_within { second < length state.now.problem.lines }
    requires first_exposed { IsExposed F.scalars state.now.problem state.now.set first }
    requires second_exposed { IsExposed F.scalars state.now.problem state.now.set second }
    ensures { IfOk result (λ told. IsTrue told ↔ HaveCommonSupport F.scalars state.now.problem state.now.set first second) }
{
    let (Some(one), Some(other)) = (support_of(state, first)?, support_of(state, second)?) else {
        unreachable!();
    };
    Ok(one.meets(&other))
}
