//! Independent sets that are taken line by line.

ghost use Rattle.std.specs.List.{range_with_len};
ghost use Rattle.std.specs.Prelude.{◌≡◌, ◌<◌, All, IfOk, length};

use field_core::Field;
use matching_state::Matched;
use parity_lines::{LineSet, Problem};
use std::alloc::{AllocError, Global};

/// The lines below `count`, in order.
pub fn lines_below(alloc: Global, count: usize) -> Result<LineSet, AllocError>
    ensures all { IfOk result (λ set. set ≡ range_with_len 0 count) }
    ensures below { IfOk result (λ set. All (λ m. m < count) set) }
{
    let mut set = LineSet::new(alloc);
    for line in 0..count {
        set.push(line)?;
    }
    Ok(set)
}

/// Puts in the line, where it is free.
fn insert_free<F: Field>(state: &mut Matched<'_, F>, line: usize) -> Result<(), AllocError>
    requires { line < length state.old.problem.lines }
    ensures { state.new.problem ≡ state.old.problem }
{
    if state.is_free(line) {
        state.insert(line)?;
    }
    Ok(())
}

/// The state of lines that are taken in order, each where those taken before leave it free.
pub fn greedy_state<'a, F: Field>(
    alloc: Global,
    problem: &'a Problem<F>,
    lines: &LineSet,
) -> Result<Matched<'a, F>, AllocError>
    requires { All (λ m. m < length problem.now.lines) lines.now }
    ensures { IfOk result (λ state. state.problem ≡ problem.now) }
{
    let mut state = Matched::started(alloc, problem, &LineSet::new(alloc))?;
    for i in 0..lines.len() {
        insert_free(&mut state, lines.at(i))?;
    }
    Ok(state)
}
