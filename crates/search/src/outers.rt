//! Lines in classes, by what they bring in beside the span of a set.

ghost use Rattle.std.specs.Prelude.{◌≡◌, ◌<◌, ℕ, All, IfOk, length};
ghost use Rattle.search.specs.Repeats.{AreFirsts};

use crate::guessing::problem_of_residues;
use crate::repeats::first_lines;
use echelon::{Echelon, Inserted};
use field_core::Field;
use matching_state::Matched;
use parity_lines::{LineSet, Problem};
use std::alloc::{AllocError, Global};

/// A basis of the span of the set.
fn span_of_set<F: Field>(
    alloc: Global,
    problem: &Problem<F>,
    set: &LineSet,
) -> Result<Echelon<F>, AllocError>
    requires { All (λ m. m < length problem.now.lines) set.now }
    ensures { IfOk result (λ basis. basis.width ≡ problem.now.dimension) }
{
    let mut basis = Echelon::new(alloc, problem.dimension())?;
    for i in 0..set.len() {
        let line = set.at(i);
        let _first: Inserted<F> = basis.insert(problem.first(line))?;
        let _second: Inserted<F> = basis.insert(problem.second(line))?;
    }
    Ok(basis)
}

/// For each line the first one that spans the same modulo the span of the set. The lines within it are one class.
pub fn first_outers<F: Field>(state: &Matched<'_, F>) -> Result<Vec<usize>, AllocError>
    ensures { IfOk result (λ firsts. AreFirsts (length state.now.problem.lines) firsts.items) }
{
    let (alloc, problem) = (state.alloc(), state.problem());
    let basis = span_of_set(alloc, problem, state.set())?;
    first_lines(alloc, &problem_of_residues(alloc, problem, &basis)?)
}

/// Puts the line last, where it is in one of the classes.
fn push_in_classes(
    lines: &mut Vec<usize>,
    firsts: &[usize],
    line: usize,
    one: usize,
    other: usize,
) -> Result<(), AllocError>
    requires { line < length firsts.now }
    ensures { (n : ℕ) → line < n → All (λ m. m < n) lines.old.items → All (λ m. m < n) lines.new.items }
{
    let first = firsts[line];
    if first == one || first == other {
        lines.push(line)?;
    }
    Ok(())
}

/// The lines of the order that are in the class of `line` or in that of `inside`.
pub fn lines_in_classes(
    alloc: Global,
    order: &[usize],
    firsts: &[usize],
    line: usize,
    inside: usize,
) -> Result<Vec<usize>, AllocError>
    requires { All (λ m. m < length firsts.now) order.now }
    ensures { IfOk result (λ lines. All (λ m. m < length firsts.now) lines.items) }
{
    let mut lines = Vec::new(alloc);
    for at in 0..order.len() {
        push_in_classes(&mut lines, firsts, order[at], line, inside)?;
    }
    Ok(lines)
}
