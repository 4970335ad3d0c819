//! Lines in classes, by labels: the lines that supports join.

ghost use Rattle.std.specs.Prelude.{◌≡◌, ◌⊎◌, ◌∷◌, ◌++◌, [], ◌<◌, ℕ, All, IfOk, length};
ghost use Rattle.matching_state.specs.Sights.{IsSeen};
ghost use Rattle.search.specs.Below.{ArePartsBelow};
ghost use Rattle.search.specs.Notes.{AreOf};

use field_core::{Field, is_zero};
use matching_state::{Exposed, Matched};
use parity_lines::{LineSet, Parts};
use std::alloc::{AllocError, Global};

/// Whether the line's vectors span more than zero, and no plane.
fn has_rank_one<F: Field>(state: &Matched<'_, F>, line: usize) -> bool
    requires { line < length state.now.problem.lines }
{
    let problem = state.problem();
    let none = is_zero(problem.first(line)) && is_zero(problem.second(line));
    !none && !state.has_rank_two(line)
}

/// A label for each line, the least line of its class, and whether the line was seen outside of a span.
#[derive(Drop)]
pub struct Labels {
    labels: Vec<usize>,
    outside: Vec<bool>,
}

impl Labels {
    /// Each line in a class of its own.
    pub fn new(alloc: Global, lines: usize) -> Result<Labels, AllocError>
        ensures { IfOk result (AreOf lines) }
    {
        let mut labels = Vec::new(alloc);
        let mut outside = Vec::new(alloc);
        for line in 0..lines {
            labels.push(line)?;
            outside.push(false)?;
        }
        Ok(Labels { labels, outside })
    }

    /// The same classes.
    pub fn copied(&self, alloc: Global) -> Result<Labels, AllocError>
        ensures { IfOk result (λ labels. (n : ℕ) → AreOf n self.now → AreOf n labels) }
    {
        Ok(Labels {
            labels: self.labels.iter().copied().collect(alloc)?,
            outside: self.outside.iter().copied().collect(alloc)?,
        })
    }

    /// Makes one class of those of both lines.
    fn join(&mut self, first: usize, second: usize)
        requires first { first < length self.old.labels.items }
        requires second { second < length self.old.labels.items }
        ensures { (n : ℕ) → AreOf n self.old → AreOf n self.new }
    {
        let (a, b) = (self.labels[first], self.labels[second]);
        if a == b {
            return;
        }
        let (kept, gone) = if a < b { (a, b) } else { (b, a) };
        for label in self.labels.iter_mut() {
            if *label == gone {
                *label = kept;
            }
        }
    }

    /// Joins an exposed line with its support.
    fn join_support<F: Field>(&mut self, state: &Matched<'_, F>, exposed: Exposed<F>)
        requires seen { IsSeen F.scalars F.number state.now.problem state.now.set exposed }
        requires labels { AreOf (length state.now.problem.lines) self.old }
        ensures { AreOf (length state.now.problem.lines) self.new }
    {
        let set = state.set();
        for i in 0..set.len() {
            if state.has_component(exposed, i) {
                self.join(exposed.line, set.at(i));
            }
        }
    }

    /// Joins each exposed line of the order with its support.
    pub fn join_exposed<F: Field>(&mut self, state: &Matched<'_, F>, order: &[usize])
        requires lines { All (λ m. m < length state.now.problem.lines) order.now }
        requires labels { AreOf (length state.now.problem.lines) self.old }
        ensures { AreOf (length state.now.problem.lines) self.new }
    {
        for at in 0..order.len() {
            let line = order[at];
            if state.adds_one(line) {
                self.outside[line] = true;
            }
            if let Some(exposed) = state.exposed(line) {
                self.join_support(state, exposed);
            }
        }
    }

    /// Joins a line with those over which its vectors have components.
    fn join_reached<F: Field>(&mut self, state: &Matched<'_, F>, line: usize)
        requires line { line < length state.now.problem.lines }
        requires labels { AreOf (length state.now.problem.lines) self.old }
        ensures { AreOf (length state.now.problem.lines) self.new }
    {
        let set = state.set();
        for i in 0..set.len() {
            if state.reaches(line, i) {
                self.join(line, set.at(i));
            }
        }
    }

    /// Joins each line of the order, of rank two and never outside, with those over which its vectors have components.
    pub fn join_inside<F: Field>(&mut self, state: &Matched<'_, F>, order: &[usize])
        requires lines { All (λ m. m < length state.now.problem.lines) order.now }
        requires labels { AreOf (length state.now.problem.lines) self.old }
        ensures { AreOf (length state.now.problem.lines) self.new }
    {
        for at in 0..order.len() {
            let line = order[at];
            if !self.outside[line] && state.has_rank_two(line) {
                self.join_reached(state, line);
            }
        }
    }

    /// Joins each line with the one that stands for it, but for lines of rank one: these cost nothing alone, and a
    /// smaller part asks for a smaller kernel.
    pub fn join_firsts<F: Field>(&mut self, state: &Matched<'_, F>, firsts: &[usize])
        requires long { length firsts.now ≡ length state.now.problem.lines }
        requires within { All (λ m. m < length firsts.now) firsts.now }
        requires labels { AreOf (length firsts.now) self.old }
        ensures { AreOf (length firsts.now) self.new }
    {
        for line in 0..firsts.len() {
            if !has_rank_one(state, line) {
                self.join(line, firsts[line]);
            }
        }
    }

    /// The lines with a label.
    fn lines_with(&self, alloc: Global, label: usize) -> Result<LineSet, AllocError>
        ensures { IfOk result (λ lines. All (λ m. m < length self.now.labels.items) lines) }
    {
        let mut lines = LineSet::new(alloc);
        for line in 0..self.labels.len() {
            if self.labels[line] == label {
                lines.push(line)?;
            }
        }
        Ok(lines)
    }

    /// The classes, as parts.
    pub fn parts(&self, alloc: Global) -> Result<Parts, AllocError>
        ensures { IfOk result (ArePartsBelow (length self.now.labels.items)) }
    {
        let mut parts = Parts::new(alloc);
        for line in 0..self.labels.len() {
            if self.labels[line] == line {
                push_part(&mut parts, self.lines_with(alloc, line)?)?;
            }
        }
        Ok(parts)
    }
}

/// Puts a part last, unless it is empty.
pub fn push_part(parts: &mut Parts, part: LineSet) -> Result<(), AllocError>
    ensures { (parts.new ≡ parts.old) ⊎ (parts.new ≡ parts.old ++ part ∷ []) }
{
    if part.len() == 0 {
        return Ok(());
    }
    match parts.push(part) {
        Ok(()) => Ok(()),
        Err(_) => Err(AllocError),
    }
}
