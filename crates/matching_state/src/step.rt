//! A set that is one step from M: M with a line, or with two lines in the place of one.

ghost use Rattle.std.specs.Prelude.{◌≡◌, ◌≢◌, ◌<◌, ◌↔◌, ℕ, All, IfOk, MatchOption, length, slice_index};
ghost use Rattle.std.specs.List.{Contains};
ghost use Rattle.std.specs.List.Sorted.{IsStrictlyIncreasing};
ghost use Rattle.matching_state.specs.Bases.{IsKept};
ghost use Rattle.matching_state.specs.DirectSteps.{IsTwoLineStep, TellsDirectStep};
ghost use Rattle.matching_state.specs.Overlaps.{InSupport};
ghost use Rattle.matching_state.specs.Pairs.{HasNoPair, HasPair};
ghost use Rattle.matching_state.specs.Sights.{Cross, IsSeen};
ghost use Rattle.matching_state.specs.Surveys.{TellsSurvey};

use crate::Matched;
use crate::outer_classes::OuterClasses;
use crate::sights::{Exposed, Sight};
use field_core::Field;
use parity_lines::LineSet;
use std::alloc::AllocError;

/// An exposed line, and the number of the class of its outer.
#[derive(Clone, Copy, Drop)]
pub(crate) struct Entry<F: Field> {
    pub exposed: Exposed<F>,
    pub class: usize,
}

/// What is known of all lines: one that is free, or those that are exposed, where none is free.
#[derive(Drop)]
pub(crate) enum Survey<F: Field> {
    Free(usize),
    Exposed(Vec<Entry<F>>),
}

/// Two exposed lines, and the index in M of the line whose place they can take.
#[derive(Clone, Copy, Drop)]
struct Pair {
    gone: usize,
    first: usize,
    second: usize,
}

/// Two entries, as a pair for the index.
fn paired<F: Field>(gone: usize, first: Entry<F>, second: Entry<F>) -> Pair
    ensures { result ≡ record { gone = gone; first = first.exposed.line; second = second.exposed.line } }
{
    Pair {
        gone,
        first: first.exposed.line,
        second: second.exposed.line,
    }
}

impl<'a, F: Field> Matched<'a, F> {
    /// What all lines are.
    fn survey(&self) -> Result<Survey<F>, AllocError>
        requires { IsKept F.scalars self.now }
        ensures { IfOk result (TellsSurvey F.scalars F.number self.now.problem self.now.set) }
    {
        let mut classes = OuterClasses::new(self.alloc());
        let mut entries = Vec::new(self.alloc());
        for line in 0..self.problem().len() {
            match self.sight(line) {
                Sight::Free => return Ok(Survey::Free(line)),
                Sight::Exposed(exposed) => {
                    let class = classes.number(self.monic_tail(exposed)?)?;
                    entries.push(Entry { exposed, class })?;
                }
                Sight::Inside => {}
                Sight::Single(_) => {}
            }
        }
        Ok(Survey::Exposed(entries))
    }

    /// The first line whose tip has a component at the index.
    fn first_at(&self, entries: &[Entry<F>], i: usize) -> Option<Entry<F>>
        requires index { i < length self.now.set }
        requires seen { All (λ x. IsSeen F.scalars F.number self.now.problem self.now.set x.exposed) entries.now }
        ensures { MatchOption result
            (All (λ x. ¬ (InSupport F.scalars self.now.problem self.now.set x.exposed.line (slice_index self.now.set i))) entries.now)
            (λ x. Contains entries.now x × InSupport F.scalars self.now.problem self.now.set x.exposed.line (slice_index self.now.set i)) }
    {
        for x in entries {
            if self.has_component(x.exposed, i) {
                return Some(*x);
            }
        }
        None
    }

    /// The first line that crosses `first` at the index.
    fn first_across(&self, entries: &[Entry<F>], first: Exposed<F>, i: usize) -> Option<Entry<F>>
        requires index { i < length self.now.set }
        requires first { IsSeen F.scalars F.number self.now.problem self.now.set first }
        requires seen { All (λ x. IsSeen F.scalars F.number self.now.problem self.now.set x.exposed) entries.now }
        ensures { MatchOption result
            (All (λ x. ¬ (Cross F.scalars F.number self.now.problem self.now.set first x.exposed i)) entries.now)
            (λ x. Contains entries.now x × Cross F.scalars F.number self.now.problem self.now.set first x.exposed i) }
    {
        for x in entries {
            if self.crosses(first, x.exposed, i) {
                return Some(*x);
            }
        }
        None
    }

    /// The first line of another class whose tip has a component at the index.
    fn first_apart(&self, entries: &[Entry<F>], class: usize, i: usize) -> Option<Entry<F>>
        requires index { i < length self.now.set }
        requires seen { All (λ x. IsSeen F.scalars F.number self.now.problem self.now.set x.exposed) entries.now }
        ensures { MatchOption result
            (All (λ x. x.class ≢ class → ¬ (InSupport F.scalars self.now.problem self.now.set x.exposed.line (slice_index self.now.set i))) entries.now)
            (λ x. Contains entries.now x × (x.class ≢ class)
            × InSupport F.scalars self.now.problem self.now.set x.exposed.line (slice_index self.now.set i)) }
    {
        for x in entries {
            if x.class != class && self.has_component(x.exposed, i) {
                return Some(*x);
            }
        }
        None
    }

    /// Two of the lines of different classes whose tips cross at the index.
    fn pair_at(&self, entries: &[Entry<F>], i: usize) -> Option<Pair>
        requires kept { IsKept F.scalars self.now }
        requires index { i < length self.now.set }
        requires seen { All (λ x. IsSeen F.scalars F.number self.now.problem self.now.set x.exposed) entries.now }
        ensures { MatchOption result
            (HasNoPair F.scalars F.number self.now.problem self.now.set entries.now i)
            (λ pair. (pair.gone ≡ i) × HasPair F.scalars F.number self.now.problem self.now.set entries.now i pair.first pair.second) }
    {
        let first = self.first_at(entries, i)?;
        let across = self.first_across(entries, first.exposed, i)?;
        if across.class != first.class {
            return Some(paired(i, first, across));
        }
        let apart = self.first_apart(entries, first.class, i)?;
        if self.crosses(first.exposed, apart.exposed, i) {
            return Some(paired(i, first, apart));
        }
        Some(paired(i, across, apart))
    }

    /// Two of the lines of different classes whose tips cross.
    fn pair_of(&self, entries: &[Entry<F>]) -> Option<Pair>
        requires { All (λ x. IsSeen F.scalars F.number self.now.problem self.now.set x.exposed) entries.now }
        ensures { MatchOption result
            ((i : ℕ) → i < length self.now.set → HasNoPair F.scalars F.number self.now.problem self.now.set entries.now i)
            (λ pair. (pair.gone < length self.now.set)
            × HasPair F.scalars F.number self.now.problem self.now.set entries.now pair.gone pair.first pair.second) }
    {
        for i in 0..self.set().len() {
            if let Some(pair) = self.pair_at(entries, i) {
                return Some(pair);
            }
        }
        None
    }

    /// M with both lines of the pair in the place of one.
    fn with_pair(&self, pair: Pair) -> Result<LineSet, AllocError>
        requires within { pair.gone < length self.now.set }
        requires first_new { ¬ (Contains self.now.set pair.first) }
        requires second_new { ¬ (Contains self.now.set pair.second) }
        requires different { pair.first ≢ pair.second }
        ensures increasing { IfOk result IsStrictlyIncreasing }
        ensures step { IfOk result (IsTwoLineStep self.now.set (slice_index self.now.set pair.gone) pair.first pair.second) }
    {
        let set = self.set();
        let kept = set.without(set.at(pair.gone))?;
        let half = kept.with(pair.first)?;
        half.with(pair.second)
    }

    /// An independent set that is one line longer than M, and is M with a line, or with two lines in the place of
    /// one. `None` says that no such set is independent.
    pub fn direct_step(&self) -> Result<Option<LineSet>, AllocError>
        ensures { IfOk result (TellsDirectStep F.scalars self.now.problem self.now.set) }
    {
        let set = self.set();
        match self.survey()? {
            Survey::Free(line) => Ok(Some(set.with(line)?)),
            Survey::Exposed(entries) => match self.pair_of(&entries) {
                Some(pair) => Ok(Some(self.with_pair(pair)?)),
                None => Ok(None),
            },
        }
    }
}
