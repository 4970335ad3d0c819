//! Lines that are put into M, taken out, and exchanged: each by a few changes of the coordinates.

ghost use Rattle.std.specs.List.{Contains};
ghost use Rattle.std.specs.List.Sorted.{IsStrictlyIncreasing};
ghost use Rattle.std.specs.Prelude.{◌≡◌, ◌≢◌, ◌<◌, ◌≤◌, ◌*◌, ◌↔◌, ◌⊎◌, ◌∷◌, ◌++◌, [], ℕ, List, MatchOption, OnErr, OnOk, length, slice_index};
ghost use Rattle.matching_state.specs.Bases.{IsListed};
ghost use Rattle.matching_state.specs.DirectSteps.{IsAddition, IsSwap};
ghost use Rattle.matching_state.specs.LinePlaces.{IsExposed, rank_beside};
ghost use Rattle.matching_state.specs.Overlaps.{InSupport};
ghost use Rattle.parity_lines.specs.LineSets.{IsIndependentSet};
ghost use Rattle.parity_lines.specs.Problems.{ParityProblem};

use crate::Matched;
use crate::listing::{move_last, move_to, put_line};
use field_core::Field;
use frames::Frame;
use parity_lines::LineSet;
use std::alloc::AllocError;

/// The index of the line in the set.
fn index_in(set: &LineSet, line: usize) -> Option<usize>
    ensures { MatchOption result (¬ (Contains set.now line)) (λ i. (i < length set.now) × (slice_index set.now i ≡ line)) }
{
    (0..set.len()).find(|i| set.at(*i) == line)
}

/// Moves the vectors of a line of the set behind those of the others.
fn take_out<F: Field>(frame: &mut Frame<F>, set: &LineSet, line: usize)
    requires { 2 * length set.now ≤ frame.old.width }
    ensures width { frame.new.width ≡ frame.old.width }
    ensures listed { (p : ParityProblem) (K : List ℕ) → IsStrictlyIncreasing K → ((l : ℕ) → Contains K l ↔ (Contains set.now l × (l ≢ line))) → Contains set.now line
        → IsListed F.scalars p set.now frame.old.basis frame.old.kept → IsListed F.scalars p (K ++ line ∷ []) frame.new.basis frame.new.kept }
{
    if let Some(i) = index_in(set, line) {
        move_last(frame, i, set.len());
    }
}

/// Moves the vectors of a line of the set, which stand behind those of the others, to its place.
fn put_in_order<F: Field>(frame: &mut Frame<F>, set: &LineSet, line: usize)
    requires { 2 * length set.now ≤ frame.old.width }
    ensures width { frame.new.width ≡ frame.old.width }
    ensures listed { (p : ParityProblem) (K : List ℕ) → IsStrictlyIncreasing K → ¬ (Contains K line) → ((l : ℕ) → Contains set.now l ↔ (Contains K l ⊎ (l ≡ line)))
        → IsListed F.scalars p (K ++ line ∷ []) frame.old.basis frame.old.kept → IsListed F.scalars p set.now frame.new.basis frame.new.kept }
{
    if let Some(i) = index_in(set, line) {
        move_to(frame, i, set.len());
    }
}

impl<'a, F: Field> Matched<'a, F> {
    /// Puts in a line that is free. After want of memory the state is unchanged.
    pub fn insert(&mut self, line: usize) -> Result<(), AllocError>
        requires within { line < length self.old.problem.lines }
        requires free { rank_beside F.scalars self.old.problem self.old.set line ≡ 2 }
        ensures problem { self.new.problem ≡ self.old.problem }
        ensures independent { IsIndependentSet F.scalars self.new.problem self.new.set }
        ensures ok { OnOk result (IsAddition self.old.set line self.new.set) }
        ensures err { OnErr result (self.new ≡ self.old) }
    {
        let next = self.set.with(line)?;
        // as wide as the dimension
        let _width = self.frame.width();
        put_line(&mut self.frame, self.problem, line, self.set.len());
        put_in_order(&mut self.frame, &next, line);
        self.set = next;
        Ok(())
    }

    /// Takes out a line. After want of memory the state is unchanged.
    pub fn remove(&mut self, line: usize) -> Result<(), AllocError>
        requires { Contains self.old.set line }
        ensures problem { self.new.problem ≡ self.old.problem }
        ensures independent { IsIndependentSet F.scalars self.new.problem self.new.set }
        ensures ok { OnOk result ((l : ℕ) → Contains self.new.set l ↔ (Contains self.old.set l × (l ≢ line))) }
        ensures err { OnErr result (self.new ≡ self.old) }
    {
        let rest = self.set.without(line)?;
        // as wide as the dimension
        let _width = self.frame.width();
        take_out(&mut self.frame, &self.set, line);
        self.set = rest;
        Ok(())
    }

    /// Puts the exposed line `into` in the place of `out`, a line of its support. After want of memory the state is
    /// unchanged.
    pub fn exchange(&mut self, out: usize, into: usize) -> Result<(), AllocError>
        requires within { into < length self.old.problem.lines }
        requires exposed { IsExposed F.scalars self.old.problem self.old.set into }
        requires support { InSupport F.scalars self.old.problem self.old.set into out }
        ensures problem { self.new.problem ≡ self.old.problem }
        ensures independent { IsIndependentSet F.scalars self.new.problem self.new.set }
        ensures ok { OnOk result (IsSwap self.old.set out into self.new.set) }
        ensures err { OnErr result (self.new ≡ self.old) }
    {
        let rest = self.set.without(out)?;
        let next = rest.with(into)?;
        // as wide as the dimension
        let _width = self.frame.width();
        take_out(&mut self.frame, &self.set, out);
        put_line(&mut self.frame, self.problem, into, rest.len());
        put_in_order(&mut self.frame, &next, into);
        self.set = next;
        Ok(())
    }
}
