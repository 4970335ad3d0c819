//! A set that walks go on from.

ghost use Rattle.std.specs.Prelude.{◌≡◌, IfOk, IfSome, length};
ghost use Rattle.parity_lines.specs.LineSets.{IsIndependentSet};
ghost use Rattle.search.specs.Below.{ArePartsBelow};
ghost use Rattle.search.specs.Found.{IsLargerThan, KeepsSize};
ghost use Rattle.search.specs.Meetings.{IsOver};
ghost use Rattle.search.specs.Notes.{AreOf};
ghost use Rattle.search.specs.Repeats.{AreFirsts};
ghost use Rattle.search.specs.Walkers.{IsReady};

use crate::choices::Choices;
use crate::labels::Labels;
use crate::meeting::Meeting;
use crate::notes::Notes;
use crate::outers::{first_outers, lines_in_classes};
use crate::repeats::{first_lines, own_lines};
use crate::restarting::wander;
use crate::settling::settle;
use crate::walking::walk;
use field_core::Field;
use matching_state::Matched;
use parity_lines::{LineSet, Parts};
use std::alloc::AllocError;

/// A state, what walks noted, for each line the first one with its span, and the order in which the next walk tries
/// these.
#[derive(Drop)]
pub struct Walker<'a, F: Field> {
    pub state: Matched<'a, F>,
    pub notes: Notes,
    firsts: Vec<usize>,
    order: Vec<usize>,
    choices: Choices,
}

impl<'a, F: Field> Walker<'a, F> {
    /// Nothing is noted yet; of lines with the same span the first one is in order. Choices at random begin with
    /// the number. Walks are to note classes, or else sets.
    pub fn new(
        state: Matched<'a, F>,
        seed: usize,
        classes: bool,
    ) -> Result<Walker<'a, F>, AllocError>
        ensures state { IfOk result (λ walker. walker.state ≡ state.entry) }
        ensures ready { IfOk result (IsReady F.scalars) }
    {
        let problem = state.problem();
        let firsts = first_lines(state.alloc(), problem)?;
        let order = own_lines(state.alloc(), firsts.as_slice())?;
        let notes = Notes::new(state.alloc(), problem.len(), classes)?;
        Ok(Walker {
            state,
            notes,
            firsts,
            order,
            choices: Choices::new(seed),
        })
    }

    /// The classes that the set shows which is held.
    pub fn seen(&self) -> Result<Labels, AllocError>
        requires { IsReady F.scalars self.now }
        ensures { IfOk result (AreOf (length self.now.state.problem.lines)) }
    {
        let mut labels = Labels::new(self.state.alloc(), self.firsts.len())?;
        labels.join_exposed(&self.state, self.order.as_slice());
        Ok(labels)
    }

    /// The classes as parts, when lines that were never outside, and those that repeat a span, have joined theirs.
    pub fn parts(&self, labels: &Labels) -> Result<Parts, AllocError>
        requires ready { IsReady F.scalars self.now }
        requires labels { AreOf (length self.now.state.problem.lines) labels.now }
        ensures { IfOk result (ArePartsBelow (length self.now.state.problem.lines)) }
    {
        let alloc = self.state.alloc();
        let mut labels = labels.copied(alloc)?;
        labels.join_inside(&self.state, self.order.as_slice());
        labels.join_firsts(&self.state, self.firsts.as_slice());
        labels.parts(alloc)
    }

    /// Goes from the set that is held, and comes back. A longer set ends the walk.
    pub fn walk(&mut self, meeting: &mut Meeting<F>) -> Result<Option<LineSet>, AllocError>
        requires ready { IsReady F.scalars self.old }
        requires over { IsOver self.old.state meeting.old }
        ensures keeps { KeepsSize self.old.state self.new.state }
        ensures ready { IsReady F.scalars self.new }
        ensures over { IsOver self.new.state meeting.new }
        ensures larger { IfOk result (λ found. IfSome found (IsLargerThan F.scalars self.old.state.problem self.old.state.set)) }
    {
        walk(
            &mut self.state,
            meeting,
            self.order.as_slice(),
            &mut self.notes,
        )
    }

    /// For each line the first one that spans the same modulo the span of the set.
    pub fn first_outers(&self) -> Result<Vec<usize>, AllocError>
        ensures { IfOk result (λ firsts. AreFirsts (length self.now.state.problem.lines) firsts.items) }
    {
        first_outers(&self.state)
    }

    /// As [`Walker::walk`], by lines alone that keep to the span of the set and of what the line brings in.
    pub fn walk_beside(
        &mut self,
        meeting: &mut Meeting<F>,
        firsts: &[usize],
        line: usize,
    ) -> Result<Option<LineSet>, AllocError>
        requires ready { IsReady F.scalars self.old }
        requires firsts { AreFirsts (length self.old.state.problem.lines) firsts.now }
        requires over { IsOver self.old.state meeting.old }
        ensures keeps { KeepsSize self.old.state self.new.state }
        ensures ready { IsReady F.scalars self.new }
        ensures over { IsOver self.new.state meeting.new }
        ensures larger { IfOk result (λ found. IfSome found (IsLargerThan F.scalars self.old.state.problem self.old.state.set)) }
    {
        let set = self.state.set();
        let inside = if set.len() == 0 {
            line
        } else {
            firsts[set.at(0)]
        };
        let order = lines_in_classes(
            self.state.alloc(),
            self.order.as_slice(),
            firsts,
            line,
            inside,
        )?;
        walk(&mut self.state, meeting, order.as_slice(), &mut self.notes)
    }

    /// Goes to another set at random, and puts the lines in another order.
    pub fn scatter(&mut self) -> Result<(), AllocError>
        requires { IsReady F.scalars self.old }
        ensures keeps { KeepsSize self.old.state self.new.state }
        ensures ready { IsReady F.scalars self.new }
    {
        self.choices.shuffle(self.order.as_mut_slice());
        wander(&mut self.state, &mut self.choices)
    }

    /// Goes to another set, and on to longer ones by direct steps. The classes
    /// that the last of them shows are all that is noted.
    pub fn rise(&mut self, set: &LineSet) -> Result<(), AllocError>
        requires set { IsIndependentSet F.scalars self.old.state.problem set.now }
        requires ready { IsReady F.scalars self.old }
        ensures problem { IfOk result (λ _. self.new.state.problem ≡ self.old.state.problem) }
        ensures ready { IfOk result (λ _. IsReady F.scalars self.new) }
    {
        self.state.go_to(set)?;
        settle(&mut self.state)?;
        self.notes = Notes::new(self.state.alloc(), self.state.problem().len(), true)?;
        self.notes
            .labels
            .join_exposed(&self.state, self.order.as_slice());
        Ok(())
    }
}
