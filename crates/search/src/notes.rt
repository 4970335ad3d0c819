//! What walks leave: classes of lines that supports join, or the sets that were held.

ghost use Rattle.std.specs.Prelude.{◌≡◌, ◌<◌, ℕ, List, All, IfOk, length};
ghost use Rattle.linear_algebra.specs.Scalars.{Scalars};
ghost use Rattle.parity_lines.specs.Problems.{ParityProblem};
ghost use Rattle.search.specs.Notes.{AreNotes, AreOf};

use crate::labels::Labels;
use field_core::Field;
use matching_state::Matched;
use parity_lines::LineSet;
use std::alloc::{AllocError, Global};

/// Classes of lines, or sets.
#[derive(Drop)]
pub struct Notes {
    pub labels: Labels,
    pub sets: Vec<LineSet>,
    classes: bool,
}

impl Notes {
    /// Nothing yet, of so many lines. Classes are to be noted, or else sets.
    pub fn new(alloc: Global, lines: usize, classes: bool) -> Result<Notes, AllocError>
        ensures { IfOk result (λ notes. (S : Scalars) (p : ParityProblem) (M : List ℕ) → length p.lines ≡ lines → AreNotes S p M notes) }
    {
        Ok(Notes {
            labels: Labels::new(alloc, lines)?,
            sets: Vec::new(alloc),
            classes,
        })
    }

    /// Notes what the set that is held shows of the lines of the order, or else the set.
    pub fn note<F: Field>(
        &mut self,
        state: &Matched<'_, F>,
        order: &[usize],
    ) -> Result<(), AllocError>
        requires lines { All (λ m. m < length state.now.problem.lines) order.now }
        requires notes { AreNotes F.scalars state.now.problem state.now.set self.old }
        ensures { AreNotes F.scalars state.now.problem state.now.set self.new }
    {
        if self.classes {
            self.labels.join_exposed(state, order);
            return Ok(());
        }
        if self.sets.len() <= state.problem().dimension() {
            let set = state.set();
            self.sets.push(set.copied()?)?;
        }
        Ok(())
    }
}
