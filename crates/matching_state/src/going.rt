//! From one set to another.

ghost use Rattle.std.specs.List.{Contains};
ghost use Rattle.std.specs.Prelude.{◌≡◌, ℕ, OnOk};
ghost use Rattle.parity_lines.specs.LineSets.{IsIndependentSet};

use crate::Matched;
use field_core::Field;
use parity_lines::LineSet;
use std::alloc::AllocError;

impl<'a, F: Field> Matched<'a, F> {
    /// Takes out the lines of M that the other set doesn't hold. `lines` is a copy of M.
    fn leave(&mut self, lines: &LineSet, other: &LineSet) -> Result<(), AllocError>
        requires { lines.now ≡ self.old.set }
        ensures problem { self.new.problem ≡ self.old.problem }
        ensures within { OnOk result ((l : ℕ) → Contains self.new.set l → Contains other.now l) }
    {
        for i in 0..lines.len() {
            let line = lines.at(i);
            if !other.holds(line) {
                self.remove(line)?;
            }
        }
        Ok(())
    }

    /// Puts in the lines of an independent set that has all lines of M.
    fn enter(&mut self, other: &LineSet) -> Result<(), AllocError>
        requires independent { IsIndependentSet F.scalars self.old.problem other.now }
        requires within { (l : ℕ) → Contains self.old.set l → Contains other.now l }
        ensures problem { self.new.problem ≡ self.old.problem }
        ensures set { OnOk result (self.new.set ≡ other.now) }
    {
        // M is independent
        let _set = self.set();
        for i in 0..other.len() {
            let line = other.at(i);
            if !self.set().holds(line) {
                self.insert(line)?;
            }
        }
        Ok(())
    }

    /// Goes to another independent set, line by line: cheap where they differ in few lines. After want of memory it is
    /// at a set between.
    pub fn go_to(&mut self, other: &LineSet) -> Result<(), AllocError>
        requires { IsIndependentSet F.scalars self.old.problem other.now }
        ensures problem { self.new.problem ≡ self.old.problem }
        ensures set { OnOk result (self.new.set ≡ other.now) }
    {
        let lines = self.set().copied()?;
        self.leave(&lines, other)?;
        self.enter(other)
    }
}
