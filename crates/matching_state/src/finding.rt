//! The place of a line, from what is seen of it.

ghost use Rattle.std.specs.Prelude.{◌≡◌, ◌<◌, ◌↔◌, ℕ, List, IfOk, length, map};
ghost use Rattle.std.specs.List.{Contains};
ghost use Rattle.std.specs.List.Sorted.{IsStrictlyIncreasing};
ghost use Rattle.matching_state.specs.LinePlaces.{IsPlace, IsTip};
ghost use Rattle.matching_state.specs.Overlaps.{InSupport};
ghost use Rattle.matching_state.specs.Sights.{IsRest, IsSeen, other_of, outer_of};

use crate::sights::{Exposed, Sight};
use crate::{Matched, Place};
use field_core::{Field, Row};
use parity_lines::LineSet;
use std::alloc::AllocError;

impl<'a, F: Field> Matched<'a, F> {
    /// The lines of M at which the tip has a component.
    fn support(&self, exposed: Exposed<F>) -> Result<LineSet, AllocError>
        requires { IsSeen F.scalars F.number self.now.problem self.now.set exposed }
        ensures increasing { IfOk result IsStrictlyIncreasing }
        ensures lines { IfOk result (λ L. (m : ℕ) → Contains L m ↔ InSupport F.scalars self.now.problem self.now.set exposed.line m) }
    {
        let mut support = LineSet::new(self.alloc());
        let set = self.set();
        for i in 0..set.len() {
            if self.has_component(exposed, i) {
                support.push(set.at(i))?;
            }
        }
        Ok(support)
    }

    /// The outer of the line.
    pub fn outer(&self, exposed: Exposed<F>) -> &'a [F]
        requires { exposed.line < length self.now.problem.lines }
        ensures { map F.number result.now ≡ outer_of self.now.problem exposed.line exposed.second }
    {
        if exposed.second {
            self.problem.second(exposed.line)
        } else {
            self.problem.first(exposed.line)
        }
    }

    /// The line's other vector.
    fn other(&self, exposed: Exposed<F>) -> &'a [F]
        requires { exposed.line < length self.now.problem.lines }
        ensures { map F.number result.now ≡ other_of self.now.problem exposed.line exposed.second }
    {
        if exposed.second {
            self.problem.first(exposed.line)
        } else {
            self.problem.second(exposed.line)
        }
    }

    /// The tip of the line.
    pub fn tip(&self, exposed: Exposed<F>) -> Result<Row<F>, AllocError>
        requires { IsSeen F.scalars F.number self.now.problem self.now.set exposed }
        ensures { IfOk result (λ tip. (cs : List ℕ) × IsTip F.scalars self.now.problem self.now.set exposed.line tip cs
            × IsRest F.scalars self.now.problem self.now.set exposed.line exposed.second (F.number exposed.factor) tip cs) }
    {
        let _set = self.set();
        let mut tip = Row::copy_of(self.alloc(), self.other(exposed))?;
        tip.add_multiple(exposed.factor.neg(), self.outer(exposed));
        Ok(tip)
    }

    /// The place of a line over M.
    pub fn position(&self, line: usize) -> Result<Place<F>, AllocError>
        requires { line < length self.now.problem.lines }
        ensures { IfOk result (IsPlace F.scalars self.now.problem self.now.set line) }
    {
        let _set = self.set();
        match self.sight(line) {
            Sight::Inside => Ok(Place::Inside),
            Sight::Single(seen) => {
                let outer = Row::copy_of(self.alloc(), self.outer(seen))?;
                Ok(Place::Single { outer })
            }
            Sight::Exposed(seen) => {
                let tip = self.tip(seen)?;
                let outer = Row::copy_of(self.alloc(), self.outer(seen))?;
                let support = self.support(seen)?;
                Ok(Place::Exposed {
                    tip,
                    outer,
                    support,
                })
            }
            Sight::Free => Ok(Place::Free),
        }
    }
}
