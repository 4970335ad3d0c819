//! Families of independent sets of one size.

ghost use Rattle.std.specs.Prelude.{◌≡◌, ◌≢◌, ◌<◌, [], ◌∷◌, ◌++◌, All, IfOk, OnOk, OnErr, MatchOption, length, map, slice_index_or};
ghost use Rattle.parity_lines.specs.LineSets.{IsIndependentSet};
ghost use Rattle.quotients.specs.Subspaces.{HasElements};
ghost use Rattle.families.specs.Families.{IsFamily, IsCommon, IsFirstMissing};

use crate::member::{Member, first_outside, member_of, span_of};
use field_core::Field;
use parity_lines::{LineSet, Problem};
use quotients::Subspace;
use std::alloc::{AllocError, Global};
use std::marker::Model;

/// Independent sets of lines of a problem, all of one size and at least one, seen as the problem and the list of the
/// sets.
#[derive(Drop)]
pub struct Family<'a, F: Field> {
    alloc: Global,
    problem: &'a Problem<F>,
    members: Vec<Member<F>>,
    common: Subspace<F>,
}

impl<'a, F: Field> Model for Family<'a, F> {
    ghost use Rattle.families.specs.Families.{SetFamily};

    ghost Value = { SetFamily };

    ghost use Rattle.families.specs.Members.{sets_of, IsKept};

    ghost view = { λ f. record { problem = f.problem.now; sets = sets_of f.members.items } };

    ghost invariant = { λ f. IsKept F.scalars f.problem.now f.members.items f.common };
}

impl<'a, F: Field> Family<'a, F> {
    /// The family of one set, which is independent.
    pub fn new(
        alloc: Global,
        problem: &'a Problem<F>,
        set: &LineSet,
    ) -> Result<Family<'a, F>, AllocError>
        requires { IsIndependentSet F.scalars problem.now set.now }
        ensures { IfOk result (λ family. family ≡ record { problem = problem.now; sets = set.now ∷ [] }) }
    {
        let common = span_of(alloc, problem, set)?;
        let mut members = Vec::new(alloc);
        members.push(member_of(alloc, problem, set)?)?;
        Ok(Family {
            alloc,
            problem,
            members,
            common,
        })
    }

    /// Puts a set last, which is independent and as long as the members. After want of memory the family is
    /// unchanged.
    pub fn add(&mut self, set: &LineSet) -> Result<(), AllocError>
        requires independent { IsIndependentSet F.scalars self.old.problem set.now }
        requires size { All (λ member. length member ≡ length set.now) self.old.sets }
        ensures ok { OnOk result (self.new ≡ record self.old { sets = self.old.sets ++ set.now ∷ [] }) }
        ensures err { OnErr result (self.new ≡ self.old) }
    {
        let member = member_of(self.alloc, self.problem, set)?;
        let common = self.common.intersect(&member.span)?;
        self.members.push(member)?;
        self.common = common;
        Ok(())
    }

    /// How many members there are, at least one.
    pub fn len(&self) -> usize
        ensures value { result ≡ length self.now.sets }
        ensures family { IsFamily F.scalars self.now }
    {
        self.members.len()
    }

    /// The member at an index.
    pub fn member(&self, i: usize) -> &LineSet
        requires { i < length self.now.sets }
        ensures value { result.now ≡ slice_index_or self.now.sets i [] }
        ensures independent { IsIndependentSet F.scalars self.now.problem result.now }
        ensures size { All (λ member. length member ≡ length result.now) self.now.sets }
    {
        &self.members[i].set
    }

    /// The problem that was given to [`Family::new`].
    pub fn problem(&self) -> &'a Problem<F>
        ensures { result.now ≡ self.now.problem }
    {
        self.problem
    }

    /// The allocator that the family keeps.
    pub fn alloc(&self) -> Global {
        self.alloc
    }

    /// The subspace of the vectors that every member spans.
    pub fn common(&self) -> &Subspace<F>
        ensures width { result.now.width ≡ self.now.problem.dimension }
        ensures elements { HasElements F.scalars result.now (IsCommon F.scalars self.now) }
    {
        &self.common
    }

    /// The first member that doesn't span `v`. `None` says that every member spans it, so that it is in the common
    /// subspace.
    pub fn member_missing(&self, v: &[F]) -> Result<Option<usize>, AllocError>
        requires { length v.now ≡ self.now.problem.dimension }
        ensures { IfOk result (λ found. MatchOption found
            (IsCommon F.scalars self.now (map F.number v.now))
            (IsFirstMissing F.scalars self.now (map F.number v.now))) }
    {
        first_outside(&self.members, v)
    }
}
