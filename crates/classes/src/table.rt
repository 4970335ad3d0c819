//! The table of a family: which lines are live, and of two lines the first member that separates them.

ghost use Rattle.std.specs.Prelude.{◌≡◌, ◌+◌, ◌<◌, [], None, IfOk, length, replicate, slice_index_or, take};
ghost use Rattle.linear_algebra.specs.Scalars.{IsField};
ghost use Rattle.classes.specs.Directions.{AreDirections};
ghost use Rattle.classes.specs.Tables.{AreLive, IsLive, IsNextRow, IsNextSeparator, IsTableOf, akin_at, separator_at};

use crate::direction::{Direction, are_apart};
use families::Family;
use field_core::{Field, is_zero};
use parity_lines::Problem;
use std::alloc::{AllocError, Global};
use std::marker::Model;

/// Of one line, for each line the first member that separates the two.
#[derive(Drop)]
struct SeparatorRow {
    members: Vec<Option<usize>>,
}

impl Model for SeparatorRow {
    ghost use Rattle.std.specs.Prelude.{List, ℕ, Option};

    ghost Value = { List (Option ℕ) };

    ghost view = { λ r. r.members.items };
}

/// For each line whether one of its vectors isn't zero, and a row of its separators.
#[derive(Drop)]
pub struct Table {
    alloc: Global,
    live: Vec<bool>,
    rows: Vec<SeparatorRow>,
}

impl Model for Table {
    ghost use Rattle.classes.specs.Tables.{Separators, IsSquare};

    ghost Value = { Separators };

    ghost view = { λ t. record { live = t.live.items; rows = t.rows.items } };

    ghost invariant = { λ t. IsSquare (record { live = t.live.items; rows = t.rows.items }) };
}

/// Tells whether one of the line's vectors isn't zero.
fn is_live<F: Field>(problem: &Problem<F>, line: usize) -> bool
    requires { line < length problem.now.lines }
    ensures { (L : IsField F.scalars) → IsLive F.scalars L problem.now line result }
{
    let _lines = problem.len();
    if !is_zero(problem.first(line)) {
        return true;
    }
    !is_zero(problem.second(line))
}

/// For each line whether one of its vectors isn't zero.
fn live_lines<F: Field>(alloc: Global, problem: &Problem<F>) -> Result<Vec<bool>, AllocError>
    ensures { IfOk result (λ live. (L : IsField F.scalars) → AreLive F.scalars L problem.now (length problem.now.lines) live.items) }
{
    let mut live = Vec::new(alloc);
    for line in 0..problem.len() {
        live.push(is_live(problem, line))?;
    }
    Ok(live)
}

/// A row without separators.
fn empty_row(alloc: Global, lines: usize) -> Result<SeparatorRow, AllocError>
    ensures { IfOk result (λ row. row ≡ replicate lines None) }
{
    let mut members = Vec::new(alloc);
    for _line in 0..lines {
        members.push(None)?;
    }
    Ok(SeparatorRow { members })
}

/// The separator of two lines after one member more, of which these are the directions.
fn next_separator<F: Field>(
    old: Option<usize>,
    first: &Direction<F>,
    second: &Direction<F>,
    member: usize,
) -> Option<usize>
    ensures { IsNextSeparator first.now second.now member old result }
{
    match old {
        Some(earlier) => Some(earlier),
        None => {
            if are_apart(first, second) {
                Some(member)
            } else {
                None
            }
        }
    }
}

impl SeparatorRow {
    /// The row of the line after one member more.
    fn with_member<F: Field>(
        &self,
        alloc: Global,
        directions: &[Direction<F>],
        line: usize,
        member: usize,
    ) -> Result<SeparatorRow, AllocError>
        requires long { length self.now ≡ length directions.now }
        requires within { line < length directions.now }
        ensures { IfOk result (IsNextRow directions.now line member self.now) }
    {
        let mut members = Vec::new(alloc);
        for (i, separator) in self.members.iter().enumerate() {
            members.push(next_separator(*separator, &directions[line], &directions[i], member))?;
        }
        Ok(SeparatorRow { members })
    }
}

impl Table {
    /// The table of no member.
    pub fn new<F: Field>(alloc: Global, problem: &Problem<F>) -> Result<Table, AllocError>
        ensures { IfOk result (λ table. (L : IsField F.scalars) → IsTableOf F.scalars L problem.now [] table) }
    {
        let live = live_lines(alloc, problem)?;
        let mut rows = Vec::new(alloc);
        for _line in 0..problem.len() {
            rows.push(empty_row(alloc, problem.len())?)?;
        }
        Ok(Table { alloc, live, rows })
    }

    /// The table of the members up to this one, whose directions these are.
    pub fn with_member<F: Field>(
        &self,
        family: &Family<'_, F>,
        member: usize,
        directions: &[Direction<F>],
    ) -> Result<Table, AllocError>
        requires member { member < length family.now.sets }
        requires table { (L : IsField F.scalars) → IsTableOf F.scalars L family.now.problem (take member family.now.sets) self.now }
        requires directions { (L : IsField F.scalars) → AreDirections F.scalars L family.now.problem (slice_index_or family.now.sets member []) (length family.now.problem.lines) directions.now }
        ensures { IfOk result (λ table. (L : IsField F.scalars) → IsTableOf F.scalars L family.now.problem (take (member + 1) family.now.sets) table) }
    {
        let (_members, _lines) = (family.len(), family.problem().len());
        let live = self.live.iter().copied().collect(self.alloc)?;
        let mut rows = Vec::new(self.alloc);
        for (line, row) in self.rows.iter().enumerate() {
            rows.push(row.with_member(self.alloc, directions, line, member)?)?;
        }
        Ok(Table {
            alloc: self.alloc,
            live,
            rows,
        })
    }

    /// How many lines there are.
    pub fn len(&self) -> usize
        ensures { result ≡ length self.now.live }
    {
        self.live.len()
    }

    /// The first member that separates the two lines.
    pub fn separator(&self, first: usize, second: usize) -> Option<usize>
        requires first { first < length self.now.live }
        requires second { second < length self.now.live }
        ensures { result ≡ separator_at self.now first second }
    {
        self.rows[first].members[second]
    }

    /// Tells whether both lines are live and no member separates them.
    pub fn are_akin(&self, first: usize, second: usize) -> bool
        requires first { first < length self.now.live }
        requires second { second < length self.now.live }
        ensures { result ≡ akin_at self.now first second }
    {
        self.live[first] && self.live[second] && self.separator(first, second).is_none()
    }

    /// The allocator that the table keeps.
    pub fn alloc(&self) -> Global {
        self.alloc
    }
}
