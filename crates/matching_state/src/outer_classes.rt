//! Classes of exposed lines by their outers: equal numbers where the outers are dependent modulo the span of M.

ghost use Rattle.std.specs.Prelude.{◌≡◌, ◌<◌, ◌≤◌, [], ℕ, IfOk, OnOk, drop, length, slice_index, slice_index_or};
ghost use Rattle.linear_algebra.specs.Vectors.{multiple};
ghost use Rattle.matching_state.specs.Classes.{AreDifferent, IsMonicTail, KeepsNumbers};
ghost use Rattle.matching_state.specs.LinePlaces.{IsOuter};
ghost use Rattle.matching_state.specs.Sights.{outer_of};
ghost use Rattle.parity_lines.specs.Relations.{IsLeadInverse};

use crate::Matched;
use crate::sights::Exposed;
use field_core::Field;
use frames::lead_from;
use indexmap::IndexSet;
use kept_rows::KeptRow;
use std::alloc::{AllocError, Global};
use std::marker::Model;

/// The tails that were seen, numbered as they came.
#[derive(Drop)]
pub(crate) struct OuterClasses {
    tails: IndexSet<Vec<u16>>,
}

impl Model for OuterClasses {
    ghost use Rattle.matching_state.specs.Classes.{AreDifferent, items_of};
    ghost use Rattle.std.specs.Prelude.{List, ℕ};

    ghost Value = { List (List ℕ) };

    ghost view = { λ c. items_of c.tails.keys };

    ghost invariant = { λ c. AreDifferent (items_of c.tails.keys) };
}

impl OuterClasses {
    /// No class yet.
    pub(crate) fn new(alloc: Global) -> OuterClasses
        ensures { result ≡ [] }
    {
        OuterClasses {
            tails: IndexSet::new(alloc),
        }
    }

    /// The number of the tail, a new one where it is new.
    pub(crate) fn number(&mut self, tail: Vec<u16>) -> Result<usize, AllocError>
        ensures within { IfOk result (λ n. n < length self.new) }
        ensures number { IfOk result (λ n. slice_index_or self.new n [] ≡ tail.items) }
        ensures keeps { OnOk result (KeepsNumbers self.old self.new) }
        ensures different { AreDifferent self.new }
    {
        let (number, _) = self.tails.insert_full(tail)?;
        Ok(number)
    }
}

/// The inverse of the first entry from `from` on that isn't zero.
fn lead_inverse<F: Field>(row: &KeptRow<F>, from: usize) -> F
    requires { ¬ ((i : ℕ) → from ≤ i → i < length row.now → slice_index row.now i ≡ F.scalars.zero) }
    ensures { IsLeadInverse F.scalars (drop from row.now) (F.number result) }
{
    match lead_from(row, from) {
        Some(lead) => match row.get(lead).inverse() {
            Some(inverse) => inverse,
            None => F::one(),
        },
        None => F::one(),
    }
}

/// The entries from `from` on, so many times.
fn multiple_from<F: Field>(
    alloc: Global,
    row: &KeptRow<F>,
    from: usize,
    factor: F,
) -> Result<Vec<u16>, AllocError>
    ensures { IfOk result (λ tail. tail.items ≡ multiple F.scalars (F.number factor) (drop from row.now)) }
{
    let mut tail = Vec::new(alloc);
    for i in from..row.len() {
        tail.push(factor.mul(row.get(i)).number())?;
    }
    Ok(tail)
}

impl<'a, F: Field> Matched<'a, F> {
    /// The coordinates of the outer beyond M's vectors, times what makes the first that isn't zero one.
    pub(crate) fn monic_tail(&self, exposed: Exposed<F>) -> Result<Vec<u16>, AllocError>
        requires line { exposed.line < length self.now.problem.lines }
        requires outer { IsOuter F.scalars self.now.problem self.now.set exposed.line (outer_of self.now.problem exposed.line exposed.second) }
        ensures { IfOk result (λ tail. IsMonicTail F.scalars self.now (outer_of self.now.problem exposed.line exposed.second) tail.items) }
    {
        let row = self.list(exposed.line, exposed.second);
        // so many entries, which a number has room for
        let _entries = row.len();
        let from = 2 * self.set().len();
        multiple_from(self.alloc(), row, from, lead_inverse(row, from))
    }
}
