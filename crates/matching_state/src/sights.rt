//! Lines as they are seen from the coordinates, without memory.

ghost use Rattle.std.specs.Prelude.{◌≡◌, ◌≢◌, ◌<◌, ◌≤◌, ◌+◌, ◌*◌, ◌↔◌, ℕ, List, IsTrue, MatchOption, drop, length, slice_index};
ghost use Rattle.linear_algebra.specs.Scalars.{IsScalar};
ghost use Rattle.linear_algebra.specs.Spans.{Combines};
ghost use Rattle.linear_algebra.specs.Vectors.{multiple, zero_vector};
ghost use Rattle.matching_state.specs.Bases.{IsKept};
ghost use Rattle.matching_state.specs.LinePlaces.{IsExposed, own_rank, rank_beside};
ghost use Rattle.matching_state.specs.Overlaps.{InSupport};
ghost use Rattle.matching_state.specs.Sights.{Cross, HasPairAt, HasRest, IsRest, IsSeen, IsSight};
ghost use Rattle.parity_lines.specs.Problems.{line_at};

use crate::Matched;
use field_core::Field;
use frames::lead_from;
use kept_rows::KeptRow;

/// An exposed line, seen so: `second` tells which of its vectors is the outer, and the tip is the other one less
/// `factor` times the outer.
#[derive(Clone, Copy, Drop)]
pub struct Exposed<F: Field> {
    /// The line.
    pub line: usize,
    /// Whether the outer is the line's second vector.
    pub second: bool,
    /// How often the outer is taken from the other vector to leave the tip.
    pub factor: F,
}

/// What a line is seen to be.
#[derive(Clone, Copy, Drop)]
pub(crate) enum Sight<F: Field> {
    Inside,
    Single(Exposed<F>),
    Exposed(Exposed<F>),
    Free,
}

/// Whether `other` is so many times `row`, from place `from` on.
fn is_multiple_from<F: Field>(row: &KeptRow<F>, other: &KeptRow<F>, factor: F, from: usize) -> bool
    requires { length other.now ≡ length row.now }
    ensures { IsTrue result ↔ (drop from other.now ≡ multiple F.scalars (F.number factor) (drop from row.now)) }
{
    for i in from..row.len() {
        if other.get(i) != factor.mul(row.get(i)) {
            return false;
        }
    }
    true
}

/// The factor by which `row`, which isn't zero at `lead`, becomes `other`, from place `from` on.
fn ratio_from<F: Field>(row: &KeptRow<F>, other: &KeptRow<F>, lead: usize, from: usize) -> Option<F>
    requires long { length other.now ≡ length row.now }
    requires lead { lead < length row.now }
    requires from { from ≤ lead }
    requires not_zero { slice_index row.now lead ≢ F.scalars.zero }
    ensures { MatchOption result
        ((factor : ℕ) → IsScalar F.scalars factor → drop from other.now ≢ multiple F.scalars factor (drop from row.now))
        (λ factor. drop from other.now ≡ multiple F.scalars (F.number factor) (drop from row.now)) }
{
    let factor = other.get(lead).mul(row.get(lead).inverse()?);
    if is_multiple_from(row, other, factor, from) {
        Some(factor)
    } else {
        None
    }
}

/// Whether the pair at an index isn't zero.
fn is_pair_at<F: Field>(row: &KeptRow<F>, i: usize) -> bool
    requires { 2 * i + 1 < length row.now }
    ensures { IsTrue result ↔ ¬ (HasPairAt row.now i F.scalars.zero F.scalars.zero) }
{
    // so many entries, which a number has room for
    let _entries = row.len();
    (row.get(2 * i), row.get(2 * i + 1)) != (F::zero(), F::zero())
}

impl<'a, F: Field> Matched<'a, F> {
    /// Whether the tip of a line that is seen so is zero.
    fn has_no_tip(&self, seen: Exposed<F>) -> bool
        requires { seen.line < length self.now.problem.lines }
        ensures { (rest cs : List ℕ) → IsRest F.scalars self.now.problem self.now.set seen.line seen.second (F.number seen.factor) rest cs
            → IsTrue result ↔ (rest ≡ zero_vector F.scalars self.now.problem.dimension) }
    {
        for i in 0..self.set().len() {
            if self.tip_pair(seen, i) != (F::zero(), F::zero()) {
                return false;
            }
        }
        true
    }

    /// What a line is that adds one to the rank of M, by its tip.
    fn sight_with(&self, seen: Exposed<F>) -> Sight<F>
        requires kept { IsKept F.scalars self.now }
        requires rest { HasRest F.scalars F.number self.now.problem self.now.set seen }
        ensures { IsSight F.scalars F.number self.now.problem self.now.set seen.line result }
    {
        if self.has_no_tip(seen) {
            Sight::Single(seen)
        } else {
            Sight::Exposed(seen)
        }
    }

    /// What the line is seen to be.
    pub(crate) fn sight(&self, line: usize) -> Sight<F>
        requires { line < length self.now.problem.lines }
        ensures { IsSight F.scalars F.number self.now.problem self.now.set line result }
    {
        let first = self.list(line, false);
        let second = self.list(line, true);
        let _entries = first.len();
        let from = 2 * self.set().len();
        match (lead_from(first, from), lead_from(second, from)) {
            (None, None) => Sight::Inside,
            (None, Some(_)) => self.sight_with(Exposed {
                line,
                second: true,
                factor: F::zero(),
            }),
            (Some(lead), _) => match ratio_from(first, second, lead, from) {
                Some(factor) => self.sight_with(Exposed {
                    line,
                    second: false,
                    factor,
                }),
                None => Sight::Free,
            },
        }
    }

    /// The line as it is seen where it is exposed. It takes no memory.
    pub fn exposed(&self, line: usize) -> Option<Exposed<F>>
        requires { line < length self.now.problem.lines }
        ensures { MatchOption result (¬ (IsExposed F.scalars self.now.problem self.now.set line))
            (λ x. (x.line ≡ line) × IsSeen F.scalars F.number self.now.problem self.now.set x) }
    {
        match self.sight(line) {
            Sight::Exposed(exposed) => Some(exposed),
            _ => None,
        }
    }

    /// The pair of the tip's coordinates at the index i of M.
    pub fn tip_pair(&self, exposed: Exposed<F>, i: usize) -> (F, F)
        requires line { exposed.line < length self.now.problem.lines }
        requires index { i < length self.now.set }
        ensures { (rest cs : List ℕ) → IsRest F.scalars self.now.problem self.now.set exposed.line exposed.second (F.number exposed.factor) rest cs
            → HasPairAt cs i (F.number result.0) (F.number result.1) }
    {
        let outer = self.list(exposed.line, exposed.second);
        let other = self.list(exposed.line, !exposed.second);
        let _entries = other.len();
        let j = 2 * i;
        let first = other.get(j).sub(exposed.factor.mul(outer.get(j)));
        let second = other.get(j + 1).sub(exposed.factor.mul(outer.get(j + 1)));
        (first, second)
    }

    /// Whether the tip has a component at the line with the index i in M.
    pub fn has_component(&self, exposed: Exposed<F>, i: usize) -> bool
        requires seen { IsSeen F.scalars F.number self.now.problem self.now.set exposed }
        requires index { i < length self.now.set }
        ensures { IsTrue result ↔ InSupport F.scalars self.now.problem self.now.set exposed.line (slice_index self.now.set i) }
    {
        let _set = self.set();
        self.tip_pair(exposed, i) != (F::zero(), F::zero())
    }

    /// Whether the pairs of both tips at the index aren't multiples of each other.
    pub(crate) fn crosses(&self, first: Exposed<F>, second: Exposed<F>, i: usize) -> bool
        requires first { IsSeen F.scalars F.number self.now.problem self.now.set first }
        requires second { IsSeen F.scalars F.number self.now.problem self.now.set second }
        requires index { i < length self.now.set }
        ensures { IsTrue result ↔ Cross F.scalars F.number self.now.problem self.now.set first second i }
    {
        let _set = self.set();
        let (a, b) = self.tip_pair(first, i);
        let (c, d) = self.tip_pair(second, i);
        a.mul(d) != b.mul(c)
    }

    /// Whether the line is free: it adds two to the rank of M. It takes no memory.
    pub fn is_free(&self, line: usize) -> bool
        requires { line < length self.now.problem.lines }
        ensures { IsTrue result ↔ (rank_beside F.scalars self.now.problem self.now.set line ≡ 2) }
    {
        match self.sight(line) {
            Sight::Free => true,
            _ => false,
        }
    }

    /// Whether the line adds one to the rank of M.
    pub fn adds_one(&self, line: usize) -> bool
        requires { line < length self.now.problem.lines }
        ensures { IsTrue result ↔ (rank_beside F.scalars self.now.problem self.now.set line ≡ 1) }
    {
        match self.sight(line) {
            Sight::Single(_) => true,
            Sight::Exposed(_) => true,
            _ => false,
        }
    }

    /// Whether both vectors of the line are independent.
    pub fn has_rank_two(&self, line: usize) -> bool
        requires { line < length self.now.problem.lines }
        ensures { IsTrue result ↔ (own_rank F.scalars self.now.problem line ≡ 2) }
    {
        let first = self.list(line, false);
        let second = self.list(line, true);
        match lead_from(first, 0) {
            Some(lead) => ratio_from(first, second, lead, 0).is_none(),
            None => false,
        }
    }

    /// Whether, of the coordinates over the basis of a vector of the line, one at the line with the index i in M isn't
    /// zero.
    pub fn reaches(&self, line: usize, i: usize) -> bool
        requires line { line < length self.now.problem.lines }
        requires index { i < length self.now.set }
        ensures { (cs ds : List ℕ) → Combines F.scalars self.now.problem.dimension self.now.basis cs (line_at self.now.problem line).0
            → Combines F.scalars self.now.problem.dimension self.now.basis ds (line_at self.now.problem line).1
            → IsTrue result ↔ ¬ (HasPairAt cs i F.scalars.zero F.scalars.zero × HasPairAt ds i F.scalars.zero F.scalars.zero) }
    {
        let first = self.list(line, false);
        let second = self.list(line, true);
        is_pair_at(first, i) || is_pair_at(second, i)
    }
}
