//! A meeting of spans of sets, by coordinates over the set that is held.

ghost use Rattle.std.specs.Prelude.{◌≡◌, ◌*◌, ◌<◌, All, IfOk, IfSome, length, vec_len};
ghost use Rattle.search.specs.Meetings.{ArePairs, IsOver, IsPairIndex};

use field_core::{Field, Row, Rows, scale};
use matching_state::Matched;
use std::alloc::{AllocError, Global};
use std::marker::Model;

/// Independent vectors in the span of a set of so many lines: the coordinates of each, two a line.
#[derive(Drop)]
pub struct Meeting<F: Field> {
    lines: usize,
    rows: Vec<Row<F>>,
}

/// The pairs at one index of all vectors: zero, multiples of one pair, or all pairs as combinations.
#[derive(Clone, Copy, Drop)]
pub enum Pairs<F: Field> {
    Zero,
    Multiples(F, F),
    All,
}

impl<F: Field> Pairs<F> {
    /// Whether one of them isn't a multiple of `pair`, or `pair` isn't zero where there are all.
    pub fn cross(self, pair: (F, F)) -> bool {
        match self {
            Pairs::Zero => false,
            Pairs::Multiples(x, y) => x.mul(pair.1) != y.mul(pair.0),
            Pairs::All => pair.0 != F::zero() || pair.1 != F::zero(),
        }
    }
}

impl<F: Field> Model for Meeting<F> {
    ghost use Rattle.std.specs.Prelude.{ℕ};
    ghost use Rattle.search.specs.Meetings.{ArePairs};

    ghost Value = { ℕ };

    ghost view = { λ m. m.lines };

    ghost invariant = { λ m. ArePairs m.lines m.rows.items };
}

/// How the pair at the index lies to `pair`: zero where one is a multiple of the other.
fn determinant<F: Field>(row: &Row<F>, i: usize, pair: (F, F)) -> F
    requires { IsPairIndex i (length row.now) }
{
    let row = row.as_slice();
    row[2 * i].mul(pair.1).sub(row[2 * i + 1].mul(pair.0))
}

/// The index of the first row whose pair at the index isn't a multiple of `pair`.
fn first_crossing<F: Field>(rows: &[Row<F>], i: usize, pair: (F, F)) -> Option<usize>
    requires { All (λ row. IsPairIndex i (length row)) rows.now }
    ensures { IfSome result (λ at. at < length rows.now) }
{
    for at in 0..rows.len() {
        if determinant(&rows[at], i, pair) != F::zero() {
            return Some(at);
        }
    }
    None
}

/// The first pair at the index that isn't zero.
fn first_pair<F: Field>(rows: &[Row<F>], i: usize) -> Option<(F, F)>
    requires { All (λ row. IsPairIndex i (length row)) rows.now }
{
    for row in rows {
        let row = row.as_slice();
        let (x, y) = (row[2 * i], row[2 * i + 1]);
        if x != F::zero() || y != F::zero() {
            return Some((x, y));
        }
    }
    None
}

/// Takes the multiple of `gone` from the row that makes its pair at the index a multiple of `pair`.
fn clear_pair<F: Field>(row: &mut Row<F>, gone: &Row<F>, i: usize, pair: (F, F), inverse: F)
    requires long { length row.old ≡ length gone.now }
    requires index { IsPairIndex i (length gone.now) }
    ensures { length row.new ≡ length row.old }
{
    let factor = determinant(row, i, pair).mul(inverse);
    row.add_multiple(factor.neg(), gone.as_slice());
}

/// Takes such multiples of `gone` from all rows.
fn clear_pairs<F: Field>(rows: &mut [Row<F>], gone: &Row<F>, i: usize, pair: (F, F), inverse: F)
    requires long { All (λ row. length row ≡ length gone.now) rows.old }
    requires index { IsPairIndex i (length gone.now) }
    ensures { All (λ row. length row ≡ length gone.now) rows.new }
{
    for row in rows.iter_mut() {
        clear_pair(row, gone, i, pair, inverse);
    }
}

/// Moves the pair at `from` to `to`; those between go up or down.
fn move_pair<F: Field>(entries: &mut [F], from: usize, to: usize)
    requires from { IsPairIndex from (length entries.old) }
    requires to { IsPairIndex to (length entries.old) }
{
    for i in from..to {
        entries.swap(2 * i, 2 * i + 2);
        entries.swap(2 * i + 1, 2 * i + 3);
    }
    for back in to..from {
        let i = to + (from - 1 - back);
        entries.swap(2 * i, 2 * i + 2);
        entries.swap(2 * i + 1, 2 * i + 3);
    }
}

/// Puts the pair in the place of the one at `out`, and moves it to `into`.
fn put_pair<F: Field>(entries: &mut [F], out: usize, into: usize, pair: (F, F))
    requires gone { IsPairIndex out (length entries.old) }
    requires new { IsPairIndex into (length entries.old) }
{
    entries[2 * out] = pair.0;
    entries[2 * out + 1] = pair.1;
    move_pair(entries, out, into);
}

/// The coordinates `row` after an exchange; those of the tip are one at `lead`.
fn carry_row<F: Field>(
    row: &mut Row<F>,
    lead: usize,
    tip: &[F],
    own: (F, F),
    out: usize,
    into: usize,
)
    requires long { length row.old ≡ length tip.now }
    requires lead { lead < length tip.now }
    requires gone { IsPairIndex out (length tip.now) }
    requires new { IsPairIndex into (length tip.now) }
    ensures { length row.new ≡ length row.old }
{
    let times = row.as_slice()[lead];
    row.add_multiple(times.neg(), tip);
    put_pair(
        row.as_mut_slice(),
        out,
        into,
        (times.mul(own.0), times.mul(own.1)),
    );
}

/// The coordinates of all rows after an exchange.
fn carry_rows<F: Field>(
    rows: &mut [Row<F>],
    lead: usize,
    tip: &[F],
    own: (F, F),
    out: usize,
    into: usize,
)
    requires long { All (λ row. length row ≡ length tip.now) rows.old }
    requires lead { lead < length tip.now }
    requires gone { IsPairIndex out (length tip.now) }
    requires new { IsPairIndex into (length tip.now) }
    ensures { All (λ row. length row ≡ length tip.now) rows.new }
{
    for row in rows.iter_mut() {
        carry_row(row, lead, tip, own, out, into);
    }
}

/// Two zeros for each line.
fn zero_pairs<F: Field>(alloc: Global, lines: usize) -> Result<Vec<F>, AllocError>
    ensures { IfOk result (λ zeros. vec_len zeros ≡ 2 * lines) }
{
    let mut zeros = Vec::new(alloc);
    for _line in 0..lines {
        zeros.push(F::zero())?;
        zeros.push(F::zero())?;
    }
    Ok(zeros)
}

/// A row that is one at the index, else zero.
fn unit_row<F: Field>(alloc: Global, zeros: &[F], i: usize) -> Result<Row<F>, AllocError>
    requires { i < length zeros.now }
    ensures { IfOk result (λ row. length row ≡ length zeros.now) }
{
    let mut row = Row::copy_of(alloc, zeros)?;
    row.as_mut_slice()[i] = F::one();
    Ok(row)
}

/// The vector of the coordinates over the set of the state.
fn combined<F: Field>(state: &Matched<'_, F>, coordinates: &[F]) -> Result<Row<F>, AllocError>
    requires { length coordinates.now ≡ 2 * length state.now.set }
    ensures { IfOk result (λ v. length v ≡ state.now.problem.dimension) }
{
    let (problem, set) = (state.problem(), state.set());
    let mut v = Row::zeros(state.alloc(), problem.dimension())?;
    for i in 0..set.len() {
        let line = set.at(i);
        v.add_multiple(coordinates[2 * i], problem.first(line));
        v.add_multiple(coordinates[2 * i + 1], problem.second(line));
    }
    Ok(v)
}

impl<F: Field> Meeting<F> {
    /// The whole span of so many lines.
    pub fn whole(alloc: Global, lines: usize) -> Result<Meeting<F>, AllocError>
        ensures { IfOk result (λ m. m ≡ lines) }
    {
        let zeros = zero_pairs(alloc, lines)?;
        let mut rows = Vec::new(alloc);
        for i in 0..zeros.len() {
            rows.push(unit_row(alloc, zeros.as_slice(), i)?)?;
        }
        Ok(Meeting { lines, rows })
    }

    /// The zero vector alone, over so many lines.
    pub fn none(alloc: Global, lines: usize) -> Meeting<F>
        ensures { result ≡ lines }
    {
        Meeting {
            lines,
            rows: Vec::new(alloc),
        }
    }

    /// How many vectors there are.
    pub fn rank(&self) -> usize {
        self.rows.len()
    }

    /// The vectors' pairs at the index.
    fn pairs_at(&self, i: usize) -> Pairs<F>
        requires { i < self.now }
    {
        match first_pair(self.rows.as_slice(), i) {
            None => Pairs::Zero,
            Some((x, y)) => match first_crossing(self.rows.as_slice(), i, (x, y)) {
                None => Pairs::Multiples(x, y),
                Some(_) => Pairs::All,
            },
        }
    }

    /// The vectors' pairs at each index.
    pub fn pairs(&self, alloc: Global) -> Result<Vec<Pairs<F>>, AllocError>
        ensures { IfOk result (λ pairs. vec_len pairs ≡ self.now) }
    {
        let mut pairs = Vec::new(alloc);
        for i in 0..self.lines {
            pairs.push(self.pairs_at(i))?;
        }
        Ok(pairs)
    }

    /// Narrows to the vectors whose pairs at the index are multiples of `pair`.
    pub fn narrow(&mut self, i: usize, pair: (F, F))
        requires { i < self.old }
        ensures { self.new ≡ self.old }
    {
        let Some(at) = first_crossing(self.rows.as_slice(), i, pair) else {
            return;
        };
        let gone = self.rows.swap_remove(at);
        let Some(inverse) = determinant(&gone, i, pair).inverse() else {
            return;
        };
        clear_pairs(self.rows.as_mut_slice(), &gone, i, pair, inverse);
    }

    /// The coordinates over the set in which a line has taken the place of the one at `out`, and stands at `into`: `tip`
    /// are those of its tip, which is the combination `own` of its own vectors. The pairs at `out` are multiples of the
    /// tip's. It leaves a multiple of the tip.
    pub fn carry(&mut self, out: usize, into: usize, tip: &mut [F], own: (F, F))
        requires gone { out < self.old }
        requires new { into < self.old }
        requires long { length tip.old ≡ 2 * self.old }
        ensures { self.new ≡ self.old }
    {
        let lead = if tip[2 * out] != F::zero() {
            2 * out
        } else {
            2 * out + 1
        };
        let Some(inverse) = tip[lead].inverse() else {
            return;
        };
        scale(tip, inverse);
        let own = (own.0.mul(inverse), own.1.mul(inverse));
        carry_rows(self.rows.as_mut_slice(), lead, tip, own, out, into);
    }

    /// The vectors.
    pub fn vectors(&self, state: &Matched<'_, F>) -> Result<Rows<F>, AllocError>
        requires { IsOver state.now self.now }
        ensures { IfOk result (λ rows. rows.width ≡ state.now.problem.dimension) }
    {
        let mut vectors = Rows::new(state.alloc(), state.problem().dimension());
        for row in self.rows.iter() {
            let v = combined(state, row.as_slice())?;
            vectors.push(v.as_slice())?;
        }
        Ok(vectors)
    }
}
