//! Whether a set of lines is independent.

ghost use Rattle.std.specs.Prelude.{◌≡◌, ◌≢◌, ◌<◌, ◌+◌, ◌*◌, ◌++◌, ℕ, All, IfOk, MatchOption, length, map};
ghost use Rattle.parity_lines.specs.FirstLines.{HasFirstLines};
ghost use Rattle.parity_lines.specs.Independence.{IsRelation, TellsIndependence, TellsBasis};
ghost use Rattle.parity_lines.specs.Problems.{vectors_at};
ghost use Rattle.parity_lines.specs.Relations.{IsDifference, IsLeadInverse, IsMonicMultiple, IsMonicRelation};
ghost use Rattle.linear_algebra.specs.Vectors.{zero_vector};

use crate::{LineSet, Problem};
use echelon::{Echelon, Inserted};
use field_core::{Field, Row};
use std::alloc::{AllocError, Global};

/// What was found of a set of lines.
#[derive(Drop)]
pub enum Independence<F: Field> {
    /// Its vectors are independent.
    Independent,
    /// These coefficients, two a line in order, combine its vectors to zero; the first that isn't zero is one.
    Relation(Row<F>),
}

/// Puts so many zeros behind.
fn push_zeros<F: Field>(entries: &mut Vec<F>, count: usize) -> Result<(), AllocError>
    ensures { IfOk result (λ _. map F.number entries.new.items ≡ map F.number entries.old.items ++ zero_vector F.scalars count) }
{
    for _zero in 0..count {
        entries.push(F::zero())?;
    }
    Ok(())
}

/// The relation in which the vector after those with these coefficients is taken away: the coefficients, minus
/// one, and zeros for the other vectors. Behind the vector come those of its line that are left, and two for each
/// of the lines left.
fn difference<F: Field>(
    alloc: Global,
    coefficients: &[F],
    own_left: usize,
    lines_left: usize,
) -> Result<Row<F>, AllocError>
    ensures { IfOk result (IsDifference F.scalars (map F.number coefficients.now) (own_left + 2 * lines_left)) }
{
    let mut entries = Vec::new(alloc);
    entries.extend_from_slice(coefficients)?;
    entries.push(F::one().neg())?;
    push_zeros(&mut entries, own_left)?;
    push_zeros(&mut entries, lines_left)?;
    push_zeros(&mut entries, lines_left)?;
    Row::copy_of(alloc, &entries)
}

/// The inverse of the first entry that isn't zero.
fn lead_inverse<F: Field>(v: &[F]) -> Option<F>
    ensures { MatchOption result (map F.number v.now ≡ zero_vector F.scalars (length v.now)) (λ inverse. IsLeadInverse F.scalars (map F.number v.now) (F.number inverse)) }
{
    for x in v {
        if let Some(inverse) = x.inverse() {
            return Some(inverse);
        }
    }
    None
}

/// Multiplies a row that isn't zero so that its first entry that isn't zero is one.
fn make_monic<F: Field>(row: &mut Row<F>)
    requires { row.old ≢ zero_vector F.scalars (length row.old) }
    ensures { IsMonicMultiple F.scalars row.old row.new }
{
    if let Some(inverse) = lead_inverse(row.as_slice()) {
        row.multiply(inverse);
    }
}

/// The same relation, multiplied so that the first coefficient that isn't zero is one.
fn relation<F: Field>(
    alloc: Global,
    coefficients: &[F],
    own_left: usize,
    lines_left: usize,
) -> Result<Row<F>, AllocError>
    ensures { IfOk result (IsMonicRelation F.scalars (map F.number coefficients.now) (own_left + 2 * lines_left)) }
{
    let mut row = difference(alloc, coefficients, own_left, lines_left)?;
    make_monic(&mut row);
    Ok(row)
}

/// What an elimination of the vectors of lines gives.
#[derive(Drop)]
pub enum LineBasis<F: Field> {
    /// The vectors are independent, and were taken in order.
    Basis(Echelon<F>),
    /// A relation of the vectors, as in [`Independence::Relation`].
    Relation(Row<F>),
}

/// Takes both vectors of the line at an index of the set, where the basis took those of the lines before it. Where
/// one is spanned already, a relation of all lines' vectors is answered.
fn take_line<F: Field>(
    alloc: Global,
    problem: &Problem<F>,
    set: &LineSet,
    i: usize,
    basis: &mut Echelon<F>,
) -> Result<Option<Row<F>>, AllocError>
    requires within { All (λ m. m < length problem.now.lines) set.now }
    requires index { i < length set.now }
    requires before { HasFirstLines F.scalars problem.now set.now i basis.old }
    ensures { IfOk result (λ found. MatchOption found
        (HasFirstLines F.scalars problem.now set.now (i + 1) basis.new)
        (IsRelation F.scalars problem.now.dimension (vectors_at problem.now set.now))) }
{
    let _lines = problem.len();
    let line = set.at(i);
    let left = set.len() - i - 1;
    if let Inserted::Old(coefficients) = basis.insert(problem.first(line))? {
        return Ok(Some(relation(alloc, coefficients.as_slice(), 1, left)?));
    }
    if let Inserted::Old(coefficients) = basis.insert(problem.second(line))? {
        return Ok(Some(relation(alloc, coefficients.as_slice(), 0, left)?));
    }
    Ok(None)
}

/// The basis that took the vectors of the lines, two a line in order, where they are independent.
pub fn basis_of_lines<F: Field>(
    alloc: Global,
    problem: &Problem<F>,
    set: &LineSet,
) -> Result<LineBasis<F>, AllocError>
    requires { All (λ m. m < length problem.now.lines) set.now }
    ensures { IfOk result (TellsBasis F.scalars problem.now set.now) }
{
    let mut basis = Echelon::new(alloc, problem.dimension())?;
    for i in 0..set.len() {
        if let Some(relation) = take_line(alloc, problem, set, i, &mut basis)? {
            return Ok(LineBasis::Relation(relation));
        }
    }
    Ok(LineBasis::Basis(basis))
}

/// Tells whether the vectors of the lines, two a line in order, are independent.
pub fn is_independent<F: Field>(
    alloc: Global,
    problem: &Problem<F>,
    set: &LineSet,
) -> Result<Independence<F>, AllocError>
    requires { All (λ m. m < length problem.now.lines) set.now }
    ensures { IfOk result (TellsIndependence F.scalars problem.now set.now) }
{
    match basis_of_lines(alloc, problem, set)? {
        LineBasis::Basis(_basis) => Ok(Independence::Independent),
        LineBasis::Relation(relation) => Ok(Independence::Relation(relation)),
    }
}
