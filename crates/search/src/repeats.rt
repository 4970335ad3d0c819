//! Lines whose span is that of an earlier line.

ghost use Rattle.std.specs.Prelude.{◌≡◌, ◌<◌, ℕ, All, IfOk, IfSome, length};
ghost use Rattle.search.specs.Repeats.{AreFirsts};

use echelon::first_nonzero;
use field_core::{Field, Row};
use indexmap::IndexSet;
use parity_lines::Problem;
use std::alloc::{AllocError, Global};

/// Puts the numbers of the scalars last.
fn push_numbers<F: Field>(numbers: &mut Vec<u16>, row: &[F]) -> Result<(), AllocError> {
    for i in 0..row.len() {
        numbers.push(row[i].number())?;
    }
    Ok(())
}

/// Makes the first entry that isn't zero one, and tells its index.
fn make_monic<F: Field>(row: &mut Row<F>) -> Option<usize>
    ensures long { length row.new ≡ length row.old }
    ensures within { IfSome result (λ i. i < length row.new) }
{
    let lead = first_nonzero(row.as_slice())?;
    if let Some(inverse) = row.as_slice()[lead].inverse() {
        row.multiply(inverse);
    }
    Some(lead)
}

/// Takes from the row what makes its entry at the index zero, of a row that is one there.
fn clear_at<F: Field>(row: &mut Row<F>, other: &Row<F>, lead: usize)
    requires long { length other.now ≡ length row.old }
    requires within { lead < length row.old }
    ensures { length row.new ≡ length row.old }
{
    let entry = row.as_slice()[lead];
    row.add_multiple(entry.neg(), other.as_slice());
}

/// Whether the row with the lead `a` stands behind the one with the lead `b`, in order of their leads. Zero rows stand first.
fn stands_behind(a: Option<usize>, b: Option<usize>) -> bool {
    match (a, b) {
        (Some(i), Some(j)) => j < i,
        (Some(_), None) => true,
        _ => false,
    }
}

/// The numbers of the reduced basis of the line's span, row by row, behind zeros.
fn numbers_of_span<F: Field>(
    alloc: Global,
    problem: &Problem<F>,
    line: usize,
) -> Result<Vec<u16>, AllocError>
    requires { line < length problem.now.lines }
{
    let mut first = Row::copy_of(alloc, problem.first(line))?;
    let mut second = Row::copy_of(alloc, problem.second(line))?;
    let a = make_monic(&mut first);
    if let Some(lead) = a {
        clear_at(&mut second, &first, lead);
    }
    let b = make_monic(&mut second);
    if let Some(lead) = b {
        clear_at(&mut first, &second, lead);
    }
    let (upper, lower) = if stands_behind(a, b) {
        (second, first)
    } else {
        (first, second)
    };
    let mut numbers = Vec::new(alloc);
    push_numbers(&mut numbers, upper.as_slice())?;
    push_numbers(&mut numbers, lower.as_slice())?;
    Ok(numbers)
}

/// The line that is known by the number, or `line`, which is put last.
fn known_by(known: &mut Vec<usize>, number: usize, line: usize) -> Result<usize, AllocError>
    ensures known { (n : ℕ) → line < n → All (λ m. m < n) known.old.items → All (λ m. m < n) known.new.items }
    ensures first { IfOk result (λ first. (n : ℕ) → line < n → All (λ m. m < n) known.old.items → first < n) }
{
    if number < known.len() {
        return Ok(known[number]);
    }
    known.push(line)?;
    Ok(line)
}

/// For each line the first one with its span.
pub fn first_lines<F: Field>(alloc: Global, problem: &Problem<F>) -> Result<Vec<usize>, AllocError>
    ensures { IfOk result (λ firsts. AreFirsts (length problem.now.lines) firsts.items) }
{
    let mut spans = IndexSet::new(alloc);
    let mut known = Vec::new(alloc);
    let mut firsts = Vec::new(alloc);
    for line in 0..problem.len() {
        let (number, _) = spans.insert_full(numbers_of_span(alloc, problem, line)?)?;
        let first = known_by(&mut known, number, line)?;
        firsts.push(first)?;
    }
    Ok(firsts)
}

/// The lines that are first with their spans, in order.
pub fn own_lines(alloc: Global, firsts: &[usize]) -> Result<Vec<usize>, AllocError>
    ensures { IfOk result (λ order. All (λ m. m < length firsts.now) order.items) }
{
    let mut order = Vec::new(alloc);
    for line in 0..firsts.len() {
        if firsts[line] == line {
            order.push(line)?;
        }
    }
    Ok(order)
}
